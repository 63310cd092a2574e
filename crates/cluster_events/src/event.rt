ghost use Rattle.std.specs.Prelude.{◌≡◌};
ghost use Rattle.cluster_events.specs.SeenActs.{act_of};

use crate::act::Act;
use row_values::{Copied, NoMemory};
use std::marker::Model;

/// An act of a caller, with the physical reading at which it is asked, in microseconds. Contracts see
/// it as the book's.
#[derive(Debug, Drop)]
pub struct Event {
    pub caller: u32,
    pub reading: u64,
    pub act: Act,
}

impl Model for Event {
    ghost use Rattle.model.specs.Acts.{Event};
    ghost use Rattle.cluster_events.specs.SeenActs.{act_of};

    ghost Value = { Event };

    ghost view = { λ e. record { caller = e.caller; reading = e.reading; act = act_of e.act } };
}

impl Event {
    /// Who asks.
    pub fn caller(&self) -> u32
        ensures caller { result ≡ self.now.caller }
    {
        self.caller
    }

    /// The physical reading.
    pub fn reading(&self) -> u64
        ensures reading { result ≡ self.now.reading }
    {
        self.reading
    }

    /// What it does.
    pub fn act(&self) -> &Act
        ensures act { act_of result.now ≡ self.now.act }
    {
        &self.act
    }
}

impl Copied for Event {
    fn copy(&self) -> Result<Event, NoMemory> {
        Ok(Event {
            caller: self.caller,
            reading: self.reading,
            act: self.act.copy()?,
        })
    }
}
