//! A part: the log of what was added.
ghost use Rattle.std.specs.Prelude.{◌≡◌, [], ◌∷◌, ◌++◌, ◌≤◌, length, OnOk};

use crate::gate::Gate;
use crate::machine::Add;
use row_values::NoMemory;
use std::alloc::Global;
use std::marker::Model;
use std::sync::Arc;
use step_table::Entry;

/// A counter is the number of the entries in its log. It may share a gate with a test.
#[derive(Drop)]
pub struct Counter {
    log: Vec<Entry<Add, u64>>,
    gate: Option<Arc<Gate, Global>>,
}

impl Model for Counter {
    ghost use Rattle.std.specs.Prelude.{◌-◌, vec_capacity, vec_len};
    ghost use Rattle.step_counters.specs.Counts.{CounterView};

    ghost Value = { CounterView };

    ghost view = { λ c. record { log = c.log.items; room = vec_capacity c.log - vec_len c.log } };
}

impl Counter {
    /// A counter at 0.
    pub fn new(alloc: Global) -> Counter
        ensures log { result.log ≡ [] }
    {
        Counter {
            log: Vec::new(alloc),
            gate: None,
        }
    }

    /// A counter at 0 whose events pass the gate before they are prepared.
    pub fn behind(alloc: Global, gate: Arc<Gate, Global>) -> Counter
        ensures log { result.log ≡ [] }
    {
        Counter {
            log: Vec::new(alloc),
            gate: Some(gate),
        }
    }

    /// The number of entries.
    pub fn len(&self) -> u64
        ensures count { result ≡ length self.now.log }
    {
        self.log.len() as u64
    }

    /// Waits at the gate, if there is one.
    pub(crate) fn pass_gate(&self) {
        if let Some(gate) = &self.gate {
            gate.pass();
        }
    }

    /// Makes room for one entry.
    pub(crate) fn make_room(&mut self) -> Result<(), NoMemory>
        ensures log { self.new.log ≡ self.old.log }
        ensures room { OnOk result (1 ≤ self.new.room) }
    {
        self.log.reserve(1)?;
        Ok(())
    }

    /// Adds an entry, for which there is room.
    pub(crate) fn note(&mut self, entry: Entry<Add, u64>)
        requires room { 1 ≤ self.old.room }
        ensures log { self.new.log ≡ self.old.log ++ entry ∷ [] }
    {
        self.log.push(entry).unwrap();
    }
}
