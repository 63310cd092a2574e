use row_values::{Copied, NoMemory, Slots};
use std::marker::Model;
use yb_ident::Ident;

/// What a coordinator does next.
#[derive(Clone, Copy, Debug, PartialEq, Eq)]
pub enum WorkItem {
    /// Sends a command to the tablet in a slot.
    Send {
        operation: Ident,
        slot: u32,
    },
    /// Has the tablet in a slot do its command, and notes that it did. A copy takes rows from the other slot.
    Collect {
        operation: Ident,
        slot: u32,
        other: u32,
    },
    /// Moves the operation's record.
    Advance {
        operation: Ident,
    },
}

/// A tablet or a snapshot that may be removed, with the slots that its removal touches. Contracts see
/// it as the book's.
#[derive(Debug, Drop, PartialEq, Eq)]
pub struct Removal {
    pub target: Ident,
    pub slots: Slots,
}

impl Model for Removal {
    ghost use Rattle.model.specs.Acts.{Removal};

    ghost Value = { Removal };

    ghost view = { λ r. record { target = r.target; slots = r.slots } };

    ghost inverse = { λ v. record { target = v.target; slots = v.slots } };
}

impl Copied for Removal {
    fn copy(&self) -> Result<Removal, NoMemory> {
        Ok(Removal {
            target: self.target,
            slots: self.slots.copy()?,
        })
    }
}
