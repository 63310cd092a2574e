use commands::{Ask, Command};
use hybrid_time::HybridTime;
use row_values::{Batch, Copied, Key, NoMemory, Records, Slots};
use std::marker::Model;
use yb_ident::Ident;

/// The tablet that an event expects in a slot. Contracts see it as the book's.
#[derive(Clone, Copy, Debug, PartialEq, Eq)]
pub struct At {
    pub slot: u32,
    pub tablet: Ident,
}

impl Model for At {
    ghost use Rattle.model.specs.Acts.{At};

    ghost Value = { At };

    ghost view = { λ a. record { slot = a.slot; tablet = a.tablet } };

    ghost inverse = { λ v. record { slot = v.slot; tablet = v.tablet } };
}

/// What an event does. Slot 0 is the master's; a tablet's slot is from 1 on.
#[derive(Debug, Drop, PartialEq, Eq)]
pub enum Act {
    /// Asks the master.
    Look(Ask),
    /// Has the master do a command, whose plan was these slots.
    Change {
        command: Command,
        slots: Slots,
    },
    /// Writes a batch, under this version of the table's schema.
    Write {
        place: At,
        version: u32,
        batch: Batch,
    },
    /// Reads all rows of these tablets, or the row of a key; at a time, or at the event's own stamp.
    Read {
        places: Records<At>,
        version: u32,
        key: Option<Key>,
        at: Option<HybridTime>,
        columns: Slots,
    },
    /// Raises the cutoff of a tablet as far as it may be.
    Cutoff {
        slot: u32,
    },
    Compact {
        slot: u32,
    },
    /// Sends an operation's command to the tablet in a slot.
    Send {
        operation: Ident,
        slot: u32,
    },
    /// Has a tablet do the first command of its inbox; a copy takes rows of the other slot's tablet.
    Process {
        slot: u32,
        other: u32,
    },
    /// Has the master note that the tablet in a slot did an operation's command.
    Ack {
        operation: Ident,
        slot: u32,
    },
    /// Moves the record of an operation to its next state.
    Advance {
        operation: Ident,
    },
    /// Removes a hidden tablet, or a snapshot from these slots.
    Remove {
        target: Ident,
        slots: Slots,
    },
    /// Has the master forget what no time needs.
    Prune,
    Restart {
        slot: u32,
    },
    /// Counts what a tablet has.
    Stats {
        slot: u32,
    },
}

impl Copied for At {
    fn copy(&self) -> Result<At, NoMemory> {
        Ok(*self)
    }
}

impl Copied for Act {
    fn copy(&self) -> Result<Act, NoMemory> {
        match self {
            Act::Look(ask) => Ok(Act::Look(ask.copy()?)),
            Act::Change { command, slots } => Ok(Act::Change {
                command: command.copy()?,
                slots: slots.copy()?,
            }),
            Act::Write {
                place,
                version,
                batch,
            } => Ok(Act::Write {
                place: *place,
                version: *version,
                batch: batch.copy()?,
            }),
            Act::Read {
                places,
                version,
                key,
                at,
                columns,
            } => Ok(Act::Read {
                places: places.copy()?,
                version: *version,
                key: key.copy()?,
                at: *at,
                columns: columns.copy()?,
            }),
            Act::Cutoff { slot } => Ok(Act::Cutoff { slot: *slot }),
            Act::Compact { slot } => Ok(Act::Compact { slot: *slot }),
            Act::Send { operation, slot } => Ok(Act::Send {
                operation: *operation,
                slot: *slot,
            }),
            Act::Process { slot, other } => Ok(Act::Process {
                slot: *slot,
                other: *other,
            }),
            Act::Ack { operation, slot } => Ok(Act::Ack {
                operation: *operation,
                slot: *slot,
            }),
            Act::Advance { operation } => Ok(Act::Advance {
                operation: *operation,
            }),
            Act::Remove { target, slots } => Ok(Act::Remove {
                target: *target,
                slots: slots.copy()?,
            }),
            Act::Prune => Ok(Act::Prune),
            Act::Restart { slot } => Ok(Act::Restart { slot: *slot }),
            Act::Stats { slot } => Ok(Act::Stats { slot: *slot }),
        }
    }
}
