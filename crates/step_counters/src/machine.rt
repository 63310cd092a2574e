//! The machine of counters.
ghost use Rattle.std.specs.Prelude.{◌≡◌, ℕ, List, [], length};
ghost use Rattle.step_counters.specs.Adds.{core_of};
ghost use Rattle.step_counters.specs.Lawful.{lawful};

use crate::counter::Counter;
use row_values::{NoMemory, Records, Slots};
use std::alloc::Global;
use step_table::{Entry, Held, Machine};

/// Which counters an event touches: one, two, or all of so many.
#[derive(Clone, Copy, Drop)]
pub enum Add {
    One { slot: u32 },
    Two { slot: u32, other: u32 },
    All { count: u32 },
}

/// No memory, or a log of 1,000,000 entries.
#[derive(Drop)]
pub enum Full {
    NoMemory,
    Full,
}

/// Each event adds its entry to the log of the least counter that it touches, and answers how many
/// entries that log has then.
pub struct Counters;

impl Machine for Counters {
    type Part = Counter;

    type Event = Add;

    type Ready = Add;

    type Reply = u64;

    type Refused = Full;

    ghost core = { core_of };

    fn touches(alloc: Global, event: &Add) -> Result<Slots, NoMemory> {
        let mut slots = Records::new(alloc);
        match *event {
            Add::One { slot } => slots.push(slot)?,
            Add::Two { slot, other } => {
                slots.push(slot)?;
                slots.push(other)?;
            }
            Add::All { count } => {
                for slot in 0..count {
                    slots.push(slot)?;
                }
            }
        }
        Ok(slots)
    }

    fn entries(part: &Counter) -> u64 {
        part.len()
    }

    fn no_memory() -> Full {
        Full::NoMemory
    }

    fn prepare(held: &mut Held<Counter>, event: &Add) -> Result<Add, Full> {
        let first = held.part(0);
        first.pass_gate();
        if first.len() >= 1_000_000 {
            return Err(Full::Full);
        }
        if held.part_mut(0).make_room().is_err() {
            return Err(Full::NoMemory);
        }
        Ok(*event)
    }

    fn apply(held: &mut Held<Counter>, _ready: Add, event: Add, number: u64) -> u64 {
        let first = held.part_mut(0);
        let reply = first.len() + 1;
        first.note(Entry {
            number,
            event,
            reply,
        });
        reply
    }

    ghost lawful = { lawful };
}
