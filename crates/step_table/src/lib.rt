//! Many locks, one order: the parts of a machine under a lock each, and one history of the events
//! that threads perform on them.
//!
//! A `StepTable` holds the parts of a `Machine` in the slots of an `atomic_table`. Its word 0 is the
//! number of the last entry, and one lock word follows for each slot. A thread steps with a `Pass`,
//! which contracts see as the history that it has seen, the entries that were made with it, the
//! slots that it found taken, its shares and its splits. An event takes the locks of exactly the
//! slots that it touches, in rising order, and takes effect at the one addition to word 0.
//!
//! What is not claimed: that a lock is ever got, so that a call that may wait ever returns; that two
//! threads overlap; and any order in time between calls that told each other nothing. No clause
//! says either that a lock which is given back wakes the thread that waits for it. A pass that is
//! dropped keeps its shares for ever, so that its table can never be closed.
#![tactic(auto)]

mod held;
mod known;
mod machine;
mod named;
mod parts;
mod perform;
mod plays;
mod refused;
mod rows;
mod steps;
mod table;

pub use held::Held;
pub use known::{Entry, Known};
pub use machine::{Machine, MachineRule};
pub use refused::TryRefused;
pub use rows::count_entries;
pub use table::{Pass, StepTable};
