//! In which intervals each tablet was active: took its table's rows in its range, in its slot.
//!
//! Intervals are kept in the order in which they began, and are found by their tablet, their table
//! and their slot without a search through all. Those of a namespace are the tablets of the tables
//! that the catalog has it own. That a tablet's place can be asked for any time that is kept is this
//! project's own rule.
#![tactic(auto)]

mod again;
mod agree;
mod begun;
mod free;
mod interval;
mod lists;
mod slots;
mod steps;
mod tablets;
mod used;

pub use again::restore_tablets;
pub use interval::Interval;
pub use lists::{active_tablets, intervals_in, owns, tablets_active_at};
pub use slots::SlotCounts;
pub use tablets::Tablets;
