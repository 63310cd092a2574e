//! What the part of a tablet is told by an act of the cluster, with all that the act needs of memory, and
//! what acts on tablets come to. Contracts see both as the book's.
#![tactic(auto)]

mod plan;
mod plans;
mod processing;
mod refused;
mod told;

pub use plan::{SlotTold, TabletsPlan};
pub use plans::{compact, cutoff, stats, write};
pub use processing::process;
pub use told::TabletTold;
