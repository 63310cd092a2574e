//! What retention needs, and what cleaning up comes to: how far cutoffs may be raised, which hidden
//! tablets and snapshots may go, and which records of the catalog.
//!
//! None of these calls changes the master. What an act does is `MasterPart`'s own.
#![tactic(auto)]

mod cutoffs;
mod cuts;
mod floors;
mod judging;
mod listers;
mod plans;
mod pruning;
mod removals;
mod removing;

pub use cutoffs::allowed_cutoff;
pub use pruning::decide_prune;
pub use removals::removable;
pub use removing::{decide_remove, removal_slot};
