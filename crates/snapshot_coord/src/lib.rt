//! The records of snapshots: which tablets freeze for each, and which have said that they did.
//!
//! That a snapshot of a namespace is made by a schedule is YugabyteDB's own. That each record has the
//! time of the one before it, so that a tablet which was active in between freezes too, is this
//! project's own rule.
#![tactic(auto)]

mod list;
mod looks;
mod record;

pub use list::Snapshots;
pub use record::SnapshotRecord;
