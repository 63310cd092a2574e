//! The records of clones: names, identifiers and slots that each has reserved, and how far it is.
//!
//! That a database is cloned as of a time is YugabyteDB's own. The states, and that identifiers and
//! slots are reserved when a clone is accepted, are this project's own rules.
#![tactic(auto)]

mod list;
mod looks;
mod record;
mod state;

pub use list::Clones;
pub use record::{CloneRecord, IdPair, TabletPair};
pub use state::CloneState;
