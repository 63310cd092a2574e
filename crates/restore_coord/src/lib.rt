//! The records of restorations: how far each is, and which tablets are yet to do their part.
//!
//! That a database is restored to a time by the snapshot that serves the time is YugabyteDB's own. The
//! states, and that a namespace has one unfinished restoration at most, are this project's own rules.
#![tactic(auto)]

mod list;
mod looks;
mod record;
mod state;

pub use list::Restorations;
pub use record::RestorationRecord;
pub use state::RestorationState;
