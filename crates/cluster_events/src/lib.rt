//! What happens to a cluster, and what it answers: acts, events, replies and refusals.
//!
//! Contracts see each struct as the book's record, and an enum by its function in `specs/`.
#![tactic(auto)]

mod act;
mod event;
mod lines;
mod place;
mod refusal;
mod reply;
mod state;
mod work;

pub use act::{Act, At};
pub use event::Event;
pub use lines::{CloneLine, RestorationLine, ScheduleLine, SnapshotLine, TabletLine};
pub use place::TabletPlace;
pub use refusal::Refusal;
pub use reply::Reply;
pub use state::State;
pub use work::{Removal, WorkItem};
