//! A cluster: its parts with their logs, and the history of its events.
//!
//! A step is the book's: the same `touches`, `prepare` and `apply` perform an event here, in one thread,
//! and in a table of locks. What takes memory comes first and may fail; then the touched parts do what
//! they are told, and the first of their logs has one entry more.
//!
//! All acts of the book have code: the events on tablets, the looks and commands that the master's crates
//! answer, what a coordinator does, and the cleanup. `Cluster::next_act` tells what a coordinator does next.
#![tactic(auto)]

mod answer;
mod changes;
mod cleanup;
mod cluster;
mod coordination;
mod cutoffs;
mod dispatch;
mod entries;
mod fault;
mod held;
mod history;
mod line_up;
mod looks;
mod machine;
mod next_acts;
mod on_tablet;
mod outcome;
mod part;
mod parts;
mod prepare;
mod processing;
mod reads;
mod ready;
mod restart;
mod room;
mod rows;
mod run;
mod start;
mod touch;

pub use answer::Answer;
pub use cluster::Cluster;
pub use entries::{Entries, Logged};
pub use fault::StepRefused;
pub use history::History;
pub use machine::ClusterMachine;
pub use part::ClusterPart;
pub use ready::EventReady;
pub use room::PartRoom;
pub use run::StoppedAt;
