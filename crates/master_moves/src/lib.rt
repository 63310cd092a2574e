//! What a coordinator does next, and what its acts come to: sends, acks, and the moves of the records of
//! snapshots, restorations and clones. Each contract is the book's plan.
//!
//! None of these calls changes the master. What a move does is `MasterPart`'s own.
#![tactic(auto)]

mod advancing;
mod cloning;
mod coordinating;
mod fields;
mod lists;
mod restoring;
mod switching;
mod targets;
mod working;

pub use advancing::decide_advance;
pub use coordinating::{decide_ack, decide_advance_snapshot, decide_send, pending_mark};
pub use working::next_work;
