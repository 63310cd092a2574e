//! The lines that the service writes: replies, and the entries of a history, exactly as the book has them.
//!
//! Each function puts its text at the end of one that grows. There is one for every reply and every act.
#![tactic(auto)]

mod act;
mod entry;
mod refusal;
mod reply;

pub use act::tell_act;
pub use entry::tell_entry;
pub use refusal::tell_refusal;
pub use reply::tell_reply;
