//! What may be asked of a cluster: commands, looks, and the commands of a script.
//!
//! Names of columns stand in these as they were written; a look finds the columns' ids. Contracts see
//! each struct as the book's record, and an enum by its function in `specs/`.
#![tactic(auto)]

mod ask;
mod command;
mod named;
mod script;
mod time;

pub use ask::Ask;
pub use command::Command;
pub use named::{NamedCell, NamedItem, NamedOp};
pub use script::ScriptCommand;
pub use time::Time;
