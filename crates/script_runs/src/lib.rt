//! The run of a script: its commands, one after the other, over a cluster.
//!
//! A command's events are the book's, under the script's reading; where an event of a command that is told
//! or looks touches one slot alone, that slot's lag comes off. The line that a command writes tells its
//! replies, or how many events it made. A coordinator performs what comes next, so many times or until
//! nothing comes.
#![tactic(auto)]

mod lone;
mod run;
mod shown;
mod stop;

pub use run::ScriptRun;
pub use stop::Stop;
