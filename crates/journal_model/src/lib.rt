//! The journal of a cluster, and the view of it at a time, told plainly and slowly: each look goes back over the changes,
//! the newest first. Nothing that serves a cluster calls it. Tests compare faster bodies with it.
#![tactic(auto)]

mod change;
mod journal;
mod names;
mod rows;
mod tables;
mod view;

pub use change::{Change, ChangeAct, TablePair};
pub use journal::Journal;
pub use names::namespace_at;
pub use rows::row_at;
pub use tables::table_at;
pub use view::TableView;
