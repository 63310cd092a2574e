//! The master's catalog: namespaces and tables, each record with the interval in which it held.
//!
//! A record never moves and nothing of it changes but its end, so an index over what stays of it is
//! not touched when the record ends: ending one is a write at its place. Names are looked up by a
//! number made of their bytes, and records of the same number are walked back, the newest first: so
//! no name is copied, neither to be looked up nor to be noted.
#![tactic(auto)]

mod catalog;
mod codes;
mod keeping;
mod keys;
mod marks;
mod namespaces;
mod owners;
mod pruning;
mod records;
mod standing;
mod tables;

pub use catalog::Catalog;
pub use keeping::Keeps;
pub use marks::{Marks, Rises};
pub use namespaces::Namespaces;
pub use owners::Owners;
pub use pruning::Cuts;
pub use records::{NamespaceRecord, TableRecord};
pub use tables::Tables;
