//! Values, rows and what an operation makes of them, and the lists that every crate of the project
//! shares. Contracts see each list as the list of its items.
#![tactic(auto)]

mod copied;
mod key;
mod name;
mod no_memory;
mod records;
mod rows;
mod value;

pub use copied::Copied;
pub use key::Key;
pub use name::Name;
pub use no_memory::NoMemory;
pub use records::Records;
pub use rows::{KeyedRow, Row, Rows, apply, cut};
pub use value::{Batch, Bytes, Cell, Cells, Item, RowOp, Slots, Value};
