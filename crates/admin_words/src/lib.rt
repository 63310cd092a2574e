//! The words of which the service's texts are made, each put at the end of a text that grows.
//!
//! The texts of replies and of histories are this project's own. No word is made by itself first:
//! its bytes go to the text's end.
#![tactic(auto)]

mod asked;
mod batches;
mod columns;
mod lines;
mod named;
mod rows;
mod text;
mod told;
mod values;

pub use columns::{ById, ByName, ColumnNames};
pub use text::Text;
pub use told::Told;
