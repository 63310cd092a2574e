//! What the words of a command mean, by the places where they stand.
//!
//! A place says what it asks for (`Place`). Each kind of place has a definition of what it makes of
//! the words and for which cause it refuses them, a reader that is exact against it, and laws: what
//! is read is what was spelled, and each refusal has its reason.
#![tactic(auto)]

mod column;
mod groups;
mod identifiers;
mod item;
mod laws;
mod names;
mod numbers;
mod place;
mod times;
mod values;
mod words;

pub use column::{column_at, columns};
pub use identifiers::identifier;
pub use item::items;
pub use laws::{numbers_are_decimal, what_spells_a_form_is_read_as_it};
pub use names::{database_at, key_at, name_at};
pub use numbers::{number_at, slot_at};
pub use place::{Place, counted};
pub use times::{maybe_time, time};
pub use values::cells;
pub use words::next_of;

#[cfg(test)]
mod tests;
