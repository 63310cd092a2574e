//! The serial driver of a machine: its parts in their places, and one event performed after another by the same `touches`,
//! `prepare` and `apply` with which a table of locks performs them in threads.
//!
//! A `Line` is seen as what its parts mean. Their logs together are its history, so what is said of the history that a table's
//! threads made is said of a line's in the same words. An event moves the parts that it touches, and no other.
#![tactic(auto)]

mod line;
mod places;
mod steps;

pub use line::Line;
