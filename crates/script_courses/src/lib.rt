//! How the command of a script goes on: what it looks for, the acts that follow what was found, and
//! what its line shows.
//!
//! Contracts see a course as the book's, by the functions of `specs/`.
#![tactic(auto)]

mod course;
mod courses;
mod follows;
mod placed;
mod times;

pub use course::{Course, Follow, Showing, Work};
pub use courses::course_of;
pub use follows::{acts_after, columns_placed, rows_of};
