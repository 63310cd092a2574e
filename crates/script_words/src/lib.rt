//! The words of a script: its text as lines, a line as words, and the causes for which a line is
//! refused.
#![tactic(auto)]

mod cause;
mod laws;
mod lines;
mod words;

pub use cause::{Cause, LineError};
pub use laws::{
    a_line_feed_ends_a_line, words_are_those_that_are_laid_out, words_of_a_text_are_printed,
};
pub use lines::first_line;
pub use words::{MOST_BYTES, words_of_line};

#[cfg(test)]
mod tests;
