//! The grammar of a script: which text a line of which command is, and for which cause one is none.
//!
//! Each command is a form in the table of `specs/` (its word, the places of its other words, its
//! constructor) and a function here that reads as the form says.
#![tactic(auto)]

mod catalog;
mod laws;
mod limits;
mod reading;
mod restores;
mod rows;
mod schedules;
mod script;
mod settings;
mod tablets;
mod work;

pub use commands::{NamedCell, NamedItem, NamedOp, ScriptCommand, Time};
pub use laws::{
    a_line_has_one_meaning, a_line_is_read_as_the_grammar_says,
    a_text_is_a_script_or_has_a_first_wrong_line, no_other_byte_is_accepted,
    what_spells_a_command_is_read_as_it,
};
pub use script::{NumberedCommand, Script, ScriptLine, ScriptRefused, read_script};
pub use script_words::Cause;

#[cfg(test)]
mod tests;
