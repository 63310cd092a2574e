ghost use Rattle.std.specs.Prelude.{◌≡◌, ℕ, List, Ok, MatchResult, IfOk, IfErr, IsErr, IsOkUnless, option_map};
ghost use Rattle.script_words.specs.declared.cause.Cause.{Cause};
ghost use Rattle.script_words.specs.Reading.{Gives};
ghost use Rattle.commands.specs.Scripts.{script_command_of};
ghost use Rattle.script_lang.specs.declared.script.ScriptLine.{ScriptLine};
ghost use Rattle.script_lang.specs.declared.script.ScriptRefused.TheVariants.{NoMemory};
ghost use Rattle.script_lang.specs.Script.{line_of, script_of, RefusedFor};
ghost use Rattle.script_lang.specs.Grammar.{IsScript, IsRefusedAt, IsRefusedFor};

use crate::reading::Reading;
use crate::settings::command_of;
use commands::ScriptCommand;
use row_values::Records;
use script_words::{Cause, LineError, first_line, words_of_line};
use std::alloc::Global;
use std::marker::Model;

/// A command, and the number of its line, counted from 1. Contracts see it as the book's.
#[derive(Debug, Drop)]
pub struct NumberedCommand {
    pub line: u64,
    pub command: ScriptCommand,
}

impl Model for NumberedCommand {
    ghost use Rattle.model.specs.Scripts.{Numbered};
    ghost use Rattle.commands.specs.Scripts.{script_command_of};

    ghost Value = { Numbered };

    ghost view = { λ c. record { line = c.line; command = script_command_of c.command } };
}

/// What is run as one.
#[derive(Debug, Drop)]
pub enum ScriptLine {
    /// A command of its own.
    Single(NumberedCommand),
}

/// The commands of a script in their order.
#[derive(Debug, Drop)]
pub struct Script {
    pub lines: Records<ScriptLine>,
}

/// Why a text is not read as a script.
#[derive(Clone, Copy, Debug, PartialEq, Eq)]
pub enum ScriptRefused {
    /// The first line that is not in the grammar, counted from 1, and its first cause.
    Line { line: u64, cause: Cause },
    NoMemory,
}

// The command of a line, None where it does nothing.
#[tactic(auto, unfolding(crate::specs::Script::line_of))]
fn line_of(with: Reading, line: &[u8]) -> Result<Option<ScriptCommand>, LineError>
    ensures exact { Gives (option_map script_command_of) result (line_of with.slots line.now) }
{
    let words = words_of_line(with.alloc, line)?;
    match words.as_slice() {
        [] => Ok(None),
        [word, rest @ ..] => {
            let command = command_of(with, word.as_slice(), rest)?;
            Ok(Some(command))
        }
    }
}

// The commands of the lines.
#[tactic(auto, unfolding(crate::specs::Script::script_from))]
fn read_lines(with: Reading, bytes: &[u8]) -> Result<Script, ScriptRefused>
    ensures exact { MatchResult result
        (λ script. script_of with.slots bytes.now ≡ Ok script.lines)
        (RefusedFor (script_of with.slots bytes.now)) }
{
    let mut lines = Records::new(with.alloc);
    let mut rest = bytes;
    let mut number: u64 = 0;
    while !rest.is_empty() {
        let (line, behind) = first_line(rest);
        number += 1;
        match line_of(with, line) {
            Ok(None) => {}
            Ok(Some(command)) => {
                let numbered = NumberedCommand {
                    line: number,
                    command,
                };
                if lines.push(ScriptLine::Single(numbered)).is_err() {
                    return Err(ScriptRefused::NoMemory);
                }
            }
            Err(LineError::Refused(cause)) => {
                return Err(ScriptRefused::Line {
                    line: number,
                    cause,
                });
            }
            Err(LineError::NoMemory) => return Err(ScriptRefused::NoMemory),
        }
        rest = behind;
    }
    Ok(Script { lines })
}

/// Reads the text of a script for so many slots. It is Ok exactly where each line is in the grammar,
/// with the commands that the text means; else it names the first line that isn't, and that line's
/// first cause.
pub fn read_script(alloc: Global, bytes: &[u8], slots: u32) -> Result<Script, ScriptRefused>
    ensures exact { MatchResult result
        (λ script. script_of slots bytes.now ≡ Ok script.lines)
        (RefusedFor (script_of slots bytes.now)) }
    ensures script { IfOk result (λ script. IsScript slots bytes.now script.lines) }
    ensures refused { IfErr result (IsRefusedFor slots bytes.now) }
    ensures accepted { (found : List ScriptLine) → IsScript slots bytes.now found → IsOkUnless result NoMemory }
    ensures told { (line : ℕ) (cause : Cause) → IsRefusedAt slots bytes.now line cause → IsErr result }
{
    read_lines(Reading { alloc, slots }, bytes)
}
