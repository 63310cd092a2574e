//! The commands that set how later lines are run.

ghost use Rattle.script_words.specs.Reading.{Gives};
ghost use Rattle.commands.specs.Scripts.{script_command_of};
ghost use Rattle.script_places.specs.Places.{read_form};
ghost use Rattle.script_lang.specs.Settings as settings;
ghost use Rattle.script_lang.specs.Table.{command_of};

use crate::catalog;
use crate::limits::{MOST_MICROS, MOST_NUMBER};
use crate::reading::Reading;
use commands::ScriptCommand;
use row_values::Bytes;
use script_places::{Place, counted, number_at, slot_at};
use script_words::{Cause, LineError};

#[tactic(auto, unfolding(script_places::specs::Places::read_form))]
fn tick(with: Reading, words: &[Bytes]) -> Result<ScriptCommand, LineError>
    ensures exact { Gives script_command_of result (read_form with.slots settings.tick words.now) }
{
    let micros = Place::Number {
        least: 0,
        most: MOST_MICROS,
    };
    counted(&[micros], words)?;
    let (micros, _) = number_at(words, Cause::BadNumber, 0, MOST_MICROS)?;
    Ok(ScriptCommand::Tick { micros })
}

#[tactic(auto, unfolding(script_places::specs::Places::read_form))]
fn lag(with: Reading, words: &[Bytes]) -> Result<ScriptCommand, LineError>
    ensures exact { Gives script_command_of result (read_form with.slots settings.lag words.now) }
{
    let micros = Place::Number {
        least: 0,
        most: MOST_NUMBER,
    };
    counted(&[Place::Slot, micros], words)?;
    let (slot, rest) = slot_at(words, with.slots)?;
    let (micros, _) = number_at(rest, Cause::BadNumber, 0, MOST_NUMBER)?;
    Ok(ScriptCommand::Lag { slot, micros })
}

/// The command of a line's first word and those behind it.
#[tactic(auto, unfolding(crate::specs::Table::command_of))]
pub fn command_of(with: Reading, word: &[u8], rest: &[Bytes]) -> Result<ScriptCommand, LineError>
    ensures exact { Gives script_command_of result (command_of with.slots word.now rest.now) }
{
    if word == b"tick".as_slice() {
        return tick(with, rest);
    }
    if word == b"lag".as_slice() {
        return lag(with, rest);
    }
    catalog::command_of(with, word, rest)
}
