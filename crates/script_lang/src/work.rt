//! The commands that work off what is left to do, restart a part, and show what was done.

ghost use Rattle.script_words.specs.Reading.{Gives};
ghost use Rattle.commands.specs.Scripts.{script_command_of};
ghost use Rattle.script_places.specs.Places.{read_form};
ghost use Rattle.script_lang.specs.Work as work;
ghost use Rattle.script_lang.specs.Table.{from_work};

use crate::limits::MOST_EVENTS;
use crate::reading::Reading;
use commands::ScriptCommand;
use row_values::Bytes;
use script_places::{Place, counted, number_at, slot_at};
use script_words::{Cause, LineError};

#[tactic(auto, unfolding(script_places::specs::Places::read_form))]
fn cleanup(with: Reading, words: &[Bytes]) -> Result<ScriptCommand, LineError>
    ensures exact { Gives script_command_of result (read_form with.slots work.cleanup words.now) }
{
    counted(&[], words)?;
    Ok(ScriptCommand::Cleanup)
}

#[tactic(auto, unfolding(script_places::specs::Places::read_form))]
fn coordinate(with: Reading, words: &[Bytes]) -> Result<ScriptCommand, LineError>
    ensures exact { Gives script_command_of result (read_form with.slots work.coordinate words.now) }
{
    let count = Place::Number {
        least: 0,
        most: MOST_EVENTS,
    };
    counted(&[count], words)?;
    let (count, _) = number_at(words, Cause::BadNumber, 0, MOST_EVENTS)?;
    Ok(ScriptCommand::Coordinate { count })
}

#[tactic(auto, unfolding(script_places::specs::Places::read_form))]
fn settle(with: Reading, words: &[Bytes]) -> Result<ScriptCommand, LineError>
    ensures exact { Gives script_command_of result (read_form with.slots work.settle words.now) }
{
    counted(&[], words)?;
    Ok(ScriptCommand::Settle)
}

#[tactic(auto, unfolding(script_places::specs::Places::read_form))]
fn restart_master(with: Reading, words: &[Bytes]) -> Result<ScriptCommand, LineError>
    ensures exact { Gives script_command_of result (read_form with.slots work.restart_master words.now) }
{
    counted(&[], words)?;
    Ok(ScriptCommand::RestartMaster)
}

#[tactic(auto, unfolding(script_places::specs::Places::read_form))]
fn restart_tablet(with: Reading, words: &[Bytes]) -> Result<ScriptCommand, LineError>
    ensures exact { Gives script_command_of result (read_form with.slots work.restart_tablet words.now) }
{
    counted(&[Place::Slot], words)?;
    let (slot, _) = slot_at(words, with.slots)?;
    Ok(ScriptCommand::RestartTablet { slot })
}

#[tactic(auto, unfolding(script_places::specs::Places::read_form))]
fn history(with: Reading, words: &[Bytes]) -> Result<ScriptCommand, LineError>
    ensures exact { Gives script_command_of result (read_form with.slots work.history words.now) }
{
    counted(&[], words)?;
    Ok(ScriptCommand::History)
}

/// The command of a line's first word and those behind it, where the word is none of those that are
/// looked for earlier.
#[tactic(auto, unfolding(crate::specs::Table::from_work))]
pub fn command_of(with: Reading, word: &[u8], rest: &[Bytes]) -> Result<ScriptCommand, LineError>
    ensures exact { Gives script_command_of result (from_work with.slots word.now rest.now) }
{
    if word == b"cleanup".as_slice() {
        return cleanup(with, rest);
    }
    if word == b"coordinate".as_slice() {
        return coordinate(with, rest);
    }
    if word == b"settle".as_slice() {
        return settle(with, rest);
    }
    if word == b"restart_master".as_slice() {
        return restart_master(with, rest);
    }
    if word == b"restart_tablet".as_slice() {
        return restart_tablet(with, rest);
    }
    if word == b"history".as_slice() {
        return history(with, rest);
    }
    Err(LineError::Refused(Cause::UnknownCommand))
}
