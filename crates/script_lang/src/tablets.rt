//! The commands on tablets and their history.

ghost use Rattle.script_words.specs.Reading.{Gives};
ghost use Rattle.commands.specs.Scripts.{script_command_of};
ghost use Rattle.script_places.specs.Places.{read_form};
ghost use Rattle.script_lang.specs.Tablets as tablets;
ghost use Rattle.script_lang.specs.Table.{from_tablets};

use crate::limits::MOST_CODE;
use crate::reading::Reading;
use crate::schedules;
use commands::ScriptCommand;
use row_values::Bytes;
use script_places::{Place, counted, name_at, number_at, slot_at};
use script_words::{Cause, LineError};

#[tactic(auto, unfolding(script_places::specs::Places::read_form))]
fn split(with: Reading, words: &[Bytes]) -> Result<ScriptCommand, LineError>
    ensures exact { Gives script_command_of result (read_form with.slots tablets.split words.now) }
{
    let code = Place::Number {
        least: 0,
        most: MOST_CODE,
    };
    counted(&[Place::Name, Place::Name, code], words)?;
    let (namespace, rest) = name_at(with.alloc, words)?;
    let (table, rest) = name_at(with.alloc, rest)?;
    let (code, _) = number_at(rest, Cause::BadNumber, 0, MOST_CODE)?;
    Ok(ScriptCommand::Split {
        namespace,
        table,
        code: code as u16,
    })
}

#[tactic(auto, unfolding(script_places::specs::Places::read_form))]
fn list_tablets(with: Reading, words: &[Bytes]) -> Result<ScriptCommand, LineError>
    ensures exact { Gives script_command_of result (read_form with.slots tablets.list_tablets words.now) }
{
    counted(&[Place::Name], words)?;
    let (namespace, _) = name_at(with.alloc, words)?;
    Ok(ScriptCommand::ListTablets { namespace })
}

#[tactic(auto, unfolding(script_places::specs::Places::read_form))]
fn cutoff(with: Reading, words: &[Bytes]) -> Result<ScriptCommand, LineError>
    ensures exact { Gives script_command_of result (read_form with.slots tablets.cutoff words.now) }
{
    counted(&[], words)?;
    Ok(ScriptCommand::Cutoff)
}

#[tactic(auto, unfolding(script_places::specs::Places::read_form))]
fn compact(with: Reading, words: &[Bytes]) -> Result<ScriptCommand, LineError>
    ensures exact { Gives script_command_of result (read_form with.slots tablets.compact words.now) }
{
    counted(&[], words)?;
    Ok(ScriptCommand::Compact)
}

#[tactic(auto, unfolding(script_places::specs::Places::read_form))]
fn stats(with: Reading, words: &[Bytes]) -> Result<ScriptCommand, LineError>
    ensures exact { Gives script_command_of result (read_form with.slots tablets.stats words.now) }
{
    counted(&[Place::Slot], words)?;
    let (slot, _) = slot_at(words, with.slots)?;
    Ok(ScriptCommand::Stats { slot })
}

/// The command of a line's first word and those behind it, where the word is none of those that are
/// looked for earlier.
#[tactic(auto, unfolding(crate::specs::Table::from_tablets))]
pub fn command_of(with: Reading, word: &[u8], rest: &[Bytes]) -> Result<ScriptCommand, LineError>
    ensures exact { Gives script_command_of result (from_tablets with.slots word.now rest.now) }
{
    if word == b"split".as_slice() {
        return split(with, rest);
    }
    if word == b"list_tablets".as_slice() {
        return list_tablets(with, rest);
    }
    if word == b"cutoff".as_slice() {
        return cutoff(with, rest);
    }
    if word == b"compact".as_slice() {
        return compact(with, rest);
    }
    if word == b"stats".as_slice() {
        return stats(with, rest);
    }
    schedules::command_of(with, word, rest)
}
