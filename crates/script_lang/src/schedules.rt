//! The commands on snapshot schedules.

ghost use Rattle.script_words.specs.Reading.{Gives};
ghost use Rattle.commands.specs.Scripts.{script_command_of};
ghost use Rattle.script_places.specs.Places.{read_form};
ghost use Rattle.script_lang.specs.Schedules as schedules;
ghost use Rattle.script_lang.specs.Table.{from_schedules};

use crate::limits::MOST_NUMBER;
use crate::reading::Reading;
use crate::restores;
use commands::ScriptCommand;
use row_values::Bytes;
use script_places::{Place, counted, database_at, identifier, next_of, number_at};
use script_words::{Cause, LineError};
use yb_ident::Kind;

#[tactic(auto, unfolding(script_places::specs::Places::read_form))]
fn create_snapshot_schedule(with: Reading, words: &[Bytes]) -> Result<ScriptCommand, LineError>
    ensures exact { Gives script_command_of result (read_form with.slots schedules.create_snapshot_schedule words.now) }
{
    let period = Place::Number {
        least: 0,
        most: MOST_NUMBER,
    };
    counted(&[period, period, Place::Database], words)?;
    let (interval, rest) = number_at(words, Cause::BadNumber, 0, MOST_NUMBER)?;
    let (retention, rest) = number_at(rest, Cause::BadNumber, 0, MOST_NUMBER)?;
    let (namespace, _) = database_at(with.alloc, rest)?;
    Ok(ScriptCommand::CreateSnapshotSchedule {
        interval,
        retention,
        namespace,
    })
}

#[tactic(auto, unfolding(script_places::specs::Places::read_form))]
fn edit_snapshot_schedule(with: Reading, words: &[Bytes]) -> Result<ScriptCommand, LineError>
    ensures exact { Gives script_command_of result (read_form with.slots schedules.edit_snapshot_schedule words.now) }
{
    let schedule = Place::Identifier {
        kind: Kind::Schedule,
    };
    let period = Place::Number {
        least: 0,
        most: MOST_NUMBER,
    };
    counted(&[schedule, period, period], words)?;
    let (word, rest) = next_of(words)?;
    let schedule = identifier(word.as_slice(), Kind::Schedule)?;
    let (interval, rest) = number_at(rest, Cause::BadNumber, 0, MOST_NUMBER)?;
    let (retention, _) = number_at(rest, Cause::BadNumber, 0, MOST_NUMBER)?;
    Ok(ScriptCommand::EditSnapshotSchedule {
        schedule,
        interval,
        retention,
    })
}

#[tactic(auto, unfolding(script_places::specs::Places::read_form))]
fn delete_snapshot_schedule(with: Reading, words: &[Bytes]) -> Result<ScriptCommand, LineError>
    ensures exact { Gives script_command_of result (read_form with.slots schedules.delete_snapshot_schedule words.now) }
{
    let schedule = Place::Identifier {
        kind: Kind::Schedule,
    };
    counted(&[schedule], words)?;
    let (word, _) = next_of(words)?;
    let schedule = identifier(word.as_slice(), Kind::Schedule)?;
    Ok(ScriptCommand::DeleteSnapshotSchedule { schedule })
}

#[tactic(auto, unfolding(script_places::specs::Places::read_form))]
fn take_snapshot(with: Reading, words: &[Bytes]) -> Result<ScriptCommand, LineError>
    ensures exact { Gives script_command_of result (read_form with.slots schedules.take_snapshot words.now) }
{
    let schedule = Place::Identifier {
        kind: Kind::Schedule,
    };
    counted(&[schedule], words)?;
    let (word, _) = next_of(words)?;
    let schedule = identifier(word.as_slice(), Kind::Schedule)?;
    Ok(ScriptCommand::TakeSnapshot { schedule })
}

#[tactic(auto, unfolding(script_places::specs::Places::read_form))]
fn list_snapshot_schedules(with: Reading, words: &[Bytes]) -> Result<ScriptCommand, LineError>
    ensures exact { Gives script_command_of result (read_form with.slots schedules.list_snapshot_schedules words.now) }
{
    counted(&[], words)?;
    Ok(ScriptCommand::ListSnapshotSchedules)
}

#[tactic(auto, unfolding(script_places::specs::Places::read_form))]
fn list_snapshots(with: Reading, words: &[Bytes]) -> Result<ScriptCommand, LineError>
    ensures exact { Gives script_command_of result (read_form with.slots schedules.list_snapshots words.now) }
{
    counted(&[], words)?;
    Ok(ScriptCommand::ListSnapshots)
}

/// The command of a line's first word and those behind it, where the word is none of those that are
/// looked for earlier.
#[tactic(auto, unfolding(crate::specs::Table::from_schedules))]
pub fn command_of(with: Reading, word: &[u8], rest: &[Bytes]) -> Result<ScriptCommand, LineError>
    ensures exact { Gives script_command_of result (from_schedules with.slots word.now rest.now) }
{
    if word == b"create_snapshot_schedule".as_slice() {
        return create_snapshot_schedule(with, rest);
    }
    if word == b"edit_snapshot_schedule".as_slice() {
        return edit_snapshot_schedule(with, rest);
    }
    if word == b"delete_snapshot_schedule".as_slice() {
        return delete_snapshot_schedule(with, rest);
    }
    if word == b"take_snapshot".as_slice() {
        return take_snapshot(with, rest);
    }
    if word == b"list_snapshot_schedules".as_slice() {
        return list_snapshot_schedules(with, rest);
    }
    if word == b"list_snapshots".as_slice() {
        return list_snapshots(with, rest);
    }
    restores::command_of(with, word, rest)
}
