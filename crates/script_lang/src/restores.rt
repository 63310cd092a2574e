//! The commands that take a namespace back to a time, and those that make another of a time.

ghost use Rattle.script_words.specs.Reading.{Gives};
ghost use Rattle.commands.specs.Scripts.{script_command_of};
ghost use Rattle.script_places.specs.Places.{read_form};
ghost use Rattle.script_lang.specs.Restores as restores;
ghost use Rattle.script_lang.specs.Table.{from_restores};

use crate::reading::Reading;
use crate::work;
use commands::ScriptCommand;
use row_values::Bytes;
use script_places::{Place, counted, identifier, maybe_time, name_at, next_of, time};
use script_words::LineError;
use yb_ident::Kind;

#[tactic(auto, unfolding(script_places::specs::Places::read_form))]
fn restore_snapshot_schedule(with: Reading, words: &[Bytes]) -> Result<ScriptCommand, LineError>
    ensures exact { Gives script_command_of result (read_form with.slots restores.restore_snapshot_schedule words.now) }
{
    let schedule = Place::Identifier {
        kind: Kind::Schedule,
    };
    counted(&[schedule, Place::Time], words)?;
    let (word, rest) = next_of(words)?;
    let schedule = identifier(word.as_slice(), Kind::Schedule)?;
    let to = time(rest)?;
    Ok(ScriptCommand::RestoreSnapshotSchedule { schedule, to })
}

#[tactic(auto, unfolding(script_places::specs::Places::read_form))]
fn clone_namespace(with: Reading, words: &[Bytes]) -> Result<ScriptCommand, LineError>
    ensures exact { Gives script_command_of result (read_form with.slots restores.clone_namespace words.now) }
{
    counted(&[Place::Name, Place::Name, Place::MaybeTime], words)?;
    let (source, rest) = name_at(with.alloc, words)?;
    let (target, rest) = name_at(with.alloc, rest)?;
    let to = maybe_time(rest)?;
    Ok(ScriptCommand::CloneNamespace { source, target, to })
}

#[tactic(auto, unfolding(script_places::specs::Places::read_form))]
fn list_snapshot_restorations(with: Reading, words: &[Bytes]) -> Result<ScriptCommand, LineError>
    ensures exact { Gives script_command_of result (read_form with.slots restores.list_snapshot_restorations words.now) }
{
    counted(&[], words)?;
    Ok(ScriptCommand::ListSnapshotRestorations)
}

#[tactic(auto, unfolding(script_places::specs::Places::read_form))]
fn list_clones(with: Reading, words: &[Bytes]) -> Result<ScriptCommand, LineError>
    ensures exact { Gives script_command_of result (read_form with.slots restores.list_clones words.now) }
{
    counted(&[], words)?;
    Ok(ScriptCommand::ListClones)
}

/// The command of a line's first word and those behind it, where the word is none of those that are
/// looked for earlier.
#[tactic(auto, unfolding(crate::specs::Table::from_restores))]
pub fn command_of(with: Reading, word: &[u8], rest: &[Bytes]) -> Result<ScriptCommand, LineError>
    ensures exact { Gives script_command_of result (from_restores with.slots word.now rest.now) }
{
    if word == b"restore_snapshot_schedule".as_slice() {
        return restore_snapshot_schedule(with, rest);
    }
    if word == b"clone_namespace".as_slice() {
        return clone_namespace(with, rest);
    }
    if word == b"list_snapshot_restorations".as_slice() {
        return list_snapshot_restorations(with, rest);
    }
    if word == b"list_clones".as_slice() {
        return list_clones(with, rest);
    }
    work::command_of(with, word, rest)
}
