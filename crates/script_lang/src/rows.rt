//! The commands that write and read rows.

ghost use Rattle.script_words.specs.Reading.{Gives};
ghost use Rattle.commands.specs.Scripts.{script_command_of};
ghost use Rattle.script_places.specs.Places.{read_form};
ghost use Rattle.script_lang.specs.Rows as rows;
ghost use Rattle.script_lang.specs.Table.{from_rows};

use crate::reading::Reading;
use crate::tablets;
use commands::ScriptCommand;
use row_values::Bytes;
use script_places::{Place, cells, counted, items, key_at, name_at, time};
use script_words::LineError;

#[tactic(auto, unfolding(script_places::specs::Places::read_form))]
fn put(with: Reading, words: &[Bytes]) -> Result<ScriptCommand, LineError>
    ensures exact { Gives script_command_of result (read_form with.slots rows.put words.now) }
{
    counted(&[Place::Name, Place::Name, Place::Key, Place::Cells], words)?;
    let (namespace, rest) = name_at(with.alloc, words)?;
    let (table, rest) = name_at(with.alloc, rest)?;
    let (key, rest) = key_at(with.alloc, rest)?;
    let cells = cells(with.alloc, rest)?;
    Ok(ScriptCommand::Put {
        namespace,
        table,
        key,
        cells,
    })
}

#[tactic(auto, unfolding(script_places::specs::Places::read_form))]
fn delete(with: Reading, words: &[Bytes]) -> Result<ScriptCommand, LineError>
    ensures exact { Gives script_command_of result (read_form with.slots rows.delete words.now) }
{
    counted(&[Place::Name, Place::Name, Place::Key], words)?;
    let (namespace, rest) = name_at(with.alloc, words)?;
    let (table, rest) = name_at(with.alloc, rest)?;
    let (key, _) = key_at(with.alloc, rest)?;
    Ok(ScriptCommand::Delete {
        namespace,
        table,
        key,
    })
}

#[tactic(auto, unfolding(script_places::specs::Places::read_form))]
fn batch(with: Reading, words: &[Bytes]) -> Result<ScriptCommand, LineError>
    ensures exact { Gives script_command_of result (read_form with.slots rows.batch words.now) }
{
    counted(&[Place::Name, Place::Name, Place::Items], words)?;
    let (namespace, rest) = name_at(with.alloc, words)?;
    let (table, rest) = name_at(with.alloc, rest)?;
    let items = items(with.alloc, rest)?;
    Ok(ScriptCommand::Batch {
        namespace,
        table,
        items,
    })
}

#[tactic(auto, unfolding(script_places::specs::Places::read_form))]
fn get(with: Reading, words: &[Bytes]) -> Result<ScriptCommand, LineError>
    ensures exact { Gives script_command_of result (read_form with.slots rows.get words.now) }
{
    counted(&[Place::Name, Place::Name, Place::Key], words)?;
    let (namespace, rest) = name_at(with.alloc, words)?;
    let (table, rest) = name_at(with.alloc, rest)?;
    let (key, _) = key_at(with.alloc, rest)?;
    Ok(ScriptCommand::Get {
        namespace,
        table,
        key,
    })
}

#[tactic(auto, unfolding(script_places::specs::Places::read_form))]
fn get_at(with: Reading, words: &[Bytes]) -> Result<ScriptCommand, LineError>
    ensures exact { Gives script_command_of result (read_form with.slots rows.get_at words.now) }
{
    counted(&[Place::Name, Place::Name, Place::Key, Place::Time], words)?;
    let (namespace, rest) = name_at(with.alloc, words)?;
    let (table, rest) = name_at(with.alloc, rest)?;
    let (key, rest) = key_at(with.alloc, rest)?;
    let at = time(rest)?;
    Ok(ScriptCommand::GetAt {
        namespace,
        table,
        key,
        at,
    })
}

#[tactic(auto, unfolding(script_places::specs::Places::read_form))]
fn scan(with: Reading, words: &[Bytes]) -> Result<ScriptCommand, LineError>
    ensures exact { Gives script_command_of result (read_form with.slots rows.scan words.now) }
{
    counted(&[Place::Name, Place::Name], words)?;
    let (namespace, rest) = name_at(with.alloc, words)?;
    let (table, _) = name_at(with.alloc, rest)?;
    Ok(ScriptCommand::Scan { namespace, table })
}

#[tactic(auto, unfolding(script_places::specs::Places::read_form))]
fn scan_at(with: Reading, words: &[Bytes]) -> Result<ScriptCommand, LineError>
    ensures exact { Gives script_command_of result (read_form with.slots rows.scan_at words.now) }
{
    counted(&[Place::Name, Place::Name, Place::Time], words)?;
    let (namespace, rest) = name_at(with.alloc, words)?;
    let (table, rest) = name_at(with.alloc, rest)?;
    let at = time(rest)?;
    Ok(ScriptCommand::ScanAt {
        namespace,
        table,
        at,
    })
}

/// The command of a line's first word and those behind it, where the word is none of those that are
/// looked for earlier.
#[tactic(auto, unfolding(crate::specs::Table::from_rows))]
pub fn command_of(with: Reading, word: &[u8], rest: &[Bytes]) -> Result<ScriptCommand, LineError>
    ensures exact { Gives script_command_of result (from_rows with.slots word.now rest.now) }
{
    if word == b"put".as_slice() {
        return put(with, rest);
    }
    if word == b"delete".as_slice() {
        return delete(with, rest);
    }
    if word == b"batch".as_slice() {
        return batch(with, rest);
    }
    if word == b"get".as_slice() {
        return get(with, rest);
    }
    if word == b"get_at".as_slice() {
        return get_at(with, rest);
    }
    if word == b"scan".as_slice() {
        return scan(with, rest);
    }
    if word == b"scan_at".as_slice() {
        return scan_at(with, rest);
    }
    tablets::command_of(with, word, rest)
}
