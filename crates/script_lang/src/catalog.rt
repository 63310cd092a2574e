//! The commands that change namespaces, tables and columns.

ghost use Rattle.script_words.specs.Reading.{Gives};
ghost use Rattle.commands.specs.Scripts.{script_command_of};
ghost use Rattle.script_places.specs.Places.{read_form};
ghost use Rattle.script_lang.specs.Catalog as catalog;
ghost use Rattle.script_lang.specs.Table.{from_catalog};

use crate::limits::MOST_TABLETS;
use crate::reading::Reading;
use crate::rows;
use commands::ScriptCommand;
use row_values::Bytes;
use script_places::{Place, column_at, columns, counted, name_at, next_of, number_at};
use script_words::{Cause, LineError};

#[tactic(auto, unfolding(script_places::specs::Places::read_form))]
fn create_namespace(with: Reading, words: &[Bytes]) -> Result<ScriptCommand, LineError>
    ensures exact { Gives script_command_of result (read_form with.slots catalog.create_namespace words.now) }
{
    counted(&[Place::Name], words)?;
    let (namespace, _) = name_at(with.alloc, words)?;
    Ok(ScriptCommand::CreateNamespace { namespace })
}

#[tactic(auto, unfolding(script_places::specs::Places::read_form))]
fn drop_namespace(with: Reading, words: &[Bytes]) -> Result<ScriptCommand, LineError>
    ensures exact { Gives script_command_of result (read_form with.slots catalog.drop_namespace words.now) }
{
    counted(&[Place::Name], words)?;
    let (namespace, _) = name_at(with.alloc, words)?;
    Ok(ScriptCommand::DropNamespace { namespace })
}

#[tactic(auto, unfolding(script_places::specs::Places::read_form))]
fn create_table(with: Reading, words: &[Bytes]) -> Result<ScriptCommand, LineError>
    ensures exact { Gives script_command_of result (read_form with.slots catalog.create_table words.now) }
{
    let count = Place::Number {
        least: 1,
        most: MOST_TABLETS,
    };
    counted(
        &[
            Place::Name,
            Place::Name,
            Place::Tablets,
            count,
            Place::Columns,
        ],
        words,
    )?;
    let (namespace, rest) = name_at(with.alloc, words)?;
    let (table, rest) = name_at(with.alloc, rest)?;
    let (_, rest) = next_of(rest)?;
    let (tablets, rest) = number_at(rest, Cause::BadNumber, 1, MOST_TABLETS)?;
    let columns = columns(with.alloc, rest)?;
    Ok(ScriptCommand::CreateTable {
        namespace,
        table,
        tablets: tablets as u32,
        columns,
    })
}

#[tactic(auto, unfolding(script_places::specs::Places::read_form))]
fn add_column(with: Reading, words: &[Bytes]) -> Result<ScriptCommand, LineError>
    ensures exact { Gives script_command_of result (read_form with.slots catalog.add_column words.now) }
{
    counted(&[Place::Name, Place::Name, Place::Column], words)?;
    let (namespace, rest) = name_at(with.alloc, words)?;
    let (table, rest) = name_at(with.alloc, rest)?;
    let (column, _) = column_at(with.alloc, rest)?;
    Ok(ScriptCommand::AddColumn {
        namespace,
        table,
        name: column.name,
        kind: column.kind,
    })
}

#[tactic(auto, unfolding(script_places::specs::Places::read_form))]
fn drop_column(with: Reading, words: &[Bytes]) -> Result<ScriptCommand, LineError>
    ensures exact { Gives script_command_of result (read_form with.slots catalog.drop_column words.now) }
{
    counted(&[Place::Name, Place::Name, Place::Name], words)?;
    let (namespace, rest) = name_at(with.alloc, words)?;
    let (table, rest) = name_at(with.alloc, rest)?;
    let (name, _) = name_at(with.alloc, rest)?;
    Ok(ScriptCommand::DropColumn {
        namespace,
        table,
        name,
    })
}

#[tactic(auto, unfolding(script_places::specs::Places::read_form))]
fn rename_table(with: Reading, words: &[Bytes]) -> Result<ScriptCommand, LineError>
    ensures exact { Gives script_command_of result (read_form with.slots catalog.rename_table words.now) }
{
    counted(&[Place::Name, Place::Name, Place::Name], words)?;
    let (namespace, rest) = name_at(with.alloc, words)?;
    let (table, rest) = name_at(with.alloc, rest)?;
    let (name, _) = name_at(with.alloc, rest)?;
    Ok(ScriptCommand::RenameTable {
        namespace,
        table,
        name,
    })
}

#[tactic(auto, unfolding(script_places::specs::Places::read_form))]
fn drop_table(with: Reading, words: &[Bytes]) -> Result<ScriptCommand, LineError>
    ensures exact { Gives script_command_of result (read_form with.slots catalog.drop_table words.now) }
{
    counted(&[Place::Name, Place::Name], words)?;
    let (namespace, rest) = name_at(with.alloc, words)?;
    let (table, _) = name_at(with.alloc, rest)?;
    Ok(ScriptCommand::DropTable { namespace, table })
}

/// The command of a line's first word and those behind it, where the word is none of those that are
/// looked for earlier.
#[tactic(auto, unfolding(crate::specs::Table::from_catalog))]
pub fn command_of(with: Reading, word: &[u8], rest: &[Bytes]) -> Result<ScriptCommand, LineError>
    ensures exact { Gives script_command_of result (from_catalog with.slots word.now rest.now) }
{
    if word == b"create_namespace".as_slice() {
        return create_namespace(with, rest);
    }
    if word == b"drop_namespace".as_slice() {
        return drop_namespace(with, rest);
    }
    if word == b"create_table".as_slice() {
        return create_table(with, rest);
    }
    if word == b"add_column".as_slice() {
        return add_column(with, rest);
    }
    if word == b"drop_column".as_slice() {
        return drop_column(with, rest);
    }
    if word == b"rename_table".as_slice() {
        return rename_table(with, rest);
    }
    if word == b"drop_table".as_slice() {
        return drop_table(with, rest);
    }
    rows::command_of(with, word, rest)
}
