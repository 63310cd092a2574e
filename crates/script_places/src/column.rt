//! New columns.

ghost use Rattle.std.specs.Prelude.{◌≡◌, [], option_map};
ghost use Rattle.table_schema.specs.Seen.{column_kind_of};
ghost use Rattle.script_words.specs.Reading.{Gives, same};
ghost use Rattle.script_places.specs.Columns.{kind_of, column_of, column_at, has_name, column_behind, columns_from};

use crate::names::is_name;
use crate::words::{copied, cut, next_of};
use row_values::{Bytes, Name, Records};
use script_words::{Cause, LineError};
use std::alloc::Global;
use table_schema::{Kind, NewColumn};

#[tactic(auto, unfolding(crate::specs::Columns::kind_of))]
fn kind(word: &[u8]) -> Option<Kind>
    ensures exact { option_map column_kind_of result ≡ kind_of word.now }
{
    if word == b"int".as_slice() {
        Some(Kind::Int)
    } else if word == b"text".as_slice() {
        Some(Kind::Text)
    } else {
        None
    }
}

// A word `name:kind`.
#[tactic(auto, unfolding(crate::specs::Columns::column_of))]
fn column(alloc: Global, word: &[u8]) -> Result<NewColumn, LineError>
    ensures exact { Gives same result (column_of word.now) }
{
    let (name, rest) = cut(word, b':');
    if !is_name(name) {
        return Err(LineError::Refused(Cause::BadName));
    }
    match kind(rest) {
        Some(kind) => {
            let name = copied(alloc, name)?;
            Ok(NewColumn {
                name: Name::from_bytes(name),
                kind,
            })
        }
        None => Err(LineError::Refused(Cause::BadName)),
    }
}

/// The next word as a column, and the words behind it.
#[tactic(auto, unfolding(crate::specs::Columns::column_at))]
pub fn column_at(alloc: Global, words: &[Bytes]) -> Result<(NewColumn, &[Bytes]), LineError>
    ensures exact { Gives (λ x. (x.0, x.1.now)) result (column_at words.now) }
{
    let (word, rest) = next_of(words)?;
    Ok((column(alloc, word.as_slice())?, rest))
}

#[tactic(auto, unfolding(crate::specs::Columns::has_name))]
fn has_name(columns: &[NewColumn], name: &[u8]) -> bool
    ensures exact { result ≡ has_name columns.now name.now }
{
    for column in columns {
        if column.name.as_slice() == name {
            return true;
        }
    }
    false
}

// A column that has the name of none of these.
#[tactic(auto, unfolding(crate::specs::Columns::column_behind))]
fn column_behind(alloc: Global, columns: &[NewColumn], word: &[u8]) -> Result<NewColumn, LineError>
    ensures exact { Gives same result (column_behind columns.now word.now) }
{
    let column = column(alloc, word)?;
    if has_name(columns, column.name.as_slice()) {
        return Err(LineError::Refused(Cause::RepeatedColumn));
    }
    Ok(column)
}

/// The words as columns, whose names differ.
#[tactic(auto, unfolding(crate::specs::Columns::columns_from))]
pub fn columns(alloc: Global, words: &[Bytes]) -> Result<Records<NewColumn>, LineError>
    ensures exact { Gives same result (columns_from [] words.now) }
{
    let mut columns = Records::new(alloc);
    for word in words {
        let column = column_behind(alloc, columns.as_slice(), word.as_slice())?;
        columns.push(column)?;
    }
    Ok(columns)
}
