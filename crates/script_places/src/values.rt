//! Values and cells.

ghost use Rattle.std.specs.Prelude.{◌≡◌, ◌-◌, ◌^◌, ◌==◌, [], pos, not, get_or, option_map, Ok, Err, if◌then◌else◌};
ghost use Rattle.std.specs.List.{list_all};
ghost use Rattle.row_values.specs.declared.value.Value.TheVariants.{Int, Text};
ghost use Rattle.script_words.specs.declared.cause.Cause.TheVariants.{BadValue};
ghost use Rattle.script_words.specs.Reading.{Gives, same};
ghost use Rattle.script_places.specs.Words.{wanted};
ghost use Rattle.script_places.specs.Numbers.{number_of};
ghost use Rattle.script_places.specs.Values.{has_no_quote, is_quoted, unquoted, negative, signed_of, value_of, cell_of, cells_from};

use crate::names::is_name;
use crate::numbers::number;
use crate::words::{copied, cut};
use commands::NamedCell;
use row_values::{Bytes, Name, Records, Value};
use script_words::{Cause, LineError};
use std::alloc::Global;

fn has_no_quote(bytes: &[u8]) -> bool
    ensures exact { result ≡ has_no_quote bytes.now }
{
    for b in bytes {
        if *b == b'\'' {
            return false;
        }
    }
    true
}

// The text of a word that begins with a quote.
fn text(alloc: Global, word: &[u8]) -> Result<Value, LineError>
    requires quote { get_or word.now 0 0 ≡ 39 }
    ensures exact { Gives same result (if is_quoted word.now then Ok (Text (unquoted word.now)) else Err BadValue) }
{
    let len = word.len();
    if len < 2 || len > 258 || word[len - 1] != b'\'' {
        return Err(LineError::Refused(Cause::BadValue));
    }
    let inner = &word[1..len - 1];
    if !has_no_quote(inner) {
        return Err(LineError::Refused(Cause::BadValue));
    }
    Ok(Value::Text(copied(alloc, inner)?))
}

fn negative(digits: &[u8]) -> Option<i64>
    ensures exact { option_map (λ z. Int z) result ≡ negative (number_of (2 ^ 63) digits.now) }
{
    match number(digits, 1 << 63) {
        None => None,
        Some(0) => None,
        Some(n) => Some(-1 - (n - 1) as i64),
    }
}

fn positive(digits: &[u8]) -> Option<i64>
    ensures exact { option_map (λ z. Int z) result ≡ option_map (λ n. Int (pos n)) (number_of (2 ^ 63 - 1) digits.now) }
{
    match number(digits, (1 << 63) - 1) {
        None => None,
        Some(n) => Some(n as i64),
    }
}

fn signed(word: &[u8]) -> Option<i64>
    ensures exact { option_map (λ z. Int z) result ≡ signed_of word.now }
{
    match word {
        [b'-', digits @ ..] => negative(digits),
        _ => positive(word),
    }
}

#[tactic(auto, unfolding(crate::specs::Values::value_of))]
fn value(alloc: Global, word: &[u8]) -> Result<Value, LineError>
    ensures exact { Gives same result (wanted BadValue (value_of word.now)) }
{
    if word == b"null".as_slice() {
        return Ok(Value::Null);
    }
    if !word.is_empty() && word[0] == b'\'' {
        return text(alloc, word);
    }
    match signed(word) {
        Some(n) => Ok(Value::Int(n)),
        None => Err(LineError::Refused(Cause::BadValue)),
    }
}

// A word `name=value`.
#[tactic(auto, unfolding(crate::specs::Values::cell_of))]
fn cell(alloc: Global, word: &[u8]) -> Result<NamedCell, LineError>
    ensures exact { Gives same result (cell_of word.now) }
{
    let (column, rest) = cut(word, b'=');
    if !is_name(column) {
        return Err(LineError::Refused(Cause::BadName));
    }
    let value = value(alloc, rest)?;
    let column = copied(alloc, column)?;
    Ok(NamedCell {
        column: Name::from_bytes(column),
        value,
    })
}

/// The words as cells.
#[tactic(auto, unfolding(crate::specs::Values::cells_from))]
pub fn cells(alloc: Global, words: &[Bytes]) -> Result<Records<NamedCell>, LineError>
    ensures exact { Gives same result (cells_from [] words.now) }
{
    let mut cells = Records::new(alloc);
    for word in words {
        cells.push(cell(alloc, word.as_slice())?)?;
    }
    Ok(cells)
}
