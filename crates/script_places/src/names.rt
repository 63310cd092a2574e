//! Names and keys.

ghost use Rattle.std.specs.Prelude.{◌≡◌};
ghost use Rattle.std.specs.List.{list_all};
ghost use Rattle.script_words.specs.Reading.{Gives};
ghost use Rattle.script_places.specs.Names.{begins_name, is_name_byte, is_key_byte, is_name, is_key, name_at, unprefixed, database_at, key_at};

use crate::words::{copied, next_of};
use row_values::{Bytes, Key, Name};
use script_words::{Cause, LineError};
use std::alloc::Global;

fn begins_name(b: u8) -> bool
    ensures exact { result ≡ begins_name b }
{
    (b'a' <= b && b <= b'z') || b == b'_'
}

fn is_name_byte(b: u8) -> bool
    ensures exact { result ≡ is_name_byte b }
{
    begins_name(b) || (b'0' <= b && b <= b'9')
}

fn is_key_byte(b: u8) -> bool
    ensures exact { result ≡ is_key_byte b }
{
    is_name_byte(b) || (b'A' <= b && b <= b'Z') || b == b'-' || b == b'.'
}

fn are_name_bytes(bytes: &[u8]) -> bool
    ensures exact { result ≡ list_all is_name_byte bytes.now }
{
    for b in bytes {
        if !is_name_byte(*b) {
            return false;
        }
    }
    true
}

fn are_key_bytes(bytes: &[u8]) -> bool
    ensures exact { result ≡ list_all is_key_byte bytes.now }
{
    for b in bytes {
        if !is_key_byte(*b) {
            return false;
        }
    }
    true
}

/// Whether the word is a name.
#[tactic(auto, unfolding(crate::specs::Names::is_name))]
pub fn is_name(word: &[u8]) -> bool
    ensures exact { result ≡ is_name word.now }
{
    match word {
        [] => false,
        [first, rest @ ..] => begins_name(*first) && are_name_bytes(rest) && rest.len() <= 31,
    }
}

/// Whether the word is a key.
#[tactic(auto, unfolding(crate::specs::Names::is_key))]
pub fn is_key(word: &[u8]) -> bool
    ensures exact { result ≡ is_key word.now }
{
    1 <= word.len() && word.len() <= 64 && are_key_bytes(word)
}

/// The next word as a name, and the words behind it.
#[tactic(auto, unfolding(crate::specs::Names::name_at))]
pub fn name_at(alloc: Global, words: &[Bytes]) -> Result<(Name, &[Bytes]), LineError>
    ensures exact { Gives (λ x. (x.0, x.1.now)) result (name_at words.now) }
{
    let (word, rest) = next_of(words)?;
    if !is_name(word.as_slice()) {
        return Err(LineError::Refused(Cause::BadName));
    }
    let bytes = copied(alloc, word.as_slice())?;
    Ok((Name::from_bytes(bytes), rest))
}

// The word behind `ysql.`, or the whole word where that doesn't stand before it.
#[tactic(auto, unfolding(crate::specs::Names::unprefixed))]
fn unprefixed(word: &[u8]) -> &[u8]
    ensures exact { result.now ≡ unprefixed word.now }
{
    if 5 <= word.len() && &word[..5] == b"ysql.".as_slice() {
        return &word[5..];
    }
    word
}

/// The next word as the name of a database, and the words behind it.
#[tactic(auto, unfolding(crate::specs::Names::database_at))]
pub fn database_at(alloc: Global, words: &[Bytes]) -> Result<(Name, &[Bytes]), LineError>
    ensures exact { Gives (λ x. (x.0, x.1.now)) result (database_at words.now) }
{
    let (word, rest) = next_of(words)?;
    let name = unprefixed(word.as_slice());
    if !is_name(name) {
        return Err(LineError::Refused(Cause::BadName));
    }
    let bytes = copied(alloc, name)?;
    Ok((Name::from_bytes(bytes), rest))
}

/// The next word as a key, and the words behind it.
#[tactic(auto, unfolding(crate::specs::Names::key_at))]
pub fn key_at(alloc: Global, words: &[Bytes]) -> Result<(Key, &[Bytes]), LineError>
    ensures exact { Gives (λ x. (x.0, x.1.now)) result (key_at words.now) }
{
    let (word, rest) = next_of(words)?;
    if !is_key(word.as_slice()) {
        return Err(LineError::Refused(Cause::BadKey));
    }
    let bytes = copied(alloc, word.as_slice())?;
    Ok((Key::from_bytes(bytes), rest))
}
