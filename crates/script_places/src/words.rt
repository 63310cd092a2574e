//! The words that are left, and the bytes of a word.

ghost use Rattle.std.specs.Prelude.{◌≡◌, Ok};
ghost use Rattle.script_words.specs.Reading.{Gives, same};
ghost use Rattle.script_places.specs.Words.{next_of, before, behind};

use row_values::Bytes;
use script_words::{Cause, LineError};
use std::alloc::Global;

/// The next word, and those behind it.
pub fn next_of(words: &[Bytes]) -> Result<(&Bytes, &[Bytes]), LineError>
    ensures exact { Gives (λ x. (x.0.now, x.1.now)) result (next_of words.now) }
{
    match words {
        [] => Err(LineError::Refused(Cause::WrongWords)),
        [word, rest @ ..] => Ok((word, rest)),
    }
}

/// What stands before the first such byte, and what stands behind it.
pub fn cut(word: &[u8], byte: u8) -> (&[u8], &[u8])
    ensures front { result.0.now ≡ before byte word.now }
    ensures back { result.1.now ≡ behind byte word.now }
{
    for i in 0..word.len() {
        if word[i] == byte {
            return (&word[..i], &word[i + 1..]);
        }
    }
    word.split_at(word.len())
}

/// A copy of the bytes.
pub fn copied(alloc: Global, bytes: &[u8]) -> Result<Bytes, LineError>
    ensures copy { Gives same result (Ok bytes.now) }
{
    Ok(Bytes::from_vec(Vec::from_slice(alloc, bytes)?))
}
