//! Decimal numbers.

ghost use Rattle.std.specs.Prelude.{◌≡◌, ◌≤◌, IfSome, IfOk};
ghost use Rattle.script_words.specs.declared.cause.Cause.TheVariants.{NoSuchSlot};
ghost use Rattle.script_words.specs.Reading.{Gives};
ghost use Rattle.script_places.specs.Numbers.{number_from, number_of, number_in, number_at};

use crate::words::next_of;
use row_values::Bytes;
use script_words::{Cause, LineError};

fn number_from(digits: &[u8], most: u64) -> Option<u64>
    ensures exact { result ≡ number_from most 0 digits.now }
    ensures bound { IfSome result (λ n. n ≤ most) }
{
    let mut n: u64 = 0;
    for b in digits {
        if *b < b'0' || *b > b'9' {
            return None;
        }
        let next = 10 * (n as u128) + (*b - b'0') as u128;
        if next > most as u128 {
            return None;
        }
        n = next as u64;
    }
    Some(n)
}

/// A decimal number without leading zeros, at most this.
#[tactic(auto, unfolding(crate::specs::Numbers::number_of))]
pub fn number(word: &[u8], most: u64) -> Option<u64>
    ensures exact { result ≡ number_of most word.now }
    ensures bound { IfSome result (λ n. n ≤ most) }
{
    match word {
        [] => None,
        [b'0', _, ..] => None,
        _ => number_from(word, most),
    }
}

fn number_in(word: &[u8], least: u64, most: u64) -> Option<u64>
    ensures exact { result ≡ number_in least most word.now }
    ensures bound { IfSome result (λ n. n ≤ most) }
{
    match number(word, most) {
        Some(n) => {
            if n < least {
                return None;
            }
            Some(n)
        }
        None => None,
    }
}

/// The next word as a number within these bounds, and the words behind it, or else this cause.
#[tactic(auto, unfolding(crate::specs::Numbers::number_at))]
pub fn number_at(
    words: &[Bytes],
    cause: Cause,
    least: u64,
    most: u64,
) -> Result<(u64, &[Bytes]), LineError>
    ensures exact { Gives (λ x. (x.0, x.1.now)) result (number_at cause least most words.now) }
    ensures bound { IfOk result (λ x. x.0 ≤ most) }
{
    let (word, rest) = next_of(words)?;
    match number_in(word.as_slice(), least, most) {
        Some(n) => Ok((n, rest)),
        None => Err(LineError::Refused(cause)),
    }
}

/// The next word as a slot, from 1 to this many, and the words behind it.
pub fn slot_at(words: &[Bytes], slots: u32) -> Result<(u32, &[Bytes]), LineError>
    ensures exact { Gives (λ x. (x.0, x.1.now)) result (number_at NoSuchSlot 1 slots words.now) }
{
    let (slot, rest) = number_at(words, Cause::NoSuchSlot, 1, slots as u64)?;
    Ok((slot as u32, rest))
}
