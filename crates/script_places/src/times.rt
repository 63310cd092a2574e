//! The four forms of a time.

ghost use Rattle.std.specs.Prelude.{◌≡◌, ◌-◌, ◌^◌, option_map};
ghost use Rattle.script_words.specs.declared.cause.Cause.TheVariants.{BadTime};
ghost use Rattle.script_words.specs.Reading.{Gives};
ghost use Rattle.model.specs.Scripts.{Exact};
ghost use Rattle.commands.specs.Times.{script_time_of};
ghost use Rattle.script_places.specs.Words.{wanted};
ghost use Rattle.script_places.specs.Numbers.{number_of};
ghost use Rattle.script_places.specs.Times.{time_back, time_of, maybe_time};

use crate::numbers::number;
use commands::Time;
use hybrid_time::HybridTime;
use row_values::Bytes;
use script_words::{Cause, LineError};

// A word `5m` or `5s`.
#[tactic(auto, unfolding(crate::specs::Times::time_back))]
fn time_back(word: &[u8]) -> Option<Time>
    ensures exact { option_map script_time_of result ≡ time_back word.now }
{
    let len = word.len();
    if len == 0 {
        return None;
    }
    let last = word[len - 1];
    if last == b'm' {
        return match number(&word[..len - 1], 10_000_000) {
            Some(n) => Some(Time::MinusMinutes(n)),
            None => None,
        };
    }
    if last == b's' {
        return match number(&word[..len - 1], 10_000_000) {
            Some(n) => Some(Time::MinusSeconds(n)),
            None => None,
        };
    }
    None
}

fn exact_time(word: &[u8]) -> Option<Time>
    ensures exact { option_map script_time_of result ≡ option_map Exact (number_of (2 ^ 62 - 1) word.now) }
{
    match number(word, (1 << 62) - 1) {
        Some(value) => Some(Time::Exact(HybridTime { value })),
        None => None,
    }
}

#[tactic(auto, unfolding(crate::specs::Times::time_of))]
fn time_of(words: &[Bytes]) -> Option<Time>
    ensures exact { option_map script_time_of result ≡ time_of words.now }
{
    match words {
        [word] => match number(word.as_slice(), (1 << 50) - 1) {
            Some(micros) => Some(Time::Micros(micros)),
            None => None,
        },
        [form, word] => {
            if form.as_slice() == b"ht".as_slice() {
                return exact_time(word.as_slice());
            }
            if form.as_slice() == b"minus".as_slice() {
                return time_back(word.as_slice());
            }
            None
        }
        _ => None,
    }
}

/// The words as a time.
pub fn time(words: &[Bytes]) -> Result<Time, LineError>
    ensures exact { Gives script_time_of result (wanted BadTime (time_of words.now)) }
{
    match time_of(words) {
        Some(time) => Ok(time),
        None => Err(LineError::Refused(Cause::BadTime)),
    }
}

/// The words as a time, None where there are none.
pub fn maybe_time(words: &[Bytes]) -> Result<Option<Time>, LineError>
    ensures exact { Gives (option_map script_time_of) result (wanted BadTime (maybe_time words.now)) }
{
    match words {
        [] => Ok(None),
        [_, ..] => {
            let at = time(words)?;
            Ok(Some(at))
        }
    }
}
