ghost use Rattle.std.specs.Prelude.{◌≡◌, true, Ok, Err, if◌then◌else◌};
ghost use Rattle.script_words.specs.declared.cause.Cause.TheVariants.{WrongWords};
ghost use Rattle.script_words.specs.Reading.{Gives};
ghost use Rattle.script_places.specs.Counts.{takes_rest, rest_fits, word_fits, fits};

use crate::groups::items_fit;
use row_values::Bytes;
use script_words::{Cause, LineError};
use yb_ident::Kind;

/// What a place among the words of a command asks for.
#[derive(Clone, Copy, Debug)]
pub enum Place {
    /// The word `tablets`.
    Tablets,
    /// A lower-case letter or `_`, and then such letters, digits and `_`, 1 to 32 bytes.
    Name,
    /// A name, before which `ysql.` may stand.
    Database,
    /// Letters, digits, `_`, `-` and `.`, 1 to 64 bytes.
    Key,
    /// A decimal number within bounds, both included.
    Number { least: u64, most: u64 },
    /// A decimal number from 1 to the count of slots.
    Slot,
    /// An identifier of this kind.
    Identifier { kind: Kind },
    /// A column, `name:kind`.
    Column,
    /// A time, one word or two, which are the last.
    Time,
    /// A time or nothing, at most two words, which are the last.
    MaybeTime,
    /// 1 to 16 cells, `name=value`, which are the last.
    Cells,
    /// 1 to 16 columns, whose names differ, which are the last.
    Columns,
    /// 1 to 64 items with a word `/` between each two, which are the last. An item is a key and 1 to
    /// 16 cells, or a key and `delete`.
    Items,
}

fn takes_rest(place: Place) -> bool
    ensures exact { result ≡ takes_rest place }
{
    matches!(
        place,
        Place::Time | Place::MaybeTime | Place::Cells | Place::Columns | Place::Items
    )
}

fn rest_fits(place: Place, words: &[Bytes]) -> bool
    ensures exact { result ≡ rest_fits place words.now }
{
    let count = words.len();
    match place {
        Place::Time => 1 <= count && count <= 2,
        Place::MaybeTime => count <= 2,
        Place::Items => items_fit(words),
        _ => 1 <= count && count <= 16,
    }
}

fn word_fits(place: Place, word: &[u8]) -> bool
    ensures exact { result ≡ word_fits place word.now }
{
    match place {
        Place::Tablets => word == b"tablets".as_slice(),
        _ => true,
    }
}

#[tactic(auto, unfolding(crate::specs::Counts::fits))]
fn fits(places: &[Place], words: &[Bytes]) -> bool
    ensures exact { result ≡ fits places.now words.now }
{
    let mut rest = words;
    for place in places {
        if takes_rest(*place) {
            return rest_fits(*place, rest);
        }
        match rest {
            [] => return false,
            [word, others @ ..] => {
                if !word_fits(*place, word.as_slice()) {
                    return false;
                }
                rest = others;
            }
        }
    }
    rest.is_empty()
}

/// Refuses words that are not as many as the places ask for, or not the fixed ones.
pub fn counted(places: &[Place], words: &[Bytes]) -> Result<(), LineError>
    ensures exact { Gives (λ _. true) result (if fits places.now words.now then Ok true else Err WrongWords) }
{
    if !fits(places, words) {
        return Err(LineError::Refused(Cause::WrongWords));
    }
    Ok(())
}
