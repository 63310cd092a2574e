//! Identifiers. Their reader takes the one word and not, as other readers do, all that are left, since a
//! caller can't put `?` behind a call that gives an identifier together with the words behind it.

ghost use Rattle.std.specs.Prelude.{◌≡◌};
ghost use Rattle.yb_ident.specs.Seen.{kind_of};
ghost use Rattle.script_words.specs.declared.cause.Cause.TheVariants.{BadIdentifier};
ghost use Rattle.script_words.specs.Reading.{Gives, same};
ghost use Rattle.script_places.specs.Words.{wanted};
ghost use Rattle.script_places.specs.Identifiers.{ident_of};

use script_words::{Cause, LineError};
use yb_ident::{Ident, Kind};

// The identifier of a text, where it is of this kind.
fn ident_of_text(kind: Kind, text: &str) -> Option<Ident>
    ensures exact { result ≡ ident_of (kind_of kind) text.now }
{
    let Ok(id) = Ident::read(text) else {
        return None;
    };
    if id.kind == kind { Some(id) } else { None }
}

fn ident_of(kind: Kind, word: &[u8]) -> Option<Ident>
    ensures exact { result ≡ ident_of (kind_of kind) word.now }
{
    match std::str::from_utf8(word) {
        Ok(text) => ident_of_text(kind, text),
        Err(_) => None,
    }
}

/// The word as an identifier of this kind, in any of the four forms of a UUID.
pub fn identifier(word: &[u8], kind: Kind) -> Result<Ident, LineError>
    ensures exact { Gives same result (wanted BadIdentifier (ident_of (kind_of kind) word.now)) }
{
    match ident_of(kind, word) {
        Some(id) => Ok(id),
        None => Err(LineError::Refused(Cause::BadIdentifier)),
    }
}
