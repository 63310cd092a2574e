//! Why a line of a script is refused.

ghost use Rattle.std.specs.Prelude.{◌≡◌};
ghost use Rattle.script_words.specs.declared.cause.LineError.TheVariants.{NoMemory};

use row_values::NoMemory;
use std::alloc::{AllocError, AllocFailed};

/// A cause for which a line is not in the grammar. The first six are looked for in this order; the
/// others belong to single words, of which the first wrong one from the left decides.
#[derive(Clone, Copy, Debug, PartialEq, Eq)]
pub enum Cause {
    /// More than 4096 bytes.
    LineTooLong,
    /// A byte outside 0x20 to 0x7e.
    BadByte,
    /// A quote that no later quote ends.
    OpenQuote,
    /// The first word is no command's.
    UnknownCommand,
    /// A wrong count of words, of items or of cells, or another word in a fixed word's place.
    WrongWords,
    BadName,
    BadKey,
    BadValue,
    BadNumber,
    BadIdentifier,
    BadTime,
    NoSuchSlot,
    RepeatedColumn,
}

/// Why a line, or a part of it, was not read.
#[derive(Clone, Copy, Debug, PartialEq, Eq)]
pub enum LineError {
    NoMemory,
    /// It is not in the grammar.
    Refused(Cause),
}

impl From<NoMemory> for LineError {
    ghost from_gives = { λ _ e. e ≡ NoMemory };

    fn from(_refused: NoMemory) -> LineError {
        LineError::NoMemory
    }
}

impl From<AllocError> for LineError {
    ghost from_gives = { λ _ e. e ≡ NoMemory };

    fn from(_refused: AllocError) -> LineError {
        LineError::NoMemory
    }
}

impl<T: Drop> From<AllocFailed<T>> for LineError {
    ghost from_gives = { λ _ e. e ≡ NoMemory };

    fn from(_refused: AllocFailed<T>) -> LineError {
        LineError::NoMemory
    }
}
