ghost use Rattle.std.specs.Prelude.{◌≡◌, MatchOption, ◌≢◌};
ghost use Rattle.row_values.specs.Ids as book;
ghost use Rattle.row_values.specs.Ids.{kind_digit};
ghost use Rattle.yb_ident.specs.Seen.{kind_of, kind_from};

use row_values::{Copied, NoMemory};

/// What an identifier names. Each kind is numbered by itself.
#[derive(Clone, Copy, Debug, PartialEq, Eq, PartialOrd, Ord, Hash)]
pub enum Kind {
    Namespace,
    Table,
    Tablet,
    Schedule,
    Snapshot,
    Restoration,
    Clone,
}

impl Kind {
    /// The number of the kind in an identifier, from 1 to 7.
    pub fn number(self) -> u8
        ensures value { result ≡ kind_digit (kind_of self) }
    {
        match self {
            Kind::Namespace => 1,
            Kind::Table => 2,
            Kind::Tablet => 3,
            Kind::Schedule => 4,
            Kind::Snapshot => 5,
            Kind::Restoration => 6,
            Kind::Clone => 7,
        }
    }

    /// The kind of this number; `None` for any but 1 to 7.
    pub fn from_number(number: u8) -> Option<Kind>
        ensures exact { MatchOption result
            ((kind : book.Kind) → kind_digit kind ≢ number)
            (λ kind. kind_digit (kind_of kind) ≡ number) }
        ensures only { (kind : book.Kind) → kind_digit kind ≡ number → result ≡ Some (kind_from kind) }
    {
        match number {
            1 => Some(Kind::Namespace),
            2 => Some(Kind::Table),
            3 => Some(Kind::Tablet),
            4 => Some(Kind::Schedule),
            5 => Some(Kind::Snapshot),
            6 => Some(Kind::Restoration),
            7 => Some(Kind::Clone),
            _ => None,
        }
    }
}

impl Copied for Kind {
    fn copy(&self) -> Result<Kind, NoMemory> {
        Ok(*self)
    }
}
