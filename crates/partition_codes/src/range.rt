ghost use Rattle.std.specs.Prelude.{◌≡◌};
ghost use Rattle.row_values.specs.Ranges.{in_range};

use row_values::{Copied, NoMemory};
use std::marker::Model;

/// The codes from `low` up to and without `high`: at least one code, and none above 65535.
/// Contracts see it as the book's.
#[derive(Clone, Copy, Debug, PartialEq, Eq, PartialOrd, Ord, Hash)]
pub struct Range {
    pub low: u32,
    pub high: u32,
}

impl Model for Range {
    ghost use Rattle.row_values.specs.Ranges.{Range, IsRange};

    ghost Value = { Range };

    ghost view = { λ r. record { low = r.low; high = r.high } };

    ghost invariant = { λ r. IsRange (record { low = r.low; high = r.high }) };

    ghost inverse = { λ v. record { low = v.low; high = v.high } };
}

/// A code that is not strictly inside a range, whose low end this is.
#[derive(Clone, Copy, Debug, PartialEq, Eq)]
pub struct TooNarrow {
    pub low: u32,
}

impl Range {
    /// Whether a code is in the range.
    pub fn holds(self, code: u16) -> bool
        ensures exact { result ≡ in_range self.low self.high code }
    {
        let code = u32::from(code);
        self.low <= code && code < self.high
    }
}

impl Copied for Range {
    fn copy(&self) -> Result<Range, NoMemory> {
        Ok(*self)
    }
}
