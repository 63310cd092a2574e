use partition_codes::Range;
use row_values::{Copied, NoMemory};
use std::marker::Model;
use yb_ident::Ident;

/// Where a tablet is, and the codes that it holds. Contracts see it as the book's.
#[derive(Clone, Copy, Debug, PartialEq, Eq)]
pub struct TabletPlace {
    pub slot: u32,
    pub tablet: Ident,
    pub range: Range,
}

impl Model for TabletPlace {
    ghost use Rattle.model.specs.Acts.{Place};

    ghost Value = { Place };

    ghost view = { λ p. record { slot = p.slot; tablet = p.tablet; low = p.range.low; high = p.range.high } };

    ghost inverse = { λ v. record { slot = v.slot; tablet = v.tablet; range = record { low = v.low; high = v.high } } };
}

impl Copied for TabletPlace {
    fn copy(&self) -> Result<TabletPlace, NoMemory> {
        Ok(*self)
    }
}
