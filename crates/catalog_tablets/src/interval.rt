ghost use Rattle.std.specs.Prelude.{◌≡◌};
ghost use Rattle.model.specs.Times.{before_end};
ghost use Rattle.model.specs.Activity as book;

use hybrid_time::HybridTime;
use partition_codes::Range;
use row_values::{Copied, NoMemory};
use std::marker::Model;
use yb_ident::Ident;

/// From when to when a tablet was active: took its table's rows in its range, in its slot. It still
/// is where `to` is none. Contracts see it as the book's.
#[derive(Clone, Copy, Debug, PartialEq, Eq)]
pub struct Interval {
    pub slot: u32,
    pub tablet: Ident,
    pub table: Ident,
    pub range: Range,
    pub from: HybridTime,
    pub to: Option<HybridTime>,
}

impl Model for Interval {
    ghost use Rattle.model.specs.Activity.{Interval};

    ghost Value = { Interval };

    ghost view = { λ i. record {
      slot = i.slot;
      tablet = i.tablet;
      table = i.table;
      low = i.range.low;
      high = i.range.high;
      from = i.from;
      to = i.to;
    } };

    ghost inverse = { λ v. record {
      slot = v.slot;
      tablet = v.tablet;
      table = v.table;
      range = record { low = v.low; high = v.high };
      from = v.from;
      to = v.to;
    } };
}

impl Interval {
    /// Whether the tablet was active at a time.
    pub fn is_active_at(&self, x: HybridTime) -> bool
        ensures exact { result ≡ book.active_at x self.now }
    {
        self.from.number() <= x.number() && is_before_end(x, self.to)
    }

    /// Whether the tablet was active at some time from `a` to `b`, both counted.
    pub fn is_active_between(&self, a: HybridTime, b: HybridTime) -> bool
        ensures exact { result ≡ book.active_between a b self.now }
    {
        self.from.number() <= b.number() && is_before_end(a, self.to)
    }
}

fn is_before_end(x: HybridTime, to: Option<HybridTime>) -> bool
    ensures exact { result ≡ before_end x to }
{
    match to {
        None => true,
        Some(to) => x.number() < to.number(),
    }
}

impl Copied for Interval {
    fn copy(&self) -> Result<Interval, NoMemory> {
        Ok(*self)
    }
}
