ghost use Rattle.std.specs.Prelude.{◌≡◌};
ghost use Rattle.model.specs.Schedules as book;

use hybrid_time::HybridTime;
use row_values::{Copied, NoMemory};
use std::marker::Model;
use yb_ident::Ident;

/// A namespace that has schedules: since when, and the times of its last snapshot and of its last
/// complete one, which stay when the snapshots are removed. Contracts see it as the book's.
#[derive(Clone, Copy, Debug, PartialEq, Eq)]
pub struct ScheduledNamespace {
    pub namespace: Ident,
    pub since: HybridTime,
    pub last: Option<HybridTime>,
    pub complete: Option<HybridTime>,
}

impl Model for ScheduledNamespace {
    ghost use Rattle.model.specs.Records.{ScheduledNamespace};

    ghost Value = { ScheduledNamespace };

    ghost view = { λ k. record { namespace = k.namespace; since = k.since; last = k.last; complete = k.complete } };

    ghost inverse = { λ v. record { namespace = v.namespace; since = v.since; last = v.last; complete = v.complete } };
}

/// A time since a stamp, or just before the stamp where there is none.
pub fn or_before(time: Option<HybridTime>, since: HybridTime) -> HybridTime
    ensures exact { result ≡ book.or_before time since }
{
    match time {
        Some(time) => time,
        None => since.minus(1),
    }
}

impl ScheduledNamespace {
    /// The time of the last complete snapshot, or just before the namespace was scheduled.
    pub fn complete_to(&self) -> HybridTime
        ensures exact { result ≡ book.complete_to self.now }
    {
        or_before(self.complete, self.since)
    }

    /// The time of the snapshot before the next one, or just before the namespace was scheduled.
    pub fn after(&self) -> HybridTime
        ensures exact { result ≡ book.after_of self.now }
    {
        or_before(self.last, self.since)
    }
}

impl Copied for ScheduledNamespace {
    fn copy(&self) -> Result<ScheduledNamespace, NoMemory> {
        Ok(*self)
    }
}
