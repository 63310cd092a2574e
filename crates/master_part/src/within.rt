//! A namespace's tablets, each once.
ghost use Rattle.std.specs.Prelude.{◌≡◌, ◌+◌, ◌&&◌, not, IfOk};
ghost use Rattle.row_values.specs.Ids.{same};
ghost use Rattle.model.specs.Times.{before_end};
ghost use Rattle.model.specs.Activity.{active_within, forget};
ghost use Rattle.model.specs.Catalog as catalog;
ghost use Rattle.model.specs.Lists as book;

use crate::fields::tablet_of;
use catalog_core::Catalog;
use catalog_tablets::{Interval, Tablets, owns};
use hybrid_time::HybridTime;
use kept_records::Tests;
use row_values::{NoMemory, Records};
use std::alloc::Global;
use yb_ident::Ident;

// Whether a tablet is one of a namespace's, and was active at some time after one and at or before another.
#[derive(Drop)]
struct OwnedWithin<'a> {
    catalog: &'a Catalog,
    namespace: Ident,
    after: HybridTime,
    by: HybridTime,
}

impl<'a> Tests<Interval> for OwnedWithin<'a> {
    ghost passes = { λ w i. catalog.owns w.catalog.now.catalog.owners w.namespace i.table && active_within w.after w.by i };

    fn passes(&self, item: &Interval) -> bool {
        is_active_within(item, self.after, self.by)
            && owns(self.catalog, &self.namespace, &item.table)
    }
}

// Whether a tablet was active at some time after one and at or before another.
fn is_active_within(interval: &Interval, after: HybridTime, by: HybridTime) -> bool
    ensures exact { result ≡ active_within after by interval.now }
{
    interval.from.number() <= by.number() && is_behind(after, interval.to)
}

// Whether the time just after one is before an end.
fn is_behind(after: HybridTime, to: Option<HybridTime>) -> bool
    ensures exact { result ≡ before_end (after + 1) to }
{
    match to {
        None => true,
        Some(to) => after.number() + 1 < to.number(),
    }
}

/// The namespace's tablets that were active at some time after one and at or before another, hidden ones too, each
/// once. It goes over all kept intervals.
#[tactic(auto, using(catalog_tablets::proofs::Filtered::filter_twice))]
pub fn tablets_active_within(
    alloc: Global,
    catalog: &Catalog,
    tablets: &Tablets,
    namespace: Ident,
    after: HybridTime,
    by: HybridTime,
) -> Result<Records<Interval>, NoMemory>
    ensures exact { IfOk result (λ found. found ≡ book.tablets_active_within catalog.now.catalog.owners tablets.now.activity namespace after by) }
{
    let found = tablets.passing(&OwnedWithin {
        catalog,
        namespace,
        after,
        by,
    })?;
    once(alloc, found.as_slice())
}

/// Each tablet once, by its first interval.
pub fn once(alloc: Global, intervals: &[Interval]) -> Result<Records<Interval>, NoMemory>
    ensures exact { IfOk result (λ found. found ≡ book.once intervals.now) }
{
    let mut found = Vec::new(alloc);
    let mut upto = intervals.len();
    'intervals: while upto > 0 {
        upto -= 1;
        let interval = intervals[upto];
        forget(&mut found, &tablet_of(&interval));
        found.insert(0, interval)?;
    }
    Ok(Records::from_vec(found))
}

// The intervals of other tablets stay.
fn forget(found: &mut Vec<Interval>, tablet: &Ident)
    ensures items { found.new.items ≡ forget tablet.now found.old.items }
{
    found.retain(|interval| is_other(interval, tablet));
}

// Whether an interval is another tablet's.
fn is_other(interval: &Interval, tablet: &Ident) -> bool
    ensures exact { result ≡ not (same interval.now.tablet tablet.now) }
{
    tablet_of(interval) != *tablet
}
