ghost use Rattle.std.specs.Prelude.{◌≡◌, ◌&&◌, IfOk};
ghost use Rattle.model.specs.Times.{is_open};
ghost use Rattle.model.specs.Activity.{active_at};
ghost use Rattle.model.specs.Catalog as book;
ghost use Rattle.model.specs.Lists as lists;

use crate::interval::Interval;
use crate::tablets::Tablets;
use catalog_core::Catalog;
use hybrid_time::HybridTime;
use kept_records::Tests;
use row_values::NoMemory;
use yb_ident::Ident;

/// Whether a table was made in a namespace. It takes no memory.
pub fn owns(catalog: &Catalog, namespace: &Ident, table: &Ident) -> bool
    ensures exact { result ≡ book.owns catalog.now.catalog.owners namespace.now table.now }
{
    match catalog.owner_of(table) {
        Some(owner) => owner == *namespace,
        None => false,
    }
}

// Whether a tablet is one of a namespace's.
#[derive(Drop)]
pub struct Owned<'a> {
    pub catalog: &'a Catalog,
    pub namespace: Ident,
}

impl<'a> Tests<Interval> for Owned<'a> {
    ghost passes = { λ w i. book.owns w.catalog.now.catalog.owners w.namespace i.table };

    fn passes(&self, item: &Interval) -> bool {
        owns(self.catalog, &self.namespace, &item.table)
    }
}

// Whether an active tablet is one of a namespace's.
#[derive(Drop)]
struct OwnedOpen<'a> {
    catalog: &'a Catalog,
    namespace: Ident,
}

impl<'a> Tests<Interval> for OwnedOpen<'a> {
    ghost passes = { λ w i. book.owns w.catalog.now.catalog.owners w.namespace i.table && is_open i.to };

    fn passes(&self, item: &Interval) -> bool {
        item.to.is_none() && owns(self.catalog, &self.namespace, &item.table)
    }
}

// Whether a tablet is one of a namespace's, and was active at a time.
#[derive(Drop)]
struct OwnedAt<'a> {
    catalog: &'a Catalog,
    namespace: Ident,
    x: HybridTime,
}

impl<'a> Tests<Interval> for OwnedAt<'a> {
    ghost passes = { λ w i. book.owns w.catalog.now.catalog.owners w.namespace i.table && active_at w.x i };

    fn passes(&self, item: &Interval) -> bool {
        item.is_active_at(self.x) && owns(self.catalog, &self.namespace, &item.table)
    }
}

/// The kept intervals of a namespace's tablets, in the order in which they began. It goes over all
/// kept intervals.
pub fn intervals_in(
    catalog: &Catalog,
    tablets: &Tablets,
    namespace: Ident,
) -> Result<Vec<Interval>, NoMemory>
    ensures exact { IfOk result (λ found. found.items ≡ lists.intervals_in catalog.now.catalog.owners tablets.now.activity namespace) }
{
    tablets.passing(&Owned { catalog, namespace })
}

/// The namespace's tablets that are active, in the order in which they began. It goes over all kept
/// intervals.
#[tactic(auto, using(crate::proofs::Filtered::filter_twice))]
pub fn active_tablets(
    catalog: &Catalog,
    tablets: &Tablets,
    namespace: Ident,
) -> Result<Vec<Interval>, NoMemory>
    ensures exact { IfOk result (λ found. found.items ≡ lists.active_tablets catalog.now.catalog.owners tablets.now.activity namespace) }
{
    tablets.passing(&OwnedOpen { catalog, namespace })
}

/// The namespace's tablets that were active at a time, in the order in which they began. It goes
/// over all kept intervals.
#[tactic(auto, using(crate::proofs::Filtered::filter_twice))]
pub fn tablets_active_at(
    catalog: &Catalog,
    tablets: &Tablets,
    namespace: Ident,
    x: HybridTime,
) -> Result<Vec<Interval>, NoMemory>
    ensures exact { IfOk result (λ found. found.items ≡ lists.tablets_active_at catalog.now.catalog.owners tablets.now.activity namespace x) }
{
    tablets.passing(&OwnedAt {
        catalog,
        namespace,
        x,
    })
}
