ghost use Rattle.std.specs.Prelude.{ℕ, ◌≡◌, not, max, if◌then◌else◌};
ghost use Rattle.row_values.specs.Ids.{Id};
ghost use Rattle.model.specs.Times.{ended_by};
ghost use Rattle.model.specs.Catalog.{Catalog};
ghost use Rattle.model.specs.Cleanup.{has_records};
ghost use Rattle.catalog_core.specs.Pruned.{space_goes, table_goes};

use crate::keeping::Keeps;
use crate::marks::Rises;
use crate::namespaces::Namespaces;
use crate::records::{NamespaceRecord, TableRecord};
use crate::tables::Tables;
use hybrid_time::HybridTime;
use yb_ident::Ident;

/// Up to which time a prune takes the records of each namespace.
pub trait Cuts {
    ghost cut: { Self → Id → ℕ };

    /// Up to which time the records of a namespace are taken.
    fn cut(&self, namespace: &Ident) -> HybridTime
        ensures exact { result ≡ cut self.now namespace.now };
}

// What a prune leaves.
#[derive(Drop)]
pub struct Uncut<'a, C> {
    pub cuts: &'a C,
}

impl<'a, C: Cuts> Keeps<NamespaceRecord> for Uncut<'a, C> {
    ghost stays = { λ w r. not (space_goes (C.cut w.cuts.now) r) };

    fn stays(&self, item: &NamespaceRecord) -> bool {
        !has_ended_by(self.cuts.cut(&item.id), item.to)
    }
}

impl<'a, C: Cuts> Keeps<TableRecord> for Uncut<'a, C> {
    ghost stays = { λ w r. not (table_goes (C.cut w.cuts.now) r) };

    fn stays(&self, item: &TableRecord) -> bool {
        !has_ended_by(self.cuts.cut(&item.namespace), item.to)
    }
}

fn has_ended_by(at: HybridTime, to: Option<HybridTime>) -> bool
    ensures { result ≡ ended_by at to }
{
    match to {
        None => false,
        Some(to) => to.number() <= at.number(),
    }
}

// How marks rise: as far as records are taken, where there are any.
#[derive(Drop)]
pub struct Cutting<'a, C> {
    pub cuts: &'a C,
    pub namespaces: &'a Namespaces,
    pub tables: &'a Tables,
}

impl<'a, C: Cuts> Rises for Cutting<'a, C> {
    ghost use Rattle.std.specs.Prelude.{◌||◌};
    ghost use Rattle.std.specs.List.{list_any};
    ghost use Rattle.row_values.specs.Ids.{same};

    ghost risen = { λ w ns from. if list_any (λ r. same r.id ns) w.namespaces.now.items || list_any (λ r. same r.namespace ns) w.tables.now.items then max from (C.cut w.cuts.now ns) else from };

    fn rise(&self, namespace: &Ident, from: HybridTime) -> HybridTime {
        if self.namespaces.has_records(namespace) || self.tables.has_records(namespace) {
            from.later_of(self.cuts.cut(namespace))
        } else {
            from
        }
    }
}
