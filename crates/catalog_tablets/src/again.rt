ghost use Rattle.std.specs.Prelude.{ℕ, ◌≡◌, ◌≤◌, ◌-◌, length};
ghost use Rattle.model.specs.Lists as lists;
ghost use Rattle.model.specs.Restored.{restored_activity};

use crate::interval::Interval;
use crate::lists::Owned;
use crate::tablets::Tablets;
use catalog_core::Catalog;
use hybrid_time::HybridTime;
use yb_ident::Ident;

/// From a point on the active tablets of a namespace are those that are given: those that were
/// active at a time. The others' intervals end. It uses room that was made, and goes over all kept
/// intervals.
pub fn restore_tablets(
    catalog: &Catalog,
    tablets: &mut Tablets,
    namespace: Ident,
    back: &[Interval],
    point: HybridTime,
)
    requires room { length back.now ≤ tablets.old.room }
    ensures activity { (to : ℕ) → back.now ≡ lists.tablets_active_at catalog.now.catalog.owners tablets.old.activity namespace to → tablets.new.activity ≡ restored_activity catalog.now.catalog.owners tablets.old.activity namespace to point }
    ensures room { tablets.new.room ≡ tablets.old.room - length back.now }
{
    tablets.end_passing(&Owned { catalog, namespace }, point);
    for interval in back {
        tablets.begin(Interval {
            slot: interval.slot,
            tablet: interval.tablet,
            table: interval.table,
            range: interval.range,
            from: point,
            to: None,
        });
    }
}
