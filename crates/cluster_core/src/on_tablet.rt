//! What acts on one tablet come to.
ghost use Rattle.std.specs.Prelude.{IfOk};
ghost use Rattle.model.specs.Acts.{Write, Compact, Stats};
ghost use Rattle.cluster_core.specs.Plans.{MayPlan, IsPlan};

use crate::held::{slot_of, tablet_in};
use crate::outcome::EventPlan;
use crate::part::ClusterPart;
use cluster_events::At;
use hybrid_time::HybridTime;
use row_values::{Batch, NoMemory};
use std::alloc::Global;
use step_table::Held;
use tablet_acts::{compact, stats, write};
use versions::VersionStore;

/// A write of a batch.
pub(crate) fn plan_write<V: VersionStore>(
    alloc: Global,
    held: &Held<ClusterPart<V>>,
    place: &At,
    version: u32,
    batch: &Batch,
    stamp: HybridTime,
) -> Result<EventPlan<V>, NoMemory>
    requires may { MayPlan (Write place.now version batch.now) stamp held.now }
    ensures plan { IfOk result (IsPlan (Write place.now version batch.now) stamp held.now) }
{
    let part = tablet_in(held, slot_of(place));
    let plan = write(alloc, part, place, version, batch)?;
    Ok(EventPlan::of_tablets(plan))
}

/// A compaction.
pub(crate) fn plan_compact<V: VersionStore>(
    alloc: Global,
    held: &Held<ClusterPart<V>>,
    slot: u32,
    stamp: HybridTime,
) -> Result<EventPlan<V>, NoMemory>
    requires may { MayPlan (Compact slot) stamp held.now }
    ensures plan { IfOk result (IsPlan (Compact slot) stamp held.now) }
{
    let plan = compact(alloc, tablet_in(held, slot), slot)?;
    Ok(EventPlan::of_tablets(plan))
}

/// A count of what a tablet has.
pub(crate) fn plan_stats<V: VersionStore>(
    alloc: Global,
    held: &Held<ClusterPart<V>>,
    slot: u32,
    stamp: HybridTime,
) -> EventPlan<V>
    requires may { MayPlan (Stats slot) stamp held.now }
    ensures plan { IsPlan (Stats slot) stamp held.now result }
{
    let plan = stats(alloc, tablet_in(held, slot), slot);
    EventPlan::of_tablets(plan)
}
