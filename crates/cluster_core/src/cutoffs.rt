ghost use Rattle.std.specs.Prelude.{IfOk};
ghost use Rattle.model.specs.Acts.{Cutoff};
ghost use Rattle.cluster_core.specs.Plans.{MayPlan, IsPlan};

use crate::held::{master_in, tablet_in};
use crate::outcome::EventPlan;
use crate::part::ClusterPart;
use hybrid_time::HybridTime;
use master_cleanup::allowed_cutoff;
use row_values::NoMemory;
use std::alloc::Global;
use step_table::Held;
use tablet_acts::cutoff;
use versions::VersionStore;

/// A cutoff that is raised as far as the master allows.
pub(crate) fn plan_cutoff<V: VersionStore>(
    alloc: Global,
    held: &Held<ClusterPart<V>>,
    slot: u32,
    stamp: HybridTime,
) -> Result<EventPlan<V>, NoMemory>
    requires may { MayPlan (Cutoff slot) stamp held.now }
    ensures plan { IfOk result (IsPlan (Cutoff slot) stamp held.now) }
{
    let to = allowed_cutoff(master_in(held), slot, stamp);
    let plan = cutoff(alloc, tablet_in(held, slot), slot, to)?;
    Ok(EventPlan::of_tablets(plan))
}
