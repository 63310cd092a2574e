ghost use Rattle.std.specs.Prelude.{IfOk};
ghost use Rattle.model.specs.Acts.{Process};
ghost use Rattle.cluster_core.specs.Plans.{MayPlan, IsPlan};

use crate::held::tablet_in;
use crate::outcome::EventPlan;
use crate::part::ClusterPart;
use hybrid_time::HybridTime;
use row_values::NoMemory;
use std::alloc::Global;
use step_table::Held;
use tablet_acts::process;
use versions::VersionStore;

/// The first command of a tablet's inbox is done. A copy takes rows of the other slot's tablet.
pub(crate) fn plan_process<V: VersionStore>(
    alloc: Global,
    held: &Held<ClusterPart<V>>,
    slot: u32,
    other: u32,
    stamp: HybridTime,
) -> Result<EventPlan<V>, NoMemory>
    requires may { MayPlan (Process slot other) stamp held.now }
    ensures plan { IfOk result (IsPlan (Process slot other) stamp held.now) }
{
    let part = tablet_in(held, slot);
    let source = tablet_in(held, other);
    let plan = process(alloc, part, slot, other, source)?;
    Ok(EventPlan::of_tablets(plan))
}
