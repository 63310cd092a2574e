ghost use Rattle.std.specs.Prelude.{ℕ, IfOk};
ghost use Rattle.model.specs.Acts.{Restart};
ghost use Rattle.cluster_core.specs.Held.{Holding};
ghost use Rattle.cluster_core.specs.Plans.{IsPlan};

use crate::outcome::EventPlan;
use cluster_events::Reply;
use master_part::MasterAct;
use row_values::{NoMemory, Records};
use std::alloc::Global;
use tablet_acts::{TabletTold, TabletsPlan};
use versions::VersionStore;

/// A restart of the master, whose slot is 0, or of a tablet.
#[tactic(auto, unfolding(model::specs::RowActs::restart))]
pub(crate) fn plan_restart<V: VersionStore>(
    alloc: Global,
    slot: u32,
) -> Result<EventPlan<V>, NoMemory>
    ensures plan { IfOk result (λ p. (n : ℕ) (held : Holding) → IsPlan (Restart slot) n held p) }
{
    let reply = Reply::Ok {
        made: Records::new(alloc),
    };
    if slot == 0 {
        return Ok(EventPlan {
            master: MasterAct::Restarts,
            tablets: Vec::new(alloc),
            reply,
        });
    }
    let plan = TabletsPlan::telling(alloc, slot, TabletTold::Restart, reply)?;
    Ok(EventPlan::of_tablets(plan))
}
