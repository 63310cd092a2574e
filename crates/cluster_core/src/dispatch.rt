//! What an event comes to, by its act.
ghost use Rattle.std.specs.Prelude.{IfOk};
ghost use Rattle.cluster_events.specs.SeenActs.{act_of};
ghost use Rattle.cluster_core.specs.Plans.{MayPlan, IsPlan};

use crate::changes::plan_change;
use crate::cleanup::{plan_prune, plan_remove};
use crate::coordination::{plan_ack, plan_advance, plan_send};
use crate::cutoffs::plan_cutoff;
use crate::looks::plan_look;
use crate::on_tablet::{plan_compact, plan_stats, plan_write};
use crate::outcome::EventPlan;
use crate::part::ClusterPart;
use crate::processing::plan_process;
use crate::reads::plan_read;
use crate::restart::plan_restart;
use cluster_events::Act;
use hybrid_time::HybridTime;
use row_values::NoMemory;
use std::alloc::Global;
use step_table::Held;
use versions::VersionStore;

/// What each of the held parts is told by an act at a stamp, and the reply. It only reads.
pub(crate) fn plan<V: VersionStore>(
    alloc: Global,
    held: &Held<ClusterPart<V>>,
    act: &Act,
    n: HybridTime,
) -> Result<EventPlan<V>, NoMemory>
    requires may { MayPlan (act_of act.now) n held.now }
    ensures plan { IfOk result (IsPlan (act_of act.now) n held.now) }
{
    match act {
        Act::Write {
            place,
            version,
            batch,
        } => plan_write(alloc, held, place, *version, batch, n),
        Act::Compact { slot } => plan_compact(alloc, held, *slot, n),
        Act::Restart { slot } => plan_restart(alloc, *slot),
        Act::Stats { slot } => Ok(plan_stats(alloc, held, *slot, n)),
        Act::Look(ask) => plan_look(alloc, held, ask, n),
        Act::Change { command, slots } => plan_change(alloc, held, command, slots, n),
        Act::Read {
            places,
            version,
            key,
            at,
            columns,
        } => plan_read(alloc, held, places, *version, key, at, columns, n),
        Act::Cutoff { slot } => plan_cutoff(alloc, held, *slot, n),
        Act::Send { operation, slot } => plan_send(alloc, held, operation, *slot, n),
        Act::Process { slot, other } => plan_process(alloc, held, *slot, *other, n),
        Act::Ack { operation, slot } => plan_ack(alloc, held, operation, *slot, n),
        Act::Advance { operation } => plan_advance(alloc, held, operation, n),
        Act::Remove { target, slots } => plan_remove(alloc, held, target, slots, n),
        Act::Prune => plan_prune(alloc, held, n),
    }
}
