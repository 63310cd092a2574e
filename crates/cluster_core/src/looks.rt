ghost use Rattle.std.specs.Prelude.{◌≡◌, IfOk};
ghost use Rattle.model.specs.Acts.{Look};
ghost use Rattle.model.specs.Parts.{answered};
ghost use Rattle.model.specs.History as book;
ghost use Rattle.commands.specs.Seen.{ask_of};
ghost use Rattle.cluster_events.specs.SeenReplies.{reply_of};
ghost use Rattle.master_part.specs.Acts.{IsLawful};
ghost use Rattle.cluster_core.specs.Plans.{MayPlan, IsPlan};

use crate::held::master_in;
use crate::outcome::EventPlan;
use crate::part::ClusterPart;
use cluster_events::Reply;
use commands::Ask;
use hybrid_time::HybridTime;
use master_acts::look;
use master_cleanup::removable;
use master_moves::next_work;
use master_part::MasterPart;
use row_values::NoMemory;
use std::alloc::Global;
use step_table::Held;
use versions::VersionStore;

/// A look at the master.
pub(crate) fn plan_look<V: VersionStore>(
    alloc: Global,
    held: &Held<ClusterPart<V>>,
    ask: &Ask,
    stamp: HybridTime,
) -> Result<EventPlan<V>, NoMemory>
    requires may { MayPlan (Look (ask_of ask.now)) stamp held.now }
    ensures plan { IfOk result (IsPlan (Look (ask_of ask.now)) stamp held.now) }
{
    let reply = answer_to(master_in(held), ask, stamp)?;
    Ok(EventPlan::answered(alloc, reply))
}

/// What the master answers: what its coordinator does next, what may be removed, or what is found in it.
fn answer_to(master: &MasterPart, ask: &Ask, stamp: HybridTime) -> Result<Reply, NoMemory>
    requires lawful { IsLawful master.now.master }
    ensures plan { IfOk result (λ reply. book.look (ask_of ask.now) stamp master.now.master ≡ answered (reply_of reply)) }
{
    match ask {
        Ask::Work => Ok(Reply::Work(next_work(master))),
        Ask::Removable => Ok(Reply::Removable(removable(master, stamp)?)),
        Ask::Plan(_) => look(master, ask, stamp),
        Ask::Keys { .. } => look(master, ask, stamp),
        Ask::Table { .. } => look(master, ask, stamp),
        Ask::Present => look(master, ask, stamp),
    }
}
