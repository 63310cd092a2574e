//! What the commands that begin a snapshot or a restoration come to, with the records that they make.
ghost use Rattle.std.specs.Prelude.{ℕ, ◌≡◌, ◌<◌, ◌+◌, IfOk};
ghost use Rattle.row_values.specs.Ids.{id_bound};
ghost use Rattle.model.specs.Tablets.{Tablet};
ghost use Rattle.model.specs.Changes as book;
ghost use Rattle.master_part.specs.Acts.{IsLawful, new_restoration};
ghost use Rattle.master_part.specs.Decisions.{outcome_by, MayDo};

use crate::scheduling::{judge_restore, judge_take_snapshot};
use catalog_tablets::active_tablets;
use cluster_events::Reply;
use hybrid_time::HybridTime;
use master_part::{
    Decision, MasterAct, MasterPart, listing, new_snapshot, schedule_id, scheduled_namespace,
};
use restore_coord::{RestorationRecord, RestorationState};
use row_values::{NoMemory, Records};
use schedules::Schedule;
use tablet_inbox::Body;
use yb_ident::Ident;

/// A snapshot by a schedule.
#[tactic(auto, using(crate::proofs::Allowed::few_snapshots), unfolding(model::specs::Changes::take_snapshot))]
pub fn decide_take_snapshot(
    master: &MasterPart,
    schedule: &Ident,
    stamp: HybridTime,
) -> Result<Decision, NoMemory>
    requires lawful { IsLawful master.now.master }
    ensures plan { IfOk result (λ d. (parts : ℕ → Tablet) → outcome_by parts d ≡ book.take_snapshot schedule.now stamp master.now.master) }
    ensures may { IfOk result (λ d. MayDo d stamp master.now.master) }
{
    let schedule = match judge_take_snapshot(master, schedule, stamp) {
        Ok(found) => found,
        Err(why) => return Ok(Decision::Answers(Reply::Refused(why))),
    };
    let mut ids = Records::new(master.alloc());
    ids.push(master.next_snapshot())?;
    let namespace = scheduled_namespace(&schedule);
    let made = new_snapshot(master, namespace, schedule_id(&schedule), stamp)?;
    Ok(Decision::Accepts {
        act: MasterAct::TakesSnapshot { schedule, made },
        changes: Records::new(master.alloc()),
        reply: Reply::Ok { made: ids },
    })
}

/// A restoration by a schedule to a time.
#[tactic(auto, using(crate::proofs::Allowed::few_restorations), unfolding(model::specs::Changes::restore))]
pub fn decide_restore(
    master: &MasterPart,
    schedule: &Ident,
    to: HybridTime,
    stamp: HybridTime,
) -> Result<Decision, NoMemory>
    requires lawful { IsLawful master.now.master }
    ensures plan { IfOk result (λ d. (parts : ℕ → Tablet) → outcome_by parts d ≡ book.restore schedule.now to stamp master.now.master) }
    ensures may { IfOk result (λ d. (n : ℕ) → MayDo d n master.now.master) }
{
    let schedule = match judge_restore(master, schedule, to, stamp) {
        Ok(found) => found,
        Err(why) => return Ok(Decision::Answers(Reply::Refused(why))),
    };
    let mut ids = Records::new(master.alloc());
    ids.push(master.next_restoration())?;
    let made = new_restoration(master, &schedule, to)?;
    Ok(Decision::Accepts {
        act: MasterAct::BeginsRestoration { schedule, to, made },
        changes: Records::new(master.alloc()),
        reply: Reply::Ok { made: ids },
    })
}

// The record of a restoration by a schedule to a time: it begins by fencing the active tablets.
fn new_restoration(
    master: &MasterPart,
    schedule: &Schedule,
    to: HybridTime,
) -> Result<RestorationRecord, NoMemory>
    requires few { master.now.master.drawn.restorations + 1 < id_bound }
    ensures exact { IfOk result (λ made. made ≡ new_restoration master.now.master schedule.now to) }
{
    let namespace = scheduled_namespace(schedule);
    let active = active_tablets(master.catalog(), master.tablets(), namespace)?;
    let listed = listing(master.alloc(), &Body::Fence, active.as_slice())?;
    Ok(RestorationRecord {
        id: master.next_restoration(),
        schedule: schedule_id(schedule),
        namespace,
        to,
        listed,
        state: RestorationState::Fencing,
    })
}
