//! What a removal comes to.
ghost use Rattle.std.specs.Prelude.{ℕ, ◌≡◌, Some, IfOk};
ghost use Rattle.std.specs.Option.{option_map};
ghost use Rattle.yb_ident.specs.Seen as kinds;
ghost use Rattle.row_values.specs.Ids.{same, Tablet as TabletKind};
ghost use Rattle.tablet_inbox.specs.Seen.{standing_seen, id_or};
ghost use Rattle.model.specs.Activity.{last_of};
ghost use Rattle.model.specs.Tablets.{Tablet};
ghost use Rattle.model.specs.Records.{snapshot_with};
ghost use Rattle.model.specs.Acts.{StalePlan, Moved};
ghost use Rattle.model.specs.Parts.{Master, Parts, refused};
ghost use Rattle.model.specs.Cleanup as book;
ghost use Rattle.cluster_events.specs.SeenReplies.{refusal_of};
ghost use Rattle.master_part.specs.Decisions.{outcome_by, MayDo};
ghost use Rattle.master_cleanup.specs.Seen.{slot_of_removal, slot_by, IsSeen};
ghost use Rattle.master_cleanup.specs.Hidden.{hidden_since, removing_planned};

use crate::judging::{judge_snapshot, judge_tablet, refusal_by, table_of};
use crate::plans::snapshot_plan;
use catalog_tablets::Interval;
use cluster_events::{Refusal, Reply};
use hybrid_time::HybridTime;
use master_part::{
    Decision, MasterAct, MasterPart, PartChange, PartKind, kind_of, same_slots, told_all,
};
use row_values::{NoMemory, Records, Slots};
use snapshot_coord::SnapshotRecord;
use tablet_inbox::Standing;
use yb_ident::{Ident, Kind};

/// The slot of a tablet that is to be removed: its part has to be seen. It takes no memory.
pub fn removal_slot(master: &MasterPart, target: &Ident) -> Option<u32>
    ensures exact { result ≡ slot_of_removal master.now.master target.now }
{
    match kind_of(target) {
        Kind::Tablet => slot_of_last(master, target),
        Kind::Namespace => None,
        Kind::Table => None,
        Kind::Schedule => None,
        Kind::Snapshot => None,
        Kind::Restoration => None,
        Kind::Clone => None,
    }
}

/// The removal of a tablet or of a snapshot under its plan. `seen` is what the part in the slot of
/// the tablet says of itself.
#[tactic(auto, using(crate::proofs::Judged::remove_by))]
pub fn decide_remove(
    master: &MasterPart,
    target: &Ident,
    slots: &Slots,
    seen: Option<Standing>,
    stamp: HybridTime,
) -> Result<Decision, NoMemory>
    ensures plan { IfOk result (λ d. (ps : Parts) → ps.master ≡ master.now.master → IsSeen seen (slot_of_removal master.now.master target.now) slots.now ps.tablet → outcome_by ps.tablet d ≡ book.remove target.now slots.now stamp ps) }
    ensures may { IfOk result (λ d. (n : ℕ) → MayDo d n master.now.master) }
{
    decide_by(kind_of(target), master, target, slots, seen, stamp)
}

// The same of a target of this kind.
fn decide_by(
    kind: Kind,
    master: &MasterPart,
    target: &Ident,
    slots: &Slots,
    seen: Option<Standing>,
    stamp: HybridTime,
) -> Result<Decision, NoMemory>
    ensures plan { IfOk result (λ d. (ps : Parts) → ps.master ≡ master.now.master → IsSeen seen (slot_by (kinds.kind_of kind) master.now.master target.now) slots.now ps.tablet → outcome_by ps.tablet d ≡ book.removing (kinds.kind_of kind) target.now slots.now stamp ps) }
    ensures may { IfOk result (λ d. (n : ℕ) → MayDo d n master.now.master) }
{
    match kind {
        Kind::Tablet => remove_tablet(master, target, slots, seen, stamp),
        Kind::Snapshot => remove_snapshot(master, target, slots, stamp),
        Kind::Namespace => Ok(unknown(master, slots, Refusal::UnknownSnapshot)),
        Kind::Table => Ok(unknown(master, slots, Refusal::UnknownSnapshot)),
        Kind::Schedule => Ok(unknown(master, slots, Refusal::UnknownSnapshot)),
        Kind::Restoration => Ok(unknown(master, slots, Refusal::UnknownSnapshot)),
        Kind::Clone => Ok(unknown(master, slots, Refusal::UnknownSnapshot)),
    }
}

// The removal of a tablet.
fn remove_tablet(
    master: &MasterPart,
    target: &Ident,
    slots: &Slots,
    seen: Option<Standing>,
    stamp: HybridTime,
) -> Result<Decision, NoMemory>
    ensures plan { IfOk result (λ d. (ps : Parts) → ps.master ≡ master.now.master → IsSeen seen (option_map (λ i. i.slot) (last_of master.now.master.activity target.now)) slots.now ps.tablet → outcome_by ps.tablet d ≡ book.removing_tablet (last_of ps.master.activity target.now) target.now slots.now stamp ps) }
    ensures may { IfOk result (λ d. (n : ℕ) → MayDo d n master.now.master) }
{
    let Some(interval) = master.tablets().last_of(target) else {
        let why = Refusal::Moved {
            slot: 0,
            standing: Standing::Empty,
        };
        return Ok(unknown(master, slots, why));
    };
    remove_known(master, &interval, target, slots, seen, stamp)
}

// The removal of a tablet with its last interval.
#[tactic(auto, using(crate::proofs::Judged::seen_planned))]
fn remove_known(
    master: &MasterPart,
    interval: &Interval,
    target: &Ident,
    slots: &Slots,
    seen: Option<Standing>,
    stamp: HybridTime,
) -> Result<Decision, NoMemory>
    ensures plan { IfOk result (λ d. (ps : Parts) → ps.master ≡ master.now.master → IsSeen seen (Some interval.now.slot) slots.now ps.tablet → outcome_by ps.tablet d ≡ book.removing_tablet (Some interval.now) target.now slots.now stamp ps) }
    ensures may { IfOk result (λ d. (n : ℕ) → MayDo d n master.now.master) }
{
    let mut plan = Slots::new(master.alloc());
    plan.push(slot_of(interval))?;
    if !same_slots(slots, &plan) {
        return Ok(stale(plan));
    }
    let standing = match seen {
        Some(standing) => standing,
        None => Standing::Empty,
    };
    remove_planned(master, interval, target, &standing, stamp)
}

// The removal of a tablet under its plan, by what the part in its slot says of itself.
fn remove_planned(
    master: &MasterPart,
    interval: &Interval,
    target: &Ident,
    standing: &Standing,
    stamp: HybridTime,
) -> Result<Decision, NoMemory>
    ensures plan { IfOk result (λ d. (parts : ℕ → Tablet) → outcome_by parts d ≡ removing_planned interval.now target.now (standing_seen standing.now) stamp master.now.master) }
    ensures may { IfOk result (λ d. (n : ℕ) → MayDo d n master.now.master) }
{
    let Some(ended) = hidden_since(standing, target) else {
        return Ok(moved(slot_of(interval), standing));
    };
    if let Err(kept) = judge_tablet(master, &table_of(interval), target, ended, stamp) {
        return Ok(stays(refusal_by(kept)));
    }
    let mut changes = Records::new(master.alloc());
    changes.push(PartChange {
        slot: slot_of(interval),
        kind: PartKind::Clear,
    })?;
    Ok(Decision::Accepts {
        act: MasterAct::Removes { target: *target },
        changes,
        reply: Reply::Removed,
    })
}

// Since when a part has the tablet hidden.
fn hidden_since(standing: &Standing, target: &Ident) -> Option<HybridTime>
    ensures exact { result ≡ hidden_since target.now (standing_seen standing.now) }
{
    match standing {
        Standing::Hidden { tablet, ended } => {
            if is_tablet(tablet, target) {
                Some(*ended)
            } else {
                None
            }
        }
        Standing::Empty => None,
        Standing::Serving { .. } => None,
    }
}

// Whether a part's tablet is the target. A part without a tablet says the number 0.
fn is_tablet(tablet: &Option<Ident>, target: &Ident) -> bool
    ensures exact { result ≡ same (id_or TabletKind tablet.now) target.now }
{
    match tablet {
        Some(tablet) => *tablet == *target,
        None => target.number == 0,
    }
}

// The removal of a snapshot.
fn remove_snapshot(
    master: &MasterPart,
    target: &Ident,
    slots: &Slots,
    stamp: HybridTime,
) -> Result<Decision, NoMemory>
    ensures plan { IfOk result (λ d. (ps : Parts) → ps.master ≡ master.now.master → outcome_by ps.tablet d ≡ book.removing_snapshot (snapshot_with ps.master.snapshots target.now) target.now slots.now stamp ps) }
    ensures may { IfOk result (λ d. (n : ℕ) → MayDo d n master.now.master) }
{
    match master.snapshots().find(target) {
        Some(record) => remove_record(master, record, target, slots, stamp),
        None => Ok(unknown(master, slots, Refusal::UnknownSnapshot)),
    }
}

// The removal of a snapshot with its record.
fn remove_record(
    master: &MasterPart,
    snapshot: &SnapshotRecord,
    target: &Ident,
    slots: &Slots,
    stamp: HybridTime,
) -> Result<Decision, NoMemory>
    ensures plan { IfOk result (λ d. (ps : Parts) → ps.master ≡ master.now.master → outcome_by ps.tablet d ≡ book.removing_snapshot (Some snapshot.now) target.now slots.now stamp ps) }
    ensures may { IfOk result (λ d. (n : ℕ) → MayDo d n master.now.master) }
{
    let plan = snapshot_plan(master, snapshot)?;
    if !same_slots(slots, &plan) {
        return Ok(stale(plan));
    }
    if let Err(kept) = judge_snapshot(master, snapshot, stamp) {
        return Ok(stays(refusal_by(kept)));
    }
    let drops = PartKind::DropFrozen { snapshot: *target };
    let changes = told_all(master.alloc(), plan.as_slice(), &drops)?;
    Ok(Decision::Accepts {
        act: MasterAct::Removes { target: *target },
        changes,
        reply: Reply::Removed,
    })
}

// What isn't known has the empty plan.
fn unknown(master: &MasterPart, slots: &Slots, why: Refusal) -> Decision
    ensures plan { (parts : ℕ → Tablet) → outcome_by parts result ≡ book.removing_unknown slots.now (refusal_of why) }
    ensures may { (n : ℕ) → MayDo result n master.now.master }
{
    let none = Slots::new(master.alloc());
    if !same_slots(slots, &none) {
        return stale(none);
    }
    stays(why)
}

// The removal would touch these slots now.
fn stale(kept: Slots) -> Decision
    ensures plan { (parts : ℕ → Tablet) → outcome_by parts result ≡ refused (StalePlan kept) }
    ensures may { (n : ℕ) (m : Master) → MayDo result n m }
{
    Decision::Answers(Reply::Refused(Refusal::StalePlan { kept }))
}

// The part in the slot of the tablet doesn't have it hidden.
fn moved(slot: u32, standing: &Standing) -> Decision
    ensures plan { (parts : ℕ → Tablet) → outcome_by parts result ≡ refused (Moved slot (standing_seen standing.now)) }
    ensures may { (n : ℕ) (m : Master) → MayDo result n m }
{
    Decision::Answers(Reply::Refused(Refusal::Moved {
        slot,
        standing: *standing,
    }))
}

fn stays(why: Refusal) -> Decision
    ensures plan { (parts : ℕ → Tablet) → outcome_by parts result ≡ refused (refusal_of why) }
    ensures may { (n : ℕ) (m : Master) → MayDo result n m }
{
    Decision::Answers(Reply::Refused(why))
}

fn slot_of(interval: &Interval) -> u32
    ensures exact { result ≡ interval.now.slot }
{
    interval.slot
}

// The slot in which a tablet is.
fn slot_of_last(master: &MasterPart, tablet: &Ident) -> Option<u32>
    ensures exact { result ≡ option_map (λ i. i.slot) (last_of master.now.master.activity tablet.now) }
{
    let interval = master.tablets().last_of(tablet)?;
    Some(interval.slot)
}
