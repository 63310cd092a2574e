//! What a coordinator does next.
ghost use Rattle.std.specs.Prelude.{◌≡◌, None, not, map, filter, option_map};
ghost use Rattle.model.specs.Records as records;
ghost use Rattle.model.specs.Moves.{snapshot_progress, restoration_progress, clone_progress};
ghost use Rattle.model.specs.Work as book;
ghost use Rattle.model.specs.Work.{first_work};
ghost use Rattle.cluster_events.specs.SeenReplies.{work_of};
ghost use Rattle.master_moves.specs.Works.{work_if};

use crate::cloning::awaited_by_clone;
use crate::fields::{
    clone_id, listed_by_clone, listed_by_restoration, listed_by_snapshot, restoration_id,
    snapshot_id,
};
use crate::restoring::awaited_by_restoration;
use clone_coord::CloneRecord;
use cluster_events::WorkItem;
use master_part::MasterPart;
use restore_coord::RestorationRecord;
use snapshot_coord::SnapshotRecord;
use tablet_inbox::{Listed, first_unacked};
use yb_ident::Ident;

/// What a coordinator does next: for the first unfinished record that no snapshot holds up, it goes on with the
/// first listed tablet that isn't done, or moves the record. It takes no memory.
#[tactic(auto, using(crate::proofs::Works::work_of_three))]
pub fn next_work(master: &MasterPart) -> Option<WorkItem>
    ensures exact { option_map work_of result ≡ book.next_work master.now.master }
{
    if let Some(item) = work_of_snapshots(master, master.snapshots().records()) {
        return Some(item);
    }
    if let Some(item) = work_of_restorations(master, master.restorations().records()) {
        return Some(item);
    }
    work_of_clones(master, master.clones().records())
}

// What is to be done for the first of these snapshots that is unfinished.
fn work_of_snapshots(master: &MasterPart, snapshots: &[SnapshotRecord]) -> Option<WorkItem>
    ensures exact { option_map work_of result ≡ first_work (map snapshot_progress (filter (λ r. not r.complete) snapshots.now)) master.now.master.sent }
{
    for snapshot in snapshots {
        if let Some(item) = work_of_snapshot(master, snapshot) {
            return Some(item);
        }
    }
    None
}

// What is to be done for a snapshot, if it is unfinished.
fn work_of_snapshot(master: &MasterPart, snapshot: &SnapshotRecord) -> Option<WorkItem>
    ensures exact { option_map work_of result ≡ work_if (not snapshot.now.complete) (snapshot_progress snapshot.now) master.now.master.sent }
{
    if snapshot.complete {
        return None;
    }
    work_for(
        master,
        listed_by_snapshot(snapshot),
        None,
        snapshot_id(snapshot),
    )
}

// What is to be done for the first of these restorations that is unfinished, and that no snapshot holds up.
fn work_of_restorations(master: &MasterPart, restorations: &[RestorationRecord]) -> Option<WorkItem>
    ensures exact { option_map work_of result ≡ first_work (map (restoration_progress master.now.master) (filter (λ r. not (records.is_restored r.state)) restorations.now)) master.now.master.sent }
{
    for restoration in restorations {
        if let Some(item) = work_of_restoration(master, restoration) {
            return Some(item);
        }
    }
    None
}

// What is to be done for a restoration, if it is unfinished.
fn work_of_restoration(master: &MasterPart, restoration: &RestorationRecord) -> Option<WorkItem>
    ensures exact { option_map work_of result ≡ work_if (not (records.is_restored restoration.now.state)) (restoration_progress master.now.master restoration.now) master.now.master.sent }
{
    if restoration.state.is_restored() {
        return None;
    }
    let awaited = awaited_by_restoration(master, restoration);
    work_for(
        master,
        listed_by_restoration(restoration),
        awaited,
        restoration_id(restoration),
    )
}

// What is to be done for the first of these clones that is unfinished, and that no snapshot holds up.
fn work_of_clones(master: &MasterPart, clones: &[CloneRecord]) -> Option<WorkItem>
    ensures exact { option_map work_of result ≡ first_work (map (clone_progress master.now.master) (filter (λ r. not (records.is_cloned r.state)) clones.now)) master.now.master.sent }
{
    for clone in clones {
        if let Some(item) = work_of_clone(master, clone) {
            return Some(item);
        }
    }
    None
}

// What is to be done for a clone, if it is unfinished.
fn work_of_clone(master: &MasterPart, clone: &CloneRecord) -> Option<WorkItem>
    ensures exact { option_map work_of result ≡ work_if (not (records.is_cloned clone.now.state)) (clone_progress master.now.master clone.now) master.now.master.sent }
{
    if clone.state.is_cloned() {
        return None;
    }
    let awaited = awaited_by_clone(master, clone);
    work_for(master, listed_by_clone(clone), awaited, clone_id(clone))
}

// What is to be done for an operation with these tablets, whose move waits for a snapshot or not.
fn work_for(
    master: &MasterPart,
    listed: &[Listed],
    awaited: Option<Ident>,
    operation: Ident,
) -> Option<WorkItem>
    ensures exact { option_map work_of result ≡ book.work_for (records.first_unacked listed.now) awaited operation master.now.master.sent }
{
    if let Some(next) = first_unacked(listed) {
        return Some(work_at(master, &next, operation));
    }
    if awaited.is_some() {
        return None;
    }
    Some(WorkItem::Advance { operation })
}

// What is to be done with a listed tablet: a command that was sent is to be collected.
fn work_at(master: &MasterPart, listed: &Listed, operation: Ident) -> WorkItem
    ensures exact { work_of result ≡ book.work_at listed.now operation master.now.master.sent }
{
    let slot = listed.slot;
    if master.is_sent(&operation, slot) {
        return WorkItem::Collect {
            operation,
            slot,
            other: listed.body.source_slot(slot),
        };
    }
    WorkItem::Send { operation, slot }
}
