//! Whether a hidden tablet or a snapshot may go. None of these calls takes memory.
ghost use Rattle.std.specs.Prelude.{◌≡◌, None, Some, MatchResult};
ghost use Rattle.model.specs.Cleanup as book;
ghost use Rattle.cluster_events.specs.SeenReplies.{refusal_of};
ghost use Rattle.retention_rules.specs.Seen as why;

use crate::floors::{floor_of, floor_of_table};
use crate::listers::{lister_of_snapshot, lister_of_tablet};
use catalog_tablets::Interval;
use cluster_events::Refusal;
use hybrid_time::HybridTime;
use master_part::{MasterPart, snapshot_namespace, snapshot_time, tablet_of};
use retention_rules::{Kept, removable_snapshot, removable_tablet};
use snapshot_coord::SnapshotRecord;
use yb_ident::Ident;

/// Why a tablet stays that was hidden at a stamp, if it does.
pub fn judge_tablet(
    master: &MasterPart,
    table: &Ident,
    tablet: &Ident,
    ended: HybridTime,
    stamp: HybridTime,
) -> Result<(), Kept>
    ensures exact { MatchResult result
        (λ _. book.removable_tablet ended (book.floor_of_table master.now.master table.now stamp) (book.lister_of_tablet master.now.master tablet.now) ≡ None)
        (λ kept. book.removable_tablet ended (book.floor_of_table master.now.master table.now stamp) (book.lister_of_tablet master.now.master tablet.now) ≡ Some (why.refusal_of kept)) }
{
    let floor = floor_of_table(master, table, stamp);
    removable_tablet(ended, floor, lister_of_tablet(master, tablet))
}

/// Why a snapshot stays, if it does.
pub fn judge_snapshot(
    master: &MasterPart,
    snapshot: &SnapshotRecord,
    stamp: HybridTime,
) -> Result<(), Kept>
    ensures exact { MatchResult result
        (λ _. book.removable_snapshot snapshot.now.at (book.floor_of master.now.master snapshot.now.namespace stamp) (book.lister_of_snapshot master.now.master snapshot.now) ≡ None)
        (λ kept. book.removable_snapshot snapshot.now.at (book.floor_of master.now.master snapshot.now.namespace stamp) (book.lister_of_snapshot master.now.master snapshot.now) ≡ Some (why.refusal_of kept)) }
{
    let floor = floor_of(master, &snapshot_namespace(snapshot), stamp);
    removable_snapshot(
        snapshot_time(snapshot),
        floor,
        lister_of_snapshot(master, snapshot),
    )
}

/// Whether a tablet is known as hidden, and retention doesn't need it.
pub fn is_removable_tablet(master: &MasterPart, interval: &Interval, stamp: HybridTime) -> bool
    ensures exact { result ≡ book.is_removable_tablet master.now.master stamp interval.now }
{
    match ended_at(interval) {
        None => false,
        Some(ended) => judge_tablet(
            master,
            &table_of(interval),
            &tablet_of(interval),
            ended,
            stamp,
        )
        .is_ok(),
    }
}

/// Whether a snapshot may go.
pub fn is_removable_snapshot(
    master: &MasterPart,
    snapshot: &SnapshotRecord,
    stamp: HybridTime,
) -> bool
    ensures exact { result ≡ book.is_removable_snapshot master.now.master stamp snapshot.now }
{
    judge_snapshot(master, snapshot, stamp).is_ok()
}

/// Why something stays, as it is told.
pub fn refusal_by(kept: Kept) -> Refusal
    ensures exact { refusal_of result ≡ why.refusal_of kept }
{
    match kept {
        Kept::InWindow { at, floor } => Refusal::InWindow { at, floor },
        Kept::Listed { by } => Refusal::Listed { by },
    }
}

/// The table of a tablet.
pub fn table_of(interval: &Interval) -> Ident
    ensures exact { result ≡ interval.now.table }
{
    interval.table
}

fn ended_at(interval: &Interval) -> Option<HybridTime>
    ensures exact { result ≡ interval.now.to }
{
    interval.to
}
