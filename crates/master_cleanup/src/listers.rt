//! The unfinished records that list a tablet or name a snapshot. None of these calls takes memory.
ghost use Rattle.std.specs.Prelude.{◌≡◌};
ghost use Rattle.model.specs.Cleanup as book;

use master_part::{MasterPart, snapshot_id};
use snapshot_coord::SnapshotRecord;
use yb_ident::Ident;

/// The first unfinished record that lists a tablet: snapshots, then restorations, then clones, with
/// their sources.
pub fn lister_of_tablet(master: &MasterPart, tablet: &Ident) -> Option<Ident>
    ensures exact { result ≡ book.lister_of_tablet master.now.master tablet.now }
{
    if let Some(snapshot) = master.snapshots().listing(tablet) {
        return Some(snapshot);
    }
    match master.restorations().listing(tablet) {
        Some(restoration) => Some(restoration),
        None => master.clones().listing(tablet),
    }
}

/// The first unfinished record that is a snapshot or names it.
pub fn lister_of_snapshot(master: &MasterPart, snapshot: &SnapshotRecord) -> Option<Ident>
    ensures exact { result ≡ book.lister_of_snapshot master.now.master snapshot.now }
{
    let id = snapshot_id(snapshot);
    if !is_complete(snapshot) {
        return Some(id);
    }
    match master.restorations().naming(&id) {
        Some(restoration) => Some(restoration),
        None => master.clones().naming(&id),
    }
}

fn is_complete(snapshot: &SnapshotRecord) -> bool
    ensures exact { result ≡ snapshot.now.complete }
{
    snapshot.complete
}
