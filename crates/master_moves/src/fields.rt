//! Fields of records, as the book's.
ghost use Rattle.std.specs.Prelude.{◌≡◌};

use clone_coord::CloneRecord;
use hybrid_time::HybridTime;
use restore_coord::RestorationRecord;
use snapshot_coord::SnapshotRecord;
use tablet_inbox::Listed;
use yb_ident::Ident;

pub(crate) fn snapshot_id(snapshot: &SnapshotRecord) -> Ident
    ensures exact { result ≡ snapshot.now.id }
{
    snapshot.id
}

pub(crate) fn restoration_id(restoration: &RestorationRecord) -> Ident
    ensures exact { result ≡ restoration.now.id }
{
    restoration.id
}

pub(crate) fn clone_id(clone: &CloneRecord) -> Ident
    ensures exact { result ≡ clone.now.id }
{
    clone.id
}

pub(crate) fn restoration_namespace(restoration: &RestorationRecord) -> Ident
    ensures exact { result ≡ restoration.now.namespace }
{
    restoration.namespace
}

pub(crate) fn restoration_schedule(restoration: &RestorationRecord) -> Ident
    ensures exact { result ≡ restoration.now.schedule }
{
    restoration.schedule
}

// The time to which a restoration brings its namespace back.
pub(crate) fn restoration_time(restoration: &RestorationRecord) -> HybridTime
    ensures exact { result ≡ restoration.now.to }
{
    restoration.to
}

// The tablets that a snapshot lists.
pub(crate) fn listed_by_snapshot(snapshot: &SnapshotRecord) -> &[Listed]
    ensures exact { result.now ≡ snapshot.now.listed }
{
    snapshot.listed.as_slice()
}

// The tablets that a restoration lists.
pub(crate) fn listed_by_restoration(restoration: &RestorationRecord) -> &[Listed]
    ensures exact { result.now ≡ restoration.now.listed }
{
    restoration.listed.as_slice()
}

// The tablets that a clone lists.
pub(crate) fn listed_by_clone(clone: &CloneRecord) -> &[Listed]
    ensures exact { result.now ≡ clone.now.listed }
{
    clone.listed.as_slice()
}
