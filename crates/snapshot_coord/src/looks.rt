//! What moves, restores and removals find among the records of snapshots. None of these calls takes
//! memory.
ghost use Rattle.std.specs.Prelude.{◌≡◌, ◌&&◌, nat_le, not};
ghost use Rattle.std.specs.Option.{option_copied};
ghost use Rattle.row_values.specs.Ids.{same};
ghost use Rattle.model.specs.Records.{lists_tablet};
ghost use Rattle.model.specs.Moves.{is_complete};
ghost use Rattle.model.specs.Schedules.{serving};
ghost use Rattle.model.specs.Cleanup.{listing_snapshot};

use crate::list::Snapshots;
use crate::record::SnapshotRecord;
use hybrid_time::HybridTime;
use tablet_inbox::lists_tablet;
use yb_ident::Ident;

impl Snapshots {
    /// Whether a snapshot is complete.
    pub fn is_complete(&self, id: &Ident) -> bool
        ensures exact { result ≡ is_complete self.now.snapshots id.now }
    {
        for record in self.records() {
            if record.id == *id && record.complete {
                return true;
            }
        }
        false
    }

    /// The snapshot of a namespace that serves a time: the first complete one at or after it.
    pub fn serving(&self, namespace: &Ident, to: HybridTime) -> Option<&SnapshotRecord>
        ensures exact { option_copied result ≡ serving self.now.snapshots namespace.now to }
    {
        for record in self.records() {
            if serves(record, namespace, to) {
                return Some(record);
            }
        }
        None
    }

    /// The first unfinished snapshot that lists a tablet.
    pub fn listing(&self, tablet: &Ident) -> Option<Ident>
        ensures exact { result ≡ listing_snapshot self.now.snapshots tablet.now }
    {
        for record in self.records() {
            if lists(record, tablet) {
                return Some(record.id);
            }
        }
        None
    }
}

// Whether a snapshot is a complete one of a namespace at or after a time.
fn serves(snapshot: &SnapshotRecord, namespace: &Ident, to: HybridTime) -> bool
    ensures exact { result ≡ ((same snapshot.now.namespace namespace.now && snapshot.now.complete) && nat_le to snapshot.now.at) }
{
    snapshot.namespace == *namespace && snapshot.complete && to.number() <= snapshot.at.number()
}

// Whether a snapshot is unfinished and lists a tablet.
fn lists(snapshot: &SnapshotRecord, tablet: &Ident) -> bool
    ensures exact { result ≡ (not snapshot.now.complete && lists_tablet tablet.now snapshot.now.listed) }
{
    !snapshot.complete && lists_tablet(snapshot.listed.as_slice(), tablet)
}
