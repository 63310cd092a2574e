//! What removals find among the records of restorations. None of these calls takes memory.
ghost use Rattle.std.specs.Prelude.{◌≡◌, ◌&&◌, not};
ghost use Rattle.model.specs.Records as book;
ghost use Rattle.model.specs.Cleanup.{listing_restoration, naming_restoration, is_this};
ghost use Rattle.restore_coord.specs.Seen.{state_of};

use crate::list::Restorations;
use crate::record::RestorationRecord;
use crate::state::RestorationState;
use tablet_inbox::lists_tablet;
use yb_ident::Ident;

impl Restorations {
    /// The first unfinished restoration that lists a tablet.
    pub fn listing(&self, tablet: &Ident) -> Option<Ident>
        ensures exact { result ≡ listing_restoration self.now.restorations tablet.now }
    {
        for record in self.records() {
            if lists(record, tablet) {
                return Some(record.id);
            }
        }
        None
    }

    /// The first unfinished restoration that names a snapshot.
    pub fn naming(&self, snapshot: &Ident) -> Option<Ident>
        ensures exact { result ≡ naming_restoration self.now.restorations snapshot.now }
    {
        for record in self.records() {
            if names(record, snapshot) {
                return Some(record.id);
            }
        }
        None
    }
}

impl RestorationState {
    /// Whether it names a snapshot: its own, and later the one that serves its time.
    fn names(&self, snapshot: &Ident) -> bool
        ensures exact { result ≡ is_this snapshot.now (book.named_by_restoration (state_of self.now)) }
    {
        match self {
            RestorationState::Fencing => false,
            RestorationState::Snapshotting { own, .. } => *own == *snapshot,
            RestorationState::Switching { serving, .. } => *serving == *snapshot,
            RestorationState::Restoring { serving, .. } => *serving == *snapshot,
            RestorationState::Releasing { serving, .. } => *serving == *snapshot,
            RestorationState::Restored { serving, .. } => *serving == *snapshot,
        }
    }
}

// Whether a restoration is unfinished and lists a tablet.
fn lists(restoration: &RestorationRecord, tablet: &Ident) -> bool
    ensures exact { result ≡ (not (book.is_restored restoration.now.state) && book.lists_tablet tablet.now restoration.now.listed) }
{
    !restoration.state.is_restored() && lists_tablet(restoration.listed.as_slice(), tablet)
}

// Whether a restoration is unfinished and names a snapshot.
fn names(restoration: &RestorationRecord, snapshot: &Ident) -> bool
    ensures exact { result ≡ (not (book.is_restored restoration.now.state) && is_this snapshot.now (book.named_by_restoration restoration.now.state)) }
{
    !restoration.state.is_restored() && restoration.state.names(snapshot)
}
