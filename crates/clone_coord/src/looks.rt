//! What removals find among the records of clones. None of these calls takes memory.
ghost use Rattle.std.specs.Prelude.{◌≡◌, ◌&&◌, ◌||◌, not};
ghost use Rattle.std.specs.List.{list_any};
ghost use Rattle.row_values.specs.Ids.{same};
ghost use Rattle.model.specs.Records as book;
ghost use Rattle.model.specs.Cleanup.{listing_clone, naming_clone, takes_from, is_this};
ghost use Rattle.clone_coord.specs.Seen.{state_of};

use crate::list::Clones;
use crate::record::{CloneRecord, TabletPair};
use crate::state::CloneState;
use tablet_inbox::lists_tablet;
use yb_ident::Ident;

impl Clones {
    /// The first unfinished clone that lists a tablet, or takes rows from it.
    pub fn listing(&self, tablet: &Ident) -> Option<Ident>
        ensures exact { result ≡ listing_clone self.now.clones tablet.now }
    {
        for record in self.records() {
            if needs(record, tablet) {
                return Some(record.id);
            }
        }
        None
    }

    /// The first unfinished clone that names a snapshot.
    pub fn naming(&self, snapshot: &Ident) -> Option<Ident>
        ensures exact { result ≡ naming_clone self.now.clones snapshot.now }
    {
        for record in self.records() {
            if names(record, snapshot) {
                return Some(record.id);
            }
        }
        None
    }
}

impl CloneState {
    /// Whether it names a snapshot: its own, and later the one that serves its time.
    fn names(&self, snapshot: &Ident) -> bool
        ensures exact { result ≡ is_this snapshot.now (book.named_by_clone (state_of self.now)) }
    {
        match self {
            CloneState::Accepted => false,
            CloneState::Snapshotting { own } => *own == *snapshot,
            CloneState::Copying { serving, .. } => *serving == *snapshot,
            CloneState::Releasing { serving, .. } => *serving == *snapshot,
            CloneState::Complete { serving, .. } => *serving == *snapshot,
        }
    }
}

// Whether a clone is unfinished, and lists a tablet or takes rows from it.
fn needs(clone: &CloneRecord, tablet: &Ident) -> bool
    ensures exact { result ≡ (not (book.is_cloned clone.now.state) && (book.lists_tablet tablet.now clone.now.listed || takes_from clone.now tablet.now)) }
{
    !clone.state.is_cloned()
        && (lists_tablet(clone.listed.as_slice(), tablet)
            || has_source(clone.tablets.as_slice(), tablet))
}

fn has_source(pairs: &[TabletPair], tablet: &Ident) -> bool
    ensures exact { result ≡ list_any (λ p. same p.source tablet.now) pairs.now }
{
    for pair in pairs {
        if pair.source == *tablet {
            return true;
        }
    }
    false
}

// Whether a clone is unfinished and names a snapshot.
fn names(clone: &CloneRecord, snapshot: &Ident) -> bool
    ensures exact { result ≡ (not (book.is_cloned clone.now.state) && is_this snapshot.now (book.named_by_clone clone.now.state)) }
{
    !clone.state.is_cloned() && clone.state.names(snapshot)
}
