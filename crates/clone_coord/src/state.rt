ghost use Rattle.std.specs.Prelude.{◌≡◌};
ghost use Rattle.model.specs.Records as book;
ghost use Rattle.clone_coord.specs.Seen.{state_of};

use hybrid_time::HybridTime;
use yb_ident::Ident;

/// How far a clone is. It knows its own snapshot, and from the copies on the one that serves, and the
/// stamp from which its targets have their rows.
#[derive(Clone, Copy, Debug, PartialEq, Eq)]
pub enum CloneState {
    Accepted,
    Snapshotting {
        own: Ident,
    },
    Copying {
        serving: Ident,
        copied_at: HybridTime,
    },
    Releasing {
        serving: Ident,
        copied_at: HybridTime,
    },
    Complete {
        serving: Ident,
        copied_at: HybridTime,
    },
}

impl CloneState {
    /// Whether the clone is finished.
    pub fn is_cloned(&self) -> bool
        ensures exact { result ≡ book.is_cloned (state_of self.now) }
    {
        match self {
            CloneState::Accepted => false,
            CloneState::Snapshotting { .. } => false,
            CloneState::Copying { .. } => false,
            CloneState::Releasing { .. } => false,
            CloneState::Complete { .. } => true,
        }
    }

    /// Whether the clone's target is current.
    pub fn is_visible(&self) -> bool
        ensures exact { result ≡ book.is_visible (state_of self.now) }
    {
        match self {
            CloneState::Accepted => false,
            CloneState::Snapshotting { .. } => false,
            CloneState::Copying { .. } => false,
            CloneState::Releasing { .. } => true,
            CloneState::Complete { .. } => true,
        }
    }
}
