ghost use Rattle.std.specs.Prelude.{◌≡◌};
ghost use Rattle.model.specs.Records as book;
ghost use Rattle.restore_coord.specs.Seen.{state_of};

use hybrid_time::HybridTime;
use yb_ident::Ident;

/// How far a restoration is. It knows its point from its own snapshot on, and that snapshot; from the
/// switch's state on it knows the one that serves.
#[derive(Clone, Copy, Debug, PartialEq, Eq)]
pub enum RestorationState {
    Fencing,
    Snapshotting { point: HybridTime, own: Ident },
    Switching { point: HybridTime, serving: Ident },
    Restoring { point: HybridTime, serving: Ident },
    Releasing { point: HybridTime, serving: Ident },
    Restored { point: HybridTime, serving: Ident },
}

impl RestorationState {
    /// Whether the restoration is finished.
    pub fn is_restored(&self) -> bool
        ensures exact { result ≡ book.is_restored (state_of self.now) }
    {
        match self {
            RestorationState::Fencing => false,
            RestorationState::Snapshotting { .. } => false,
            RestorationState::Switching { .. } => false,
            RestorationState::Restoring { .. } => false,
            RestorationState::Releasing { .. } => false,
            RestorationState::Restored { .. } => true,
        }
    }
}
