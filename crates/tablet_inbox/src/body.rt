ghost use Rattle.std.specs.Prelude.{◌≡◌};
ghost use Rattle.model.specs.Tablets as book;
ghost use Rattle.model.specs.Coordination.{source_slot};
ghost use Rattle.tablet_inbox.specs.Seen.{body_of, kind_seen};

use hybrid_time::HybridTime;
use partition_codes::Range;
use yb_ident::Ident;

/// What a coordinator has a tablet do.
#[derive(Clone, Copy, Debug, PartialEq, Eq)]
pub enum Body {
    /// Neither reads nor writes are taken.
    Fence,
    /// The versions up to a time are kept for a snapshot.
    Freeze {
        snapshot: Ident,
        at: HybridTime,
    },
    /// The rows of a snapshot's set at `to` stand from the point on.
    RestoreFrom {
        snapshot: Ident,
        to: HybridTime,
        point: HybridTime,
        version: u32,
    },
    Hide {
        ended: HybridTime,
    },
    /// The rows at `to` of a snapshot's set of the tablet in the slot `source`.
    Copy {
        source: u32,
        snapshot: Ident,
        to: HybridTime,
        stamp: HybridTime,
        table: Ident,
        range: Range,
        version: u32,
    },
    /// The fence is gone.
    Release {
        cutoff: HybridTime,
    },
}

/// A body without its values.
#[derive(Clone, Copy, Debug, PartialEq, Eq, Hash)]
pub enum BodyKind {
    Fence,
    Freeze,
    RestoreFrom,
    Hide,
    Copy,
    Release,
}

impl Body {
    /// What it has a tablet do, without the values.
    pub fn kind(&self) -> BodyKind
        ensures exact { kind_seen result ≡ book.kind_of (body_of self.now) }
    {
        match self {
            Body::Fence => BodyKind::Fence,
            Body::Freeze { .. } => BodyKind::Freeze,
            Body::RestoreFrom { .. } => BodyKind::RestoreFrom,
            Body::Hide { .. } => BodyKind::Hide,
            Body::Copy { .. } => BodyKind::Copy,
            Body::Release { .. } => BodyKind::Release,
        }
    }

    /// The slot of the tablet whose frozen rows it takes, where it is done in a slot: of a copy its source, else the
    /// tablet's own.
    pub fn source_slot(&self, slot: u32) -> u32
        ensures exact { result ≡ source_slot slot (body_of self.now) }
    {
        match self {
            Body::Copy { source, .. } => *source,
            Body::Fence => slot,
            Body::Freeze { .. } => slot,
            Body::RestoreFrom { .. } => slot,
            Body::Hide { .. } => slot,
            Body::Release { .. } => slot,
        }
    }
}
