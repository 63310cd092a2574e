use hybrid_time::HybridTime;
use tablet_inbox::Standing;
use yb_ident::Ident;

/// Why a tablet's part refuses an act.
#[derive(Clone, Copy, Debug, PartialEq, Eq)]
pub enum TabletRefused {
    /// The slot's part doesn't have what is wanted of it.
    Moved {
        slot: u32,
        standing: Standing,
    },
    /// An operation keeps writes and reads off.
    Fenced {
        operation: Ident,
    },
    /// The schema that the tablet keeps has another version.
    StaleSchema {
        kept: u32,
    },
    /// The asked time is below the cutoff, from which reads are right.
    TooOld {
        asked: HybridTime,
        cutoff: HybridTime,
    },
}
