use hybrid_time::HybridTime;

/// Whether a part has a tablet, and whether that one is hidden.
#[derive(Clone, Copy, Debug, PartialEq, Eq)]
pub enum Presence {
    Empty,
    Serving,
    /// Hidden at this stamp.
    Hidden { ended: HybridTime },
}
