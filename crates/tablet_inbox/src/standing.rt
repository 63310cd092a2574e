use hybrid_time::HybridTime;
use yb_ident::Ident;

/// What a part says of itself where it is asked for a tablet that it doesn't serve.
#[derive(Clone, Copy, Debug, PartialEq, Eq)]
pub enum Standing {
    Empty,
    Serving {
        tablet: Option<Ident>,
        low: u32,
        high: u32,
    },
    Hidden {
        tablet: Option<Ident>,
        ended: HybridTime,
    },
}
