use hybrid_time::HybridTime;
use yb_ident::Ident;

/// Up to which stamp a prune takes the records of a namespace.
#[derive(Clone, Copy, Debug, PartialEq, Eq)]
pub struct Cut {
    pub namespace: Ident,
    pub to: HybridTime,
}
