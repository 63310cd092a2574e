use hybrid_time::HybridTime;
use yb_ident::Ident;

/// Why a hidden tablet or a snapshot stays.
#[derive(Clone, Copy, Debug, PartialEq, Eq)]
pub enum Kept {
    /// Retention needs what ended or was made at `at`, which the floor is not past.
    InWindow { at: HybridTime, floor: HybridTime },
    /// An unfinished record lists or names it.
    Listed { by: Ident },
}
