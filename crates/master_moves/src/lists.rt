//! The tablets that a record lists next.
ghost use Rattle.std.specs.Prelude.{◌≡◌, IfOk};
ghost use Rattle.model.specs.Moves as book;

use hybrid_time::HybridTime;
use row_values::{NoMemory, Records};
use std::alloc::Global;
use tablet_inbox::{Body, Listed};

/// The tablets are to give up their fences, and keep their history from a time on.
pub(crate) fn released(
    alloc: Global,
    listed: &[Listed],
    cutoff: HybridTime,
) -> Result<Records<Listed>, NoMemory>
    ensures exact { IfOk result (λ found. found ≡ book.released cutoff listed.now) }
{
    let mut found = Records::new(alloc);
    for item in listed {
        found.push(Listed {
            tablet: item.tablet,
            slot: item.slot,
            body: Body::Release { cutoff },
            acked: false,
        })?;
    }
    Ok(found)
}

/// The tablets that took back their rows.
pub(crate) fn brought_back(alloc: Global, listed: &[Listed]) -> Result<Records<Listed>, NoMemory>
    ensures exact { IfOk result (λ found. found ≡ book.brought_back listed.now) }
{
    let mut found = Records::new(alloc);
    for item in listed {
        if is_restore(item) {
            found.push(*item)?;
        }
    }
    Ok(found)
}

// Whether a tablet takes back its rows.
fn is_restore(listed: &Listed) -> bool
    ensures exact { result ≡ book.is_restore listed.now.body }
{
    match listed.body {
        Body::RestoreFrom { .. } => true,
        Body::Fence => false,
        Body::Freeze { .. } => false,
        Body::Hide { .. } => false,
        Body::Copy { .. } => false,
        Body::Release { .. } => false,
    }
}
