//! What tablets' parts get, one as the other.
ghost use Rattle.std.specs.Prelude.{ℕ, ◌≡◌, IfOk, map};
ghost use Rattle.model.specs.Tablets.{Tablet};
ghost use Rattle.model.specs.Changes.{tell};
ghost use Rattle.master_part.specs.Decisions.{act_by, told_by};

use crate::change::{PartChange, PartKind};
use row_values::{NoMemory, Records};
use std::alloc::Global;

/// All these slots' parts get the same.
pub fn told_all(
    alloc: Global,
    slots: &[u32],
    kind: &PartKind,
) -> Result<Records<PartChange>, NoMemory>
    ensures exact { IfOk result (λ made. (parts : ℕ → Tablet) → map (told_by parts) made ≡ tell slots.now (act_by parts kind.now)) }
{
    let mut made = Records::new(alloc);
    for slot in slots {
        made.push(PartChange {
            slot: *slot,
            kind: *kind,
        })?;
    }
    Ok(made)
}
