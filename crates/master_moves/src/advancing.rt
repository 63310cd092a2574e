//! What an advance comes to, by the kind of the operation.
ghost use Rattle.std.specs.Prelude.{◌≡◌, ◌<◌, IfOk};
ghost use Rattle.model.specs.Times.{end_of_time};
ghost use Rattle.model.specs.Parts.{Parts};
ghost use Rattle.model.specs.Moves.{advance};
ghost use Rattle.master_part.specs.Acts.{IsLawful};
ghost use Rattle.master_part.specs.Decisions.{outcome_by, MayDo};

use crate::cloning::decide_advance_clone;
use crate::coordinating::{decide_advance_snapshot, not_pending};
use crate::restoring::decide_advance_restoration;
use hybrid_time::HybridTime;
use master_part::{Decision, MasterPart};
use row_values::NoMemory;
use yb_ident::{Ident, Kind};

/// The record of an operation goes on to its next state. Only snapshots, restorations and clones have records.
#[tactic(auto, unfolding(model::specs::Moves::advance))]
pub fn decide_advance(
    master: &MasterPart,
    operation: &Ident,
    stamp: HybridTime,
) -> Result<Decision, NoMemory>
    requires lawful { IsLawful master.now.master }
    requires later { master.now.master.clock < stamp }
    requires before_end { stamp < end_of_time }
    ensures plan { IfOk result (λ d. (ps : Parts) → ps.master ≡ master.now.master → outcome_by ps.tablet d ≡ advance operation.now stamp ps) }
    ensures may { IfOk result (λ d. MayDo d stamp master.now.master) }
{
    match operation.kind {
        Kind::Snapshot => decide_advance_snapshot(master, operation),
        Kind::Restoration => decide_advance_restoration(master, operation, stamp),
        Kind::Clone => decide_advance_clone(master, operation, stamp),
        Kind::Namespace => Ok(not_pending(operation)),
        Kind::Table => Ok(not_pending(operation)),
        Kind::Tablet => Ok(not_pending(operation)),
        Kind::Schedule => Ok(not_pending(operation)),
    }
}
