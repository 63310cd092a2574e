//! What removals and prunes come to.
ghost use Rattle.std.specs.Prelude.{ℕ, List, ◌≡◌, ◌≤◌, ◌∷◌, Some, IfOk};
ghost use Rattle.row_values.specs.Slots.{rising};
ghost use Rattle.step_table.specs.Lists.{Rising};
ghost use Rattle.step_table.specs.Helds.{slots_of, parts_of};
ghost use Rattle.model.specs.Acts.{Remove, Prune};
ghost use Rattle.machine_laws.specs.Laid.{AreKinds};
ghost use Rattle.master_part.specs.Acts.{IsLawful};
ghost use Rattle.master_cleanup.specs.Seen.{slot_of_removal, IsSeen};
ghost use Rattle.cluster_core.specs.Held.{laid};
ghost use Rattle.cluster_core.specs.Plans.{MayPlan, IsPlan};

use crate::changes::told_decision;
use crate::held::{is_absent, master_in, tablet_in};
use crate::outcome::EventPlan;
use crate::part::ClusterPart;
use hybrid_time::HybridTime;
use master_cleanup::{decide_prune, decide_remove, removal_slot};
use master_part::MasterPart;
use row_values::{NoMemory, Slots};
use std::alloc::Global;
use step_table::Held;
use tablet_inbox::Standing;
use versions::VersionStore;
use yb_ident::Ident;

/// A tablet or a snapshot goes, where retention doesn't need it.
pub(crate) fn plan_remove<V: VersionStore>(
    alloc: Global,
    held: &Held<ClusterPart<V>>,
    target: &Ident,
    slots: &Slots,
    stamp: HybridTime,
) -> Result<EventPlan<V>, NoMemory>
    requires may { MayPlan (Remove target.now slots.now) stamp held.now }
    ensures plan { IfOk result (IsPlan (Remove target.now slots.now) stamp held.now) }
{
    let master = master_in(held);
    let seen = seen_of(held, master, target);
    let decision = decide_remove(master, target, slots, seen, stamp)?;
    told_decision(alloc, held, decision, stamp)
}

/// What the part in the slot of a tablet that is to go says of itself; nothing where it is not held.
fn seen_of<V: VersionStore>(
    held: &Held<ClusterPart<V>>,
    master: &MasterPart,
    target: &Ident,
) -> Option<Standing>
    requires rising { Rising (slots_of held.now) }
    requires kinds { AreKinds (slots_of held.now) (parts_of held.now) }
    requires lawful { IsLawful master.now.master }
    ensures seen { (slots : List ℕ) → slots_of held.now ≡ rising (0 ∷ slots) → IsSeen result (slot_of_removal master.now.master target.now) slots (laid held.now).tablet }
{
    match removal_slot(master, target) {
        Some(slot) => standing_in(held, slot),
        None => None,
    }
}

/// What the tablet's part of a slot says of itself, if it is held.
fn standing_in<V: VersionStore>(held: &Held<ClusterPart<V>>, slot: u32) -> Option<Standing>
    requires tablet { 1 ≤ slot }
    requires rising { Rising (slots_of held.now) }
    requires kinds { AreKinds (slots_of held.now) (parts_of held.now) }
    ensures seen { (slots : List ℕ) → slots_of held.now ≡ rising (0 ∷ slots) → IsSeen result (Some slot) slots (laid held.now).tablet }
{
    if is_absent(held, slot) {
        return None;
    }
    Some(tablet_in(held, slot).standing())
}

/// The catalog's old records go.
pub(crate) fn plan_prune<V: VersionStore>(
    alloc: Global,
    held: &Held<ClusterPart<V>>,
    stamp: HybridTime,
) -> Result<EventPlan<V>, NoMemory>
    requires may { MayPlan Prune stamp held.now }
    ensures plan { IfOk result (IsPlan Prune stamp held.now) }
{
    let decision = decide_prune(master_in(held), stamp)?;
    told_decision(alloc, held, decision, stamp)
}
