//! What acts of a coordinator come to.
ghost use Rattle.std.specs.Prelude.{◌≡◌, ◌≤◌, true, IfOk};
ghost use Rattle.row_values.specs.Slots.{has};
ghost use Rattle.step_table.specs.Lists.{Rising};
ghost use Rattle.step_table.specs.Helds.{slots_of, parts_of};
ghost use Rattle.model.specs.Acts.{Send, Ack, Advance};
ghost use Rattle.model.specs.Coordination.{pending};
ghost use Rattle.machine_laws.specs.Laid.{AreKinds};
ghost use Rattle.master_part.specs.Decisions.{is_marked};
ghost use Rattle.cluster_core.specs.Held.{laid};
ghost use Rattle.cluster_core.specs.Plans.{MayPlan, IsPlan};

use crate::changes::told_decision;
use crate::held::{master_in, tablet_in};
use crate::outcome::EventPlan;
use crate::part::ClusterPart;
use hybrid_time::HybridTime;
use master_moves::{decide_ack, decide_advance, decide_send, pending_mark};
use master_part::MasterPart;
use row_values::NoMemory;
use std::alloc::Global;
use step_table::Held;
use versions::VersionStore;
use yb_ident::Ident;

/// A send of an operation's command to the tablet of a slot.
pub(crate) fn plan_send<V: VersionStore>(
    alloc: Global,
    held: &Held<ClusterPart<V>>,
    operation: &Ident,
    slot: u32,
    stamp: HybridTime,
) -> Result<EventPlan<V>, NoMemory>
    requires may { MayPlan (Send operation.now slot) stamp held.now }
    ensures plan { IfOk result (IsPlan (Send operation.now slot) stamp held.now) }
{
    let decision = decide_send(master_in(held), operation, slot)?;
    told_decision(alloc, held, decision, stamp)
}

/// The master notes that the tablet of a slot did its command of an operation.
pub(crate) fn plan_ack<V: VersionStore>(
    alloc: Global,
    held: &Held<ClusterPart<V>>,
    operation: &Ident,
    slot: u32,
    stamp: HybridTime,
) -> Result<EventPlan<V>, NoMemory>
    requires may { MayPlan (Ack operation.now slot) stamp held.now }
    ensures plan { IfOk result (IsPlan (Ack operation.now slot) stamp held.now) }
{
    let master = master_in(held);
    let marked = has_mark(held, master, operation, slot);
    let decision = decide_ack(master, operation, slot, marked)?;
    told_decision(alloc, held, decision, stamp)
}

/// Whether the tablet of a slot has the mark of the operation's command that is pending there.
fn has_mark<V: VersionStore>(
    held: &Held<ClusterPart<V>>,
    master: &MasterPart,
    operation: &Ident,
    slot: u32,
) -> bool
    requires there { has (slots_of held.now) slot ≡ true }
    requires tablet { 1 ≤ slot }
    requires rising { Rising (slots_of held.now) }
    requires kinds { AreKinds (slots_of held.now) (parts_of held.now) }
    ensures exact { result ≡ is_marked ((laid held.now).tablet slot).done operation.now (pending master.now.master operation.now slot) }
{
    match pending_mark(master, operation, slot) {
        Some(mark) => tablet_in(held, slot).inbox().is_done(mark),
        None => false,
    }
}

/// The record of an operation goes on to its next state.
pub(crate) fn plan_advance<V: VersionStore>(
    alloc: Global,
    held: &Held<ClusterPart<V>>,
    operation: &Ident,
    stamp: HybridTime,
) -> Result<EventPlan<V>, NoMemory>
    requires may { MayPlan (Advance operation.now) stamp held.now }
    ensures plan { IfOk result (IsPlan (Advance operation.now) stamp held.now) }
{
    let decision = decide_advance(master_in(held), operation, stamp)?;
    told_decision(alloc, held, decision, stamp)
}
