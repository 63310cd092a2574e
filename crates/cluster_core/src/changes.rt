//! What commands come to: what the master decides, told to the held parts.
ghost use Rattle.std.specs.Prelude.{◌≡◌, ◌≤◌, ◌<◌, ◌+◌, [], ℕ, IfOk, map};
ghost use Rattle.row_values.specs.Store.{Below, part_of};
ghost use Rattle.model.specs.Tablets.{Tablet};
ghost use Rattle.model.specs.Acts.{Change};
ghost use Rattle.commands.specs.Seen.{command_of};
ghost use Rattle.step_table.specs.Lists.{Rising};
ghost use Rattle.step_table.specs.Helds.{slots_of, parts_of};
ghost use Rattle.machine_laws.specs.Laid.{AreKinds};
ghost use Rattle.cluster_events.specs.SeenReplies.{reply_of};
ghost use Rattle.master_part.specs.Acts.{act_of, May};
ghost use Rattle.master_part.specs.Decisions.{told_by, outcome_by, MayDo};
ghost use Rattle.tablet_acts.specs.Tellings.{told_of, Suits};
ghost use Rattle.cluster_core.specs.Held.{laid};
ghost use Rattle.cluster_core.specs.Readies.{AllLater};
ghost use Rattle.cluster_core.specs.Plans.{MayPlan, ComesTo, IsPlan, AllSuit};

use crate::held::{is_absent, master_in, tablet_in};
use crate::outcome::EventPlan;
use crate::part::ClusterPart;
use cluster_events::Reply;
use commands::Command;
use hybrid_time::HybridTime;
use master_acts::decide_change;
use master_part::{Decision, MasterAct, PartChange, PartKind};
use partition_codes::Range;
use row_values::{NoMemory, Slots};
use std::alloc::Global;
use step_table::Held;
use tablet_acts::{SlotTold, TabletTold};
use tablet_part::{ReadyStore, TabletPart};
use versions::VersionStore;

/// A command under its plan.
pub(crate) fn plan_change<V: VersionStore>(
    alloc: Global,
    held: &Held<ClusterPart<V>>,
    command: &Command,
    slots: &Slots,
    stamp: HybridTime,
) -> Result<EventPlan<V>, NoMemory>
    requires may { MayPlan (Change (command_of command.now) slots.now) stamp held.now }
    ensures plan { IfOk result (IsPlan (Change (command_of command.now) slots.now) stamp held.now) }
{
    let decision = decide_change(master_in(held), command, slots, stamp)?;
    told_decision(alloc, held, decision, stamp)
}

/// What the held parts are told by what the master decides.
pub(crate) fn told_decision<V: VersionStore>(
    alloc: Global,
    held: &Held<ClusterPart<V>>,
    decision: Decision,
    stamp: HybridTime,
) -> Result<EventPlan<V>, NoMemory>
    requires rising { Rising (slots_of held.now) }
    requires kinds { AreKinds (slots_of held.now) (parts_of held.now) }
    requires later { AllLater stamp (parts_of held.now) }
    requires begun { 0 < stamp }
    requires may { MayDo decision stamp (laid held.now).master }
    ensures plan { IfOk result (ComesTo (outcome_by (laid held.now).tablet decision) stamp held.now) }
{
    match decision {
        Decision::Answers(reply) => Ok(EventPlan::answered(alloc, reply)),
        Decision::Accepts {
            act,
            changes,
            reply,
        } => told_accepted(alloc, held, act, changes.as_slice(), reply, stamp),
    }
}

/// What the held parts are told where a command is accepted.
fn told_accepted<V: VersionStore>(
    alloc: Global,
    held: &Held<ClusterPart<V>>,
    told: MasterAct,
    changes: &[PartChange],
    reply: Reply,
    stamp: HybridTime,
) -> Result<EventPlan<V>, NoMemory>
    requires rising { Rising (slots_of held.now) }
    requires kinds { AreKinds (slots_of held.now) (parts_of held.now) }
    requires later { AllLater stamp (parts_of held.now) }
    requires begun { 0 < stamp }
    requires may { May told stamp (laid held.now).master }
    ensures plan { IfOk result (ComesTo (record { master = act_of told; tablets = map (told_by (laid held.now).tablet) changes.now; reply = reply_of reply }) stamp held.now) }
{
    let tablets = told_changes(alloc, held, changes, stamp)?;
    Ok(EventPlan {
        master: told,
        tablets,
        reply,
    })
}

fn told_changes<V: VersionStore>(
    alloc: Global,
    held: &Held<ClusterPart<V>>,
    changes: &[PartChange],
    stamp: HybridTime,
) -> Result<Vec<SlotTold<V>>, NoMemory>
    requires rising { Rising (slots_of held.now) }
    requires kinds { AreKinds (slots_of held.now) (parts_of held.now) }
    requires later { AllLater stamp (parts_of held.now) }
    requires begun { 0 < stamp }
    ensures told { IfOk result (λ ts. map told_of ts.items ≡ map (told_by (laid held.now).tablet) changes.now) }
    ensures suits { IfOk result (λ ts. (at : ℕ → Tablet) → AllSuit ts.items stamp at) }
{
    let mut told = Vec::new(alloc);
    for change in changes {
        told.push(told_change(alloc, held, change, stamp)?)?;
    }
    Ok(told)
}

/// What the tablet's part of a slot is told. It is at a stamp what suits any tablet.
fn told_change<V: VersionStore>(
    alloc: Global,
    held: &Held<ClusterPart<V>>,
    change: &PartChange,
    stamp: HybridTime,
) -> Result<SlotTold<V>, NoMemory>
    requires rising { Rising (slots_of held.now) }
    requires kinds { AreKinds (slots_of held.now) (parts_of held.now) }
    requires later { AllLater stamp (parts_of held.now) }
    requires begun { 0 < stamp }
    ensures told { IfOk result (λ t. told_of t ≡ told_by (laid held.now).tablet change.now) }
    ensures suits { IfOk result (λ t. (tablet : Tablet) → Suits t.telling stamp tablet) }
{
    let told = match change.kind {
        PartKind::Make {
            tablet,
            table,
            range,
            version,
        } => TabletTold::Make {
            tablet,
            table,
            range,
            version,
            store: ReadyStore::of(TabletPart::prepare_make(alloc, stamp)?),
        },
        PartKind::Child {
            parent,
            tablet,
            table,
            range,
            version,
        } => TabletTold::MakeChild {
            tablet,
            table,
            range,
            version,
            store: child_store(alloc, held, parent, range, stamp)?,
        },
        PartKind::Version { version } => TabletTold::SetVersion { version },
        PartKind::Hide { ended } => TabletTold::Hide { ended },
        PartKind::Offer { command } => TabletTold::Offer { command },
        PartKind::Clear => TabletTold::Clear {
            store: ReadyStore::of(TabletPart::prepare_clear(alloc)?),
        },
        PartKind::DropFrozen { snapshot } => TabletTold::DropFrozen { snapshot },
    };
    Ok(SlotTold::of(change.slot, told))
}

/// The store of a split's child that gets what the part of a slot has in a range: nothing where that part is not held.
fn child_store<V: VersionStore>(
    alloc: Global,
    held: &Held<ClusterPart<V>>,
    parent: u32,
    range: Range,
    stamp: HybridTime,
) -> Result<ReadyStore<V>, NoMemory>
    requires rising { Rising (slots_of held.now) }
    requires kinds { AreKinds (slots_of held.now) (parts_of held.now) }
    requires later { AllLater stamp (parts_of held.now) }
    requires begun { 0 < stamp }
    ensures versions { IfOk result (λ s. s.versions ≡ part_of range.low range.high ((laid held.now).tablet parent).versions) }
    ensures cutoff { IfOk result (λ s. s.cutoff ≡ ((laid held.now).tablet parent).cutoff) }
    ensures below { IfOk result (λ s. Below (stamp + 1) s.versions) }
    ensures past { IfOk result (λ s. s.cutoff ≤ stamp) }
{
    if parent == 0 || is_absent(held, parent) {
        let store = V::empty(alloc, HybridTime { value: 0 })?;
        return Ok(ReadyStore::of(store));
    }
    let store = tablet_in(held, parent).prepare_child(range)?;
    Ok(ReadyStore::of(store))
}
