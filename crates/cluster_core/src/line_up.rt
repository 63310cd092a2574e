//! What each held part is told.
ghost use Rattle.std.specs.Prelude.{◌≡◌, ◌≢◌, ◌≤◌, ◌++◌, ◌∷◌, [], ℕ, drop, ◌==◌, if◌then◌else◌, IfOk};
ghost use Rattle.step_table.specs.Lists.{Rising};
ghost use Rattle.step_table.specs.Helds.{slots_of};
ghost use Rattle.tablet_acts.specs.Seen.{telling_of};
ghost use Rattle.master_part.specs.declared.act.MasterAct.{MasterAct};
ghost use Rattle.cluster_core.specs.Tellings.{TellMaster};
ghost use Rattle.cluster_core.specs.SeenTold.{part_telling, tellings_of};
ghost use Rattle.cluster_core.specs.Plans.{telling_for, tell_all, masters_in};

use crate::part::{ClusterPart, PartTold};
use master_part::MasterAct;
use row_values::NoMemory;
use std::alloc::Global;
use step_table::Held;
use tablet_acts::{SlotTold, TabletTold};
use versions::VersionStore;

/// What the tablet's part of a slot is told, moved out.
fn take_act<V: VersionStore>(tablets: &mut Vec<SlotTold<V>>, slot: u32) -> TabletTold<V>
    ensures told { telling_of result ≡ telling_for tablets.old.items slot }
    ensures others { (k : ℕ) → k ≢ slot → telling_for tablets.new.items k ≡ telling_for tablets.old.items k }
{
    for i in 0..tablets.len() {
        if tablets[i].slot() == slot {
            let clock = SlotTold::of(slot, TabletTold::Clock);
            return std::mem::replace(&mut tablets[i], clock).into_told();
        }
    }
    TabletTold::Clock
}

/// How many of the held parts are the master's.
fn masters_in<V: VersionStore>(held: &Held<ClusterPart<V>>) -> u32
    ensures exact { result ≡ masters_in (slots_of held.now) }
{
    if held.len() > 0 && held.slot(0) == 0 {
        return 1;
    }
    0
}

/// What the master is told, where its part is held.
fn master_told<V: VersionStore>(
    alloc: Global,
    count: u32,
    masters: u32,
    master: MasterAct,
) -> Result<Vec<PartTold<V>>, NoMemory>
    ensures told { IfOk result (λ acts. tellings_of acts.items ≡ if masters == 0 then [] else TellMaster master ∷ []) }
{
    let mut acts = Vec::with_capacity(alloc, count as usize)?;
    if masters == 0 {
        return Ok(acts);
    }
    acts.push(PartTold::Master(master))?;
    Ok(acts)
}

/// The same with what the tablets' parts are told, of the held slots from a place on.
fn tablets_told<V: VersionStore>(
    held: &Held<ClusterPart<V>>,
    first: u32,
    tablets: Vec<SlotTold<V>>,
    acts: Vec<PartTold<V>>,
) -> Result<Vec<PartTold<V>>, NoMemory>
    requires rising { Rising (slots_of held.now) }
    requires behind { masters_in (slots_of held.now) ≤ first }
    ensures told { IfOk result (λ all. (master : MasterAct) → tellings_of all.items ≡ tellings_of acts.items ++ tell_all master tablets.items (drop first (slots_of held.now))) }
{
    let mut tablets = tablets;
    let mut acts = acts;
    for i in first..held.len() {
        acts.push(PartTold::Tablet(take_act(&mut tablets, held.slot(i))))?;
    }
    Ok(acts)
}

/// What each of the held parts is told, moved out of a plan. The slots rise, so that the master's part
/// is the first where it is held.
pub(crate) fn line_up<V: VersionStore>(
    alloc: Global,
    held: &Held<ClusterPart<V>>,
    master: MasterAct,
    tablets: Vec<SlotTold<V>>,
) -> Result<Vec<PartTold<V>>, NoMemory>
    requires rising { Rising (slots_of held.now) }
    ensures told { IfOk result (λ acts. tellings_of acts.items ≡ tell_all master tablets.items (slots_of held.now)) }
{
    let masters = masters_in(held);
    let acts = master_told(alloc, held.len(), masters, master)?;
    tablets_told(held, masters, tablets, acts)
}
