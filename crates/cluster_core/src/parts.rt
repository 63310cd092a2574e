//! The held parts, prepared for what they are told, and changed.
ghost use Rattle.std.specs.Prelude.{◌≡◌, ◌≤◌, ◌<◌, ◌^◌, ℕ, max, map, length, IfOk, OnOk, MatchResult};
ghost use Rattle.step_table.specs.Helds.{slots_of, parts_of};
ghost use Rattle.row_values.specs.Stamps as rule;
ghost use Rattle.machine_laws.specs.Laid.{all_after};
ghost use Rattle.cluster_core.specs.Tellings.{clock_in, meaning, part_act};
ghost use Rattle.cluster_core.specs.SeenTold.{tellings_of};
ghost use Rattle.cluster_core.specs.Readies.{AllFit, AllCan, AllLater, FirstHasRoom};

use crate::part::{ClusterPart, PartTold};
use hybrid_time::{ClockEnd, HybridTime};
use row_values::NoMemory;
use step_table::Held;
use versions::VersionStore;

fn greater(a: u64, b: u64) -> u64
    ensures exact { result ≡ max a b }
{
    a.max(b)
}

/// The stamp of an event on these parts.
pub(crate) fn next_stamp<V: VersionStore>(
    held: &Held<ClusterPart<V>>,
    reading: u64,
) -> Result<HybridTime, ClockEnd>
    requires reading { reading < 2 ^ 50 }
    ensures stamp { MatchResult result
        (λ t. t ≡ rule.stamp_of 0 (map clock_in (parts_of held.now)) reading)
        (λ _. 2 ^ 62 ≤ rule.stamp_of 0 (map clock_in (parts_of held.now)) reading) }
    ensures below { IfOk result (λ t. t < 2 ^ 62) }
{
    let mut greatest = 0;
    for i in 0..held.len() {
        greatest = greater(greatest, held.part(i).clock().number());
    }
    let stamp = greater(1 + greatest, reading * 4096);
    if stamp >= 1 << 62 {
        return Err(ClockEnd);
    }
    Ok(HybridTime { value: stamp })
}

/// Makes each part ready for what it is told.
#[tactic(auto, using(crate::proofs::Loops::first_preparing, crate::proofs::Loops::all_prepared))]
pub(crate) fn prepare_all<V: VersionStore>(
    held: &mut Held<ClusterPart<V>>,
    acts: &[PartTold<V>],
    stamp: HybridTime,
) -> Result<(), NoMemory>
    requires fit { AllFit (tellings_of acts.now) stamp (parts_of held.old) }
    ensures slots { slots_of held.new ≡ slots_of held.old }
    ensures same { map meaning (parts_of held.new) ≡ map meaning (parts_of held.old) }
    ensures first { FirstHasRoom (parts_of held.old) → FirstHasRoom (parts_of held.new) }
    ensures can { OnOk result (AllCan (tellings_of acts.now) stamp (parts_of held.new)) }
{
    let _count = held.len();
    let mut i = 0;
    for act in acts {
        held.part_mut(i).prepare(act)?;
        i += 1;
    }
    Ok(())
}

/// Each part does what it is told.
#[tactic(auto, using(crate::proofs::Loops::first_applying, crate::proofs::Loops::all_applied))]
pub(crate) fn apply_all<V: VersionStore>(
    held: &mut Held<ClusterPart<V>>,
    acts: Vec<PartTold<V>>,
    stamp: HybridTime,
)
    requires can { AllCan (tellings_of acts.items) stamp (parts_of held.old) }
    requires later { AllLater stamp (parts_of held.old) }
    ensures slots { slots_of held.new ≡ slots_of held.old }
    ensures parts { map meaning (parts_of held.new) ≡ all_after (map part_act (tellings_of acts.items)) stamp (map meaning (parts_of held.old)) }
    ensures first { FirstHasRoom (parts_of held.old) → FirstHasRoom (parts_of held.new) }
{
    let _count = held.len();
    let mut i = 0;
    for act in acts {
        held.part_mut(i).apply(act, stamp);
        i += 1;
    }
}
