//! An event, prepared and applied on the parts that it touches.
ghost use Rattle.std.specs.Prelude.{◌≡◌, ◌⊎◌, ◌<◌, ℕ, List, map, length, None, Some, IfOk, IfErr, OnOk};
ghost use Rattle.step_table.specs.Helds.{slots_of, parts_of};
ghost use Rattle.model.specs.Times.{end_of_time};
ghost use Rattle.model.specs.Entries.{touches};
ghost use Rattle.machine_laws.specs.Laid.{told_acts};
ghost use Rattle.machine_laws.specs.Core.{core_of, stamp_at, outcome_at, answer_at, first_notes, Fits};
ghost use Rattle.cluster_core.specs.Tellings.{PartTelling, meaning, part_act};
ghost use Rattle.cluster_core.specs.Readies.{AllFit, AllLater, FirstHasRoom, CanApply};
ghost use Rattle.cluster_core.specs.Coding.{coding};

use crate::answer::Answer;
use crate::dispatch::plan;
use crate::fault::StepRefused;
use crate::line_up::line_up;
use crate::part::ClusterPart;
use crate::parts::{apply_all, next_stamp, prepare_all};
use crate::ready::EventReady;
use cluster_events::Event;
use hybrid_time::HybridTime;
use row_values::{Copied, NoMemory};
use std::alloc::Global;
use std::snapshot::Snapshot;
use step_table::{Entry, Held};
use versions::VersionStore;

/// The event with what it does at a stamp. It only reads.
fn planned<V: VersionStore>(
    alloc: Global,
    held: &Held<ClusterPart<V>>,
    event: &Event,
    stamp: HybridTime,
) -> Result<EventReady<V>, NoMemory>
    requires slots { slots_of held.now ≡ touches event.now.act }
    requires fits { Fits (map meaning (parts_of held.now)) event.now }
    requires stamp { stamp ≡ stamp_at (map meaning (parts_of held.now)) event.now }
    requires later { AllLater stamp (parts_of held.now) }
    requires begun { 0 < stamp }
    requires before_end { stamp < end_of_time }
    ensures event { IfOk result (λ r. r.event ≡ event.now) }
    ensures told { IfOk result (λ r. map part_act r.acts ≡ told_acts (outcome_at (map meaning (parts_of held.now)) event.now) (touches event.now.act)) }
    ensures answer { IfOk result (λ r. r.answer ≡ answer_at (map meaning (parts_of held.now)) event.now) }
    ensures fit { IfOk result (λ r. AllFit r.acts r.answer.stamp (parts_of held.now)) }
{
    let plan = plan(alloc, held, event.act(), stamp)?;
    let (master, tablets, reply) = plan.into_parts();
    let acts = line_up(alloc, held, master, tablets)?;
    let kept = Answer {
        stamp,
        reply: reply.copy()?,
    };
    let answer = Answer { stamp, reply };
    Ok(EventReady {
        event: Snapshot::of(event),
        answer,
        kept,
        acts,
    })
}

/// Makes room for one entry in the log of the first part.
fn make_room<V: VersionStore>(held: &mut Held<ClusterPart<V>>) -> Result<(), NoMemory>
    requires some { 0 < length held.old }
    ensures slots { slots_of held.new ≡ slots_of held.old }
    ensures same { map meaning (parts_of held.new) ≡ map meaning (parts_of held.old) }
    ensures fit { (acts : List PartTelling) (n : ℕ) → AllFit acts n (parts_of held.old) → AllFit acts n (parts_of held.new) }
    ensures room { OnOk result (FirstHasRoom (parts_of held.new)) }
{
    held.part_mut(0).make_room()
}

/// Adds an entry to the log of the first part.
fn note<V: VersionStore>(held: &mut Held<ClusterPart<V>>, entry: Entry<Event, Answer>)
    requires room { FirstHasRoom (parts_of held.old) }
    ensures slots { slots_of held.new ≡ slots_of held.old }
    ensures parts { map meaning (parts_of held.new) ≡ first_notes (map meaning (parts_of held.old)) entry }
{
    held.part_mut(0).note(entry);
}

/// Takes all the memory that the event needs.
pub(crate) fn prepare_event<V: VersionStore>(
    held: &mut Held<ClusterPart<V>>,
    event: &Event,
) -> Result<EventReady<V>, StepRefused>
    requires slots { slots_of held.old ≡ touches event.now.act }
    requires fits { Fits (map meaning (parts_of held.old)) event.now }
    ensures slots { slots_of held.new ≡ slots_of held.old }
    ensures meaning { map meaning (parts_of held.new) ≡ map meaning (parts_of held.old) }
    ensures accepted { IfOk result (λ ready. (core_of coding).refusal (map meaning (parts_of held.old)) event.now ≡ None) }
    ensures event { IfOk result (λ ready. ready.event ≡ event.now) }
    ensures ready { IfOk result (λ ready. CanApply (parts_of held.new) ready) }
    ensures refused { IfErr result (λ refused. (refused ≡ (core_of coding).no_memory) ⊎ ((core_of coding).refusal (map meaning (parts_of held.old)) event.now ≡ Some refused)) }
{
    let Ok(stamp) = next_stamp(&*held, event.reading()) else {
        return Err(StepRefused::ClockEnd);
    };
    let first = held.part(0);
    if first.len() >= 1_000_000 {
        let slot = held.slot(0);
        return Err(StepRefused::EventsFull { slot });
    }
    let alloc = first.allocator();
    let Ok(ready) = planned(alloc, held, event, stamp) else {
        return Err(StepRefused::NoMemory);
    };
    let Ok(()) = make_room(held) else {
        return Err(StepRefused::NoMemory);
    };
    let Ok(()) = prepare_all(held, ready.acts(), ready.stamp()) else {
        return Err(StepRefused::NoMemory);
    };
    Ok(ready)
}

/// Performs the prepared event under its number.
pub(crate) fn apply_event<V: VersionStore>(
    held: &mut Held<ClusterPart<V>>,
    ready: EventReady<V>,
    event: Event,
    number: u64,
) -> Answer
    requires ready { CanApply (parts_of held.old) ready }
    requires event { ready.event ≡ event }
    ensures slots { slots_of held.new ≡ slots_of held.old }
    ensures parts { map meaning (parts_of held.new) ≡ (core_of coding).after (map meaning (parts_of held.old)) ready.event number }
    ensures reply { result ≡ answer_at (map meaning (parts_of held.old)) ready.event }
{
    let EventReady {
        event: _,
        answer,
        kept,
        acts,
    } = ready;
    apply_all(held, acts, answer.stamp);
    note(
        held,
        Entry {
            number,
            event,
            reply: kept,
        },
    );
    answer
}
