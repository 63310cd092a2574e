//! The machine of a cluster's parts.
ghost use Rattle.machine_laws.specs.Core.{core_of};
ghost use Rattle.machine_laws.proofs.Lawful.{lawful};
ghost use Rattle.cluster_core.specs.Coding.{coding};

use crate::answer::Answer;
use crate::fault::StepRefused;
use crate::part::ClusterPart;
use crate::prepare::{apply_event, prepare_event};
use crate::ready::EventReady;
use crate::touch::touches;
use cluster_events::Event;
use row_values::{NoMemory, Slots};
use std::alloc::Global;
use std::marker::PhantomData;
use step_table::{Held, Machine};
use versions::VersionStore;

/// Each event does what the book says of it, on the parts that it touches.
pub struct ClusterMachine<V> {
    of: PhantomData<V>,
}

impl<V: VersionStore> Machine for ClusterMachine<V> {
    type Part = ClusterPart<V>;

    type Event = Event;

    type Ready = EventReady<V>;

    type Reply = Answer;

    type Refused = StepRefused;

    ghost core = { core_of coding };

    fn touches(alloc: Global, event: &Event) -> Result<Slots, NoMemory> {
        touches(alloc, event.act())
    }

    fn entries(part: &ClusterPart<V>) -> u64 {
        part.len()
    }

    fn no_memory() -> StepRefused {
        StepRefused::NoMemory
    }

    fn prepare(
        held: &mut Held<ClusterPart<V>>,
        event: &Event,
    ) -> Result<EventReady<V>, StepRefused> {
        prepare_event(held, event)
    }

    fn apply(
        held: &mut Held<ClusterPart<V>>,
        ready: EventReady<V>,
        event: Event,
        number: u64,
    ) -> Answer {
        apply_event(held, ready, event, number)
    }

    ghost lawful = { lawful coding };
}
