//! What a table of steps asks of a machine.
ghost use Rattle.std.specs.Prelude.{◌≡◌, ◌⊎◌, ◌≤◌, ◌^◌, ℕ, List, length, map, Some, None, IfOk, IfErr};
ghost use Rattle.step_table.specs.Helds.{slots_of, parts_of};
ghost use Rattle.step_table.specs.Machines.{Core, Lawful};

use crate::held::Held;
use crate::known::Known;
use atomic_table::TableRule;
use row_values::{NoMemory, Records, Slots};
use std::alloc::Global;
use std::marker::PhantomData;
use std::snapshot::Snapshot;

/// A machine of parts. Its `core` says what an event touches, what a step makes of the meanings of
/// the touched parts, and three conditions: `May` on an event, `Legal` on the list of all parts,
/// and `Fits` on the touched parts and an event. What a step gives depends on the touched parts, the
/// event and the number alone, since the core's words are given nothing else.
pub trait Machine {
    type Part: Drop;

    type Event: Drop;

    type Ready: Drop;

    type Reply: Drop;

    type Refused: Drop;

    ghost core: { Core Self.Part Self.Event Self.Ready Self.Reply Self.Refused };

    /// The slots that the event touches: at least one, each once, in rising order.
    fn touches(alloc: Global, event: &Self::Event) -> Result<Slots, NoMemory>
        requires may { (count : ℕ) × core.May count event.now }
        ensures slots { IfOk result (λ slots. slots ≡ core.touches event.now) };

    /// The number of the entries in the part's log. The table's order begins behind those of all
    /// given parts.
    fn entries(part: &Self::Part) -> u64
        ensures count { result ≡ length (core.log (core.meaning part.now)) };

    /// The one refusal that stands for want of memory. It takes none.
    fn no_memory() -> Self::Refused
        ensures refused { result ≡ core.no_memory };

    /// Takes all the memory that the event needs, and leaves what the parts mean as it was. Any
    /// refusal but want of memory is the machine's own.
    fn prepare(
        held: &mut Held<Self::Part>,
        event: &Self::Event,
    ) -> Result<Self::Ready, Self::Refused>
        requires may { (count : ℕ) × core.May count event.now }
        requires slots { slots_of held.old ≡ core.touches event.now }
        requires fits { core.Fits (map core.meaning (parts_of held.old)) event.now }
        ensures slots { slots_of held.new ≡ slots_of held.old }
        ensures meaning { map core.meaning (parts_of held.new) ≡ map core.meaning (parts_of held.old) }
        ensures accepted { IfOk result (λ ready. core.refusal (map core.meaning (parts_of held.old)) event.now ≡ None) }
        ensures event { IfOk result (λ ready. core.event_of ready ≡ event.now) }
        ensures ready { IfOk result (λ ready. core.CanApply (parts_of held.new) ready) }
        ensures refused { IfErr result (λ refused. (refused ≡ core.no_memory) ⊎ (core.refusal (map core.meaning (parts_of held.old)) event.now ≡ Some refused)) };

    /// Performs the prepared event under its number. It can't fail, and takes no memory.
    fn apply(
        held: &mut Held<Self::Part>,
        ready: Self::Ready,
        event: Self::Event,
        number: u64,
    ) -> Self::Reply
        requires ready { core.CanApply (parts_of held.old) ready }
        requires event { core.event_of ready ≡ event }
        requires slots { slots_of held.old ≡ core.touches (core.event_of ready) }
        requires fits { core.Fits (map core.meaning (parts_of held.old)) (core.event_of ready) }
        requires accepted { core.refusal (map core.meaning (parts_of held.old)) (core.event_of ready) ≡ None }
        requires number { number ≤ 2 ^ 62 }
        ensures slots { slots_of held.new ≡ slots_of held.old }
        ensures parts { map core.meaning (parts_of held.new) ≡ core.after (map core.meaning (parts_of held.old)) (core.event_of ready) number }
        ensures reply { result ≡ core.reply (map core.meaning (parts_of held.old)) (core.event_of ready) number };

    ghost lawful: { Lawful core };
}

/// The rule of a table whose slots hold the machine's parts. The table is told the given parts.
pub struct MachineRule<M> {
    of: PhantomData<M>,
}

impl<M: Machine> TableRule<
    Option<M::Part>,
    Known<M::Part, M::Event, M::Reply>,
    Snapshot<Records<M::Part>>,
> for MachineRule<M> {
    ghost use Rattle.std.specs.Prelude.{map};
    ghost use Rattle.step_table.specs.Rule.{Stands, opener};

    ghost holds = { λ key. Stands M.core (map M.core.meaning key.value) };

    ghost first = { λ key. opener (map M.core.meaning key.value) };
}
