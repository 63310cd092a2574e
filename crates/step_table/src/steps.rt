//! The steps on the table, each with what it tells.
ghost use Rattle.std.specs.Prelude.{◌≡◌, ◌≢◌, ◌<◌, ◌≤◌, ◌++◌, ◌∷◌, [], suc, map, Some, None, IfSome, IfNone, ℕ};
ghost use Rattle.step_table.specs.Lists.{fst, snd};
ghost use Rattle.step_table.specs.Plays.{looked, took, holding, finding, IsBusyWith, released, but_last, committed};
ghost use Rattle.step_table.specs.Cuts.{cut_left, cut_right, glued};
ghost use Rattle.step_table.specs.Rule.{Announces, times};
ghost use Rattle.atomic_table.specs.Table.{step, rest};
ghost use Rattle.atomic_table.specs.Seated.{TableId};
ghost use mathlib.Core.Option.{none};

use crate::known::Known;
use crate::machine::{Machine, MachineRule};
use crate::named::Announced;
use crate::plays::{Commit, Cut, Give, Glue, Look, Take};
use atomic_table::{Seat, Shared};
use row_values::Records;
use std::snapshot::Snapshot;

pub(crate) type Top<M: Machine> = Shared<
    Option<M::Part>,
    Known<M::Part, M::Event, M::Reply>,
    Snapshot<Records<M::Part>>,
    MachineRule<M>,
>;

pub(crate) type Place<M: Machine> = Seat<Option<M::Part>, Known<M::Part, M::Event, M::Reply>>;

/// Reads the number of the last entry, and so sees the history so far.
pub(crate) fn look<M: Machine>(top: &Top<M>, seat: &mut Place<M>) -> u64
    requires { (seat.old.table_id ≡ top.now.table_id) × (0 < top.now.table_id.words) × (seat.old.me.0.shares ≢ 0) }
    ensures table { (seat.new.table_id ≡ seat.old.table_id) × (seat.new.id ≡ seat.old.id) }
    ensures told { looked M.core (step top.now.table_id.slots 0 0 0 none) seat.old.me result seat.new.me }
{
    top.load::<Look<M>>(seat, 0)
}

/// Tries the lock of a slot, and moves its part out.
pub(crate) fn take_part<M: Machine, N: Announced<M::Event>>(
    top: &Top<M>,
    seat: &mut Place<M>,
    slot: u32,
) -> Option<M::Part>
    requires table { (seat.old.table_id ≡ top.now.table_id) × (top.now.table_id.words ≡ suc top.now.table_id.slots) × (slot < top.now.table_id.slots) }
    requires view { (seat.old.me.0.shares ≢ 0) × IsBusyWith seat.old.me.0 N.event × Announces M.core N.event slot × (times slot seat.old.me.0.held ≡ 0) }
    ensures table { (seat.new.table_id ≡ seat.old.table_id) × (seat.new.id ≡ seat.old.id) }
    ensures some { IfSome result (λ p. seat.new.me ≡ (holding seat.old.me.0 N.event slot (M.core.meaning p), (slot, None) ∷ seat.old.me.1)) }
    ensures none { IfNone result ((seat.new.me ≡ (finding seat.old.me.0 slot, seat.old.me.1)) × (seat.old.me.0.shares < 4096)) }
{
    let found = top.compare_exchange::<Take<M, N>>(seat, slot as usize + 1, 0, 1);
    if found != 0 {
        return None;
    }
    let part = top.exchange(seat, slot as usize, None).unwrap();
    Some(part)
}

/// Moves a part back, gives its lock back, and wakes a thread that waits for it.
pub(crate) fn give_part<M: Machine>(top: &Top<M>, seat: &mut Place<M>, slot: u32, part: M::Part)
    requires table { (seat.old.table_id ≡ top.now.table_id) × (top.now.table_id.words ≡ suc top.now.table_id.slots) × (slot < top.now.table_id.slots) }
    requires view { (seat.old.me.0.shares ≢ 0) × (seat.old.me.0.held ≡ but_last seat.old.me.0.held ++ (slot, M.core.meaning part) ∷ []) × (seat.old.me.1 ≡ (slot, None) ∷ rest seat.old.me.1) }
    ensures table { (seat.new.table_id ≡ seat.old.table_id) × (seat.new.id ≡ seat.old.id) }
    ensures view { seat.new.me ≡ (released seat.old.me.0, rest seat.old.me.1) }
{
    top.exchange(seat, slot as usize, Some(part));
    top.store::<Give<M>>(seat, slot as usize + 1, 0);
    top.wake_one(slot as usize + 1);
}

/// Adds one to the number of the last entry, at which the event takes effect. It answers the number
/// before.
pub(crate) fn commit<M: Machine, N: Announced<M::Event>>(
    top: &Top<M>,
    seat: &mut Place<M>,
    event: &M::Event,
) -> u64
    requires table { (seat.old.table_id ≡ top.now.table_id) × (0 < top.now.table_id.words) × (seat.old.me.0.shares ≢ 0) }
    requires event { (N.event ≡ Some event.now) × (seat.old.me.0.doing ≡ Some event.now) × (map fst seat.old.me.0.held ≡ M.core.touches event.now) }
    requires may { M.core.May top.now.table_id.slots event.now × (M.core.refusal (map snd seat.old.me.0.held) event.now ≡ None) }
    ensures table { (seat.new.table_id ≡ seat.old.table_id) × (seat.new.id ≡ seat.old.id) }
    ensures told { committed M.core (Some event.now) (step top.now.table_id.slots 0 1 0 none) seat.old.me result seat.new.me }
{
    let _ = event;
    top.fetch_add::<Commit<M, N>>(seat, 0, 1)
}

/// Cuts the view in two. The new seat has one share.
pub(crate) fn cut<M: Machine>(top: &Top<M>, seat: &mut Place<M>) -> Place<M>
    requires { (seat.old.table_id ≡ top.now.table_id) × (0 < top.now.table_id.words) × (2 ≤ seat.old.me.0.shares) }
    ensures table { (seat.new.table_id ≡ seat.old.table_id) × (seat.new.id ≡ seat.old.id) × (result.table_id ≡ seat.old.table_id) }
    ensures view { (seat.new.me ≡ (cut_left seat.old.me.0, seat.old.me.1)) × (result.me ≡ (cut_right seat.old.me.0, [])) }
{
    top.split_seat::<Cut>(seat)
}

/// Joins two views, and sees the history so far, of which both histories are prefixes.
pub(crate) fn glue<M: Machine>(top: &Top<M>, seat: &mut Place<M>, other: Place<M>)
    requires table { (seat.old.table_id ≡ top.now.table_id) × (other.table_id ≡ top.now.table_id) × (0 < top.now.table_id.words) }
    requires view { (seat.old.me.0.shares ≢ 0) × (other.me.0.shares ≢ 0) × (other.me.0.held ≡ []) × (other.me.1 ≡ []) }
    ensures table { (seat.new.table_id ≡ seat.old.table_id) × (seat.new.id ≡ seat.old.id) }
    ensures told { (n : ℕ) × looked M.core (step top.now.table_id.slots 0 0 0 none) (glued seat.old.me.0 other.me.0, seat.old.me.1) n seat.new.me }
{
    top.join_seat::<Glue>(seat, other);
    look(top, seat);
}
