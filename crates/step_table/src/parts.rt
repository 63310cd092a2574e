//! All parts that an event touches, taken in rising order of their slots and given back last first.
ghost use Rattle.std.specs.Prelude.{◌≡◌, ◌≢◌, ◌≤◌, ◌<◌, suc, map, length, take, IfSome, IfNone, Some, None, List, ℕ, [], ◌∷◌, ◌++◌, vec_len, vec_capacity};
ghost use mathlib.Core.List.{IsPrefix};
ghost use Rattle.step_table.specs.Lists.{Every, Rising, In};
ghost use Rattle.step_table.specs.Helds.{slots_of};
ghost use Rattle.step_table.specs.Plays.{IsBusyWith};
ghost use Rattle.step_table.specs.Seats.{IsAlike, IsOut, HasTaken, HasOut, IsBack};
ghost use Rattle.step_table.specs.Rule.{Announces, times};

use crate::machine::Machine;
use crate::named::Announced;
use crate::steps::{Place, Top, give_part, take_part};
use std::sync::Wait;

/// Waits for the lock of a slot, and moves its part out.
fn wait_part<M: Machine, N: Announced<M::Event>, R: Wait>(
    rt: &R,
    top: &Top<M>,
    seat: &mut Place<M>,
    slot: u32,
) -> M::Part
    requires table { (seat.old.table_id ≡ top.now.table_id) × (top.now.table_id.words ≡ suc top.now.table_id.slots) × (slot < top.now.table_id.slots) }
    requires view { (seat.old.me.0.shares ≢ 0) × IsBusyWith seat.old.me.0 N.event × Announces M.core N.event slot × (times slot seat.old.me.0.held ≡ 0) }
    ensures table { (seat.new.table_id ≡ seat.old.table_id) × (seat.new.id ≡ seat.old.id) }
    ensures taken { HasTaken N.event slot (M.core.meaning result) seat.old.me seat.new.me }
{
    for _ in rt.forever() {
        if let Some(part) = take_part::<M, N>(top, seat, slot) {
            return part;
        }
        top.park(rt, slot as usize + 1, 1);
    }
    unreachable!()
}

/// Takes the locks of all slots in their order, and moves their parts out.
pub(crate) fn take_all<M: Machine, N: Announced<M::Event>, R: Wait>(
    rt: &R,
    top: &Top<M>,
    seat: &mut Place<M>,
    slots: &[u32],
    held: &mut Vec<(u32, M::Part)>,
)
    requires table { (seat.old.table_id ≡ top.now.table_id) × (top.now.table_id.words ≡ suc top.now.table_id.slots) }
    requires slots { Every (λ k. k < top.now.table_id.slots) slots.now × Rising slots.now × Every (Announces M.core N.event) slots.now }
    requires room { (held.old.items ≡ []) × (length slots.now ≤ vec_capacity held.old) }
    requires view { (seat.old.me.0.shares ≢ 0) × (seat.old.me.0.held ≡ []) × (seat.old.me.1 ≡ []) }
    ensures table { (seat.new.table_id ≡ seat.old.table_id) × (seat.new.id ≡ seat.old.id) }
    ensures alike { IsAlike seat.old.me.0 seat.new.me.0 }
    ensures findings { IsPrefix seat.old.me.0.findings seat.new.me.0.findings }
    ensures out { IsOut M.core N.event seat.new.me held.new.items × (slots_of held.new.items ≡ slots.now) }
{
    for &slot in slots {
        let part = wait_part::<M, N, R>(rt, top, seat, slot);
        held.push((slot, part)).unwrap();
    }
}

/// Moves all parts back, the last first, and gives their locks back.
pub(crate) fn give_all<M: Machine>(top: &Top<M>, seat: &mut Place<M>, mut held: Vec<(u32, M::Part)>)
    requires table { (seat.old.table_id ≡ top.now.table_id) × (top.now.table_id.words ≡ suc top.now.table_id.slots) }
    requires slots { Every (λ k. k < top.now.table_id.slots) (slots_of held.items) }
    requires view { (seat.old.me.0.shares ≢ 0) × HasOut M.core seat.old.me held.items }
    ensures table { (seat.new.table_id ≡ seat.old.table_id) × (seat.new.id ≡ seat.old.id) }
    ensures back { IsBack seat.old.me seat.new.me × (seat.new.me.0.held ≡ []) × (seat.new.me.1 ≡ []) }
{
    while let Some((slot, part)) = held.pop() {
        give_part(top, seat, slot, part);
    }
}

/// Tries the locks of all slots in their order, and moves their parts out. It stops at a lock that
/// is taken, and answers its slot.
pub(crate) fn try_all<M: Machine, N: Announced<M::Event>>(
    top: &Top<M>,
    seat: &mut Place<M>,
    slots: &[u32],
    held: &mut Vec<(u32, M::Part)>,
) -> Option<u32>
    requires table { (seat.old.table_id ≡ top.now.table_id) × (top.now.table_id.words ≡ suc top.now.table_id.slots) }
    requires slots { Every (λ k. k < top.now.table_id.slots) slots.now × Rising slots.now × Every (Announces M.core N.event) slots.now }
    requires room { (held.old.items ≡ []) × (length slots.now ≤ vec_capacity held.old) }
    requires view { (seat.old.me.0.shares ≢ 0) × (seat.old.me.0.held ≡ []) × (seat.old.me.1 ≡ []) }
    ensures table { (seat.new.table_id ≡ seat.old.table_id) × (seat.new.id ≡ seat.old.id) }
    ensures alike { IsAlike seat.old.me.0 seat.new.me.0 }
    ensures out { IsOut M.core N.event seat.new.me held.new.items × Every (λ k. k < top.now.table_id.slots) (slots_of held.new.items) }
    ensures none { IfNone result ((slots_of held.new.items ≡ slots.now) × (seat.new.me.0.findings ≡ seat.old.me.0.findings)) }
    ensures some { IfSome result (λ k. (seat.new.me.0.findings ≡ seat.old.me.0.findings ++ k ∷ []) × (seat.old.me.0.shares < 4096) × In k slots.now) }
{
    for &slot in slots {
        let Some(part) = take_part::<M, N>(top, seat, slot) else {
            return Some(slot);
        };
        held.push((slot, part)).unwrap();
    }
    None
}
