//! An event, performed: its locks, a look at the history so far, `prepare`, the commit, `apply`.
ghost use Rattle.std.specs.Prelude.{◌≡◌, ◌≢◌, ◌≤◌, ◌<◌, ◌^◌, suc, Some, ℕ, [], length, vec_capacity, IfSome, IfOk, IfErr, OnOk};
ghost use mathlib.Core.List.{IsPrefix};
ghost use Rattle.step_table.specs.Helds.{slots_of};
ghost use Rattle.step_table.specs.Plays.{Knows};
ghost use Rattle.step_table.specs.Seats.{IsOut, IsIdle, IsSame, Performed, Declined};
ghost use Rattle.step_table.specs.Tries.{TryDeclined};

use crate::held::Held;
use crate::machine::Machine;
use crate::named::Announced;
use crate::parts::{give_all, take_all, try_all};
use crate::refused::TryRefused;
use crate::steps::{Place, Top, commit, look};
use row_values::Slots;
use std::alloc::Global;
use std::sync::Wait;

/// The slots that the event touches, and room for their parts.
fn begin<M: Machine>(alloc: Global, event: &M::Event) -> Option<(Slots, Vec<(u32, M::Part)>)>
    requires may { (count : ℕ) × M.core.May count event.now }
    ensures slots { IfSome result (λ begun. begun.0 ≡ M.core.touches event.now) }
    ensures room { IfSome result (λ begun. (begun.1.items ≡ []) × (length begun.0 ≤ vec_capacity begun.1)) }
{
    let Ok(slots) = M::touches(alloc, event) else {
        return None;
    };
    let Ok(held) = Vec::with_capacity(alloc, slots.as_slice().len()) else {
        return None;
    };
    Some((slots, held))
}

/// Performs the event, whose parts are out, and gives all back.
fn finish<M: Machine, N: Announced<M::Event>>(
    top: &Top<M>,
    seat: &mut Place<M>,
    event: M::Event,
    items: Vec<(u32, M::Part)>,
) -> Result<M::Reply, M::Refused>
    requires table { (seat.old.table_id ≡ top.now.table_id) × (top.now.table_id.words ≡ suc top.now.table_id.slots) × (top.now.table_id.slots < 2 ^ 32) }
    requires event { (N.event ≡ Some event) × M.core.May top.now.table_id.slots event × (slots_of items.items ≡ M.core.touches event) }
    requires view { (seat.old.me.0.shares ≢ 0) × IsOut M.core N.event seat.old.me items.items }
    ensures table { (seat.new.table_id ≡ seat.old.table_id) × (seat.new.id ≡ seat.old.id) }
    ensures same { IsSame seat.old.me.0 seat.new.me.0 × (seat.new.me.0.findings ≡ seat.old.me.0.findings) }
    ensures idle { IsIdle seat.new.me × Knows M.core seat.new.me.0 }
    ensures ok { IfOk result (λ reply. Performed M.core event reply seat.old.me.0 seat.new.me.0) }
    ensures err { IfErr result (λ refused. Declined M.core event refused seat.old.me.0 seat.new.me.0) }
{
    look(top, seat);
    let mut held = Held::of(items);
    match M::prepare(&mut held, &event) {
        Err(refused) => {
            give_all(top, seat, held.into_items());
            Err(refused)
        }
        Ok(ready) => {
            let number = commit::<M, N>(top, seat, &event) + 1;
            let reply = M::apply(&mut held, ready, event, number);
            give_all(top, seat, held.into_items());
            Ok(reply)
        }
    }
}

/// Performs an event, and waits for its locks.
pub(crate) fn perform_as<M: Machine, N: Announced<M::Event>, R: Wait>(
    rt: &R,
    alloc: Global,
    top: &Top<M>,
    seat: &mut Place<M>,
    event: M::Event,
) -> Result<M::Reply, M::Refused>
    requires table { (seat.old.table_id ≡ top.now.table_id) × (top.now.table_id.words ≡ suc top.now.table_id.slots) × (top.now.table_id.slots < 2 ^ 32) }
    requires event { (N.event ≡ Some event) × M.core.May top.now.table_id.slots event }
    requires view { (seat.old.me.0.shares ≢ 0) × IsIdle seat.old.me × Knows M.core seat.old.me.0 }
    ensures table { (seat.new.table_id ≡ seat.old.table_id) × (seat.new.id ≡ seat.old.id) }
    ensures same { IsSame seat.old.me.0 seat.new.me.0 }
    ensures idle { IsIdle seat.new.me × Knows M.core seat.new.me.0 }
    ensures findings { IsPrefix seat.old.me.0.findings seat.new.me.0.findings }
    ensures ok { IfOk result (λ reply. Performed M.core event reply seat.old.me.0 seat.new.me.0) }
    ensures err { IfErr result (λ refused. Declined M.core event refused seat.old.me.0 seat.new.me.0) }
{
    let Some((slots, mut held)) = begin::<M>(alloc, &event) else {
        return Err(M::no_memory());
    };
    take_all::<M, N, R>(rt, top, seat, slots.as_slice(), &mut held);
    finish::<M, N>(top, seat, event, held)
}

/// Performs an event, if none of its locks is found taken.
pub(crate) fn try_perform_as<M: Machine, N: Announced<M::Event>>(
    alloc: Global,
    top: &Top<M>,
    seat: &mut Place<M>,
    event: M::Event,
) -> Result<M::Reply, TryRefused<M::Refused>>
    requires table { (seat.old.table_id ≡ top.now.table_id) × (top.now.table_id.words ≡ suc top.now.table_id.slots) × (top.now.table_id.slots < 2 ^ 32) }
    requires event { (N.event ≡ Some event) × M.core.May top.now.table_id.slots event }
    requires view { (seat.old.me.0.shares ≢ 0) × IsIdle seat.old.me × Knows M.core seat.old.me.0 }
    ensures table { (seat.new.table_id ≡ seat.old.table_id) × (seat.new.id ≡ seat.old.id) }
    ensures same { IsSame seat.old.me.0 seat.new.me.0 }
    ensures idle { IsIdle seat.new.me × Knows M.core seat.new.me.0 }
    ensures ok { IfOk result (λ reply. Performed M.core event reply seat.old.me.0 seat.new.me.0) }
    ensures found { OnOk result (seat.new.me.0.findings ≡ seat.old.me.0.findings) }
    ensures err { IfErr result (TryDeclined M.core event seat.old.me.0 seat.new.me.0) }
{
    let Some((slots, mut held)) = begin::<M>(alloc, &event) else {
        return Err(TryRefused::Step(M::no_memory()));
    };
    if let Some(slot) = try_all::<M, N>(top, seat, slots.as_slice(), &mut held) {
        give_all(top, seat, held);
        return Err(TryRefused::Taken { slot });
    }
    match finish::<M, N>(top, seat, event, held) {
        Ok(reply) => Ok(reply),
        Err(refused) => Err(TryRefused::Step(refused)),
    }
}
