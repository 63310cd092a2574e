//! The parts on their way into the table's slots and out of them.
ghost use Rattle.std.specs.Prelude.{◌≡◌, ◌+◌, ◌<◌, ◌≤◌, ◌^◌, [], ◌∷◌, map, length, replicate, None, Some, IfOk, IfErr, vec_capacity, ℕ, List};
ghost use Rattle.std.specs.Mem.Slots.{slots_items, slots_len, IsFull};
ghost use mathlib.Core.Option.{some};
ghost use lib.ListN.{get_elem?};
ghost use Rattle.step_table.specs.Machines.{logged};

use crate::machine::Machine;
use atomic_table::Closed;
use std::alloc::{AllocError, Global};

/// The number of the entries in all logs.
pub fn count_entries<M: Machine>(parts: &[M::Part]) -> u64
    requires bound { logged M.core (map M.core.meaning parts.now) < 2 ^ 62 }
    ensures count { result ≡ logged M.core (map M.core.meaning parts.now) }
{
    let mut sum = 0;
    for part in parts {
        sum += M::entries(part);
    }
    sum
}

/// The words of a table over these parts: the number of the last entry, and the free locks.
pub(crate) fn words_of<M: Machine>(alloc: Global, parts: &[M::Part]) -> Result<Vec<u64>, AllocError>
    requires bound { logged M.core (map M.core.meaning parts.now) < 2 ^ 62 }
    requires few { length parts.now < 2 ^ 32 }
    ensures words { IfOk result (λ words. words.items ≡ logged M.core (map M.core.meaning parts.now) ∷ replicate (length parts.now) 0) }
{
    let mut words = Vec::from_elem(alloc, 0u64, parts.len() + 1)?;
    words[0] = count_entries::<M>(parts);
    Ok(words)
}

/// So many empty slots.
pub(crate) fn nones<P: Drop>(alloc: Global, count: usize) -> Result<Vec<Option<P>>, AllocError>
    ensures slots { IfOk result (λ slots. slots.items ≡ replicate count None) }
{
    let mut slots = Vec::with_capacity(alloc, count)?;
    for _i in 0..count {
        slots.push(None).unwrap();
    }
    Ok(slots)
}

/// Moves the parts into the slots, and keeps the room.
pub(crate) fn fill<P: Drop>(parts: &mut Vec<P>, slots: &mut Vec<Option<P>>)
    requires slots { slots.old.items ≡ replicate (length parts.old.items) None }
    ensures slots { slots.new.items ≡ map Some parts.old.items }
    ensures room { (parts.new.items ≡ []) × (vec_capacity parts.old ≤ vec_capacity parts.new) }
{
    while let Some(part) = parts.pop() {
        slots[parts.len()] = Some(part);
    }
}

/// Moves the parts out of the slots of a table that was not made, into the room.
pub(crate) fn empty<P: Drop>(slots: Vec<Option<P>>, room: &mut Vec<P>)
    requires room { (room.old.items ≡ []) × (length slots.items ≤ vec_capacity room.old) }
    requires full { (parts : List P) × (slots.items ≡ map Some parts) }
    ensures parts { map Some room.new.items ≡ slots.items }
{
    for slot in slots {
        room.push(slot.unwrap()).unwrap();
    }
}

/// Moves the parts out of the slots of a closed table, into the room.
pub(crate) fn unload<P: Drop>(mut closed: Closed<Option<P>, Global>, room: &mut Vec<P>)
    requires full { IsFull closed.slots }
    requires parts { (k : ℕ) → k < slots_len closed.slots → (p : P) × (get_elem? (slots_items closed.slots) k ≡ some (Some p)) }
    requires room { (room.old.items ≡ []) × (slots_len closed.slots ≤ vec_capacity room.old) }
    ensures parts { map Some room.new.items ≡ slots_items closed.slots }
{
    let count = closed.slot_count();
    for i in 0..count {
        room.push(closed.take(i).unwrap()).unwrap();
    }
    closed.free();
}
