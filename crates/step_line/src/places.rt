//! Parts on their way out of their places and back.
ghost use Rattle.std.specs.Prelude.{◌≡◌, ◌≤◌, ◌<◌, ◌^◌, [], map, length, Some, None, IfOk, slice_set, vec_capacity};
ghost use mathlib.Core.Option.{some};
ghost use lib.ListN.{get_elem?};
ghost use Rattle.step_table.specs.Lists.{Every, Rising, pick, put};
ghost use Rattle.step_table.specs.Helds.{slots_of, parts_of};
ghost use Rattle.step_line.specs.Places.{without, IsThere};

use row_values::{NoMemory, Records};

#[tactic(auto, using(crate::proofs::Taken::there_lt))]
fn take_one<P: Drop>(places: &mut Vec<Option<P>>, slot: u32) -> P
    requires there { IsThere places.old.items slot }
    ensures part { get_elem? places.old.items slot ≡ some (Some result) }
    ensures places { places.new.items ≡ slice_set places.old.items slot None }
{
    places[slot as usize].take().unwrap()
}

/// Moves the parts of these slots out of their places.
pub(crate) fn take_out<P: Drop>(
    places: &mut Vec<Option<P>>,
    slots: &[u32],
    held: &mut Vec<(u32, P)>,
)
    requires there { Every (IsThere places.old.items) slots.now }
    requires rising { Rising slots.now }
    requires room { (held.old.items ≡ []) × (length slots.now ≤ vec_capacity held.old) }
    ensures places { places.new.items ≡ without slots.now places.old.items }
    ensures slots { slots_of held.new.items ≡ slots.now }
    ensures parts { map Some (parts_of held.new.items) ≡ pick slots.now places.old.items }
{
    for slot in slots {
        let part = take_one(places, *slot);
        held.push((*slot, part)).unwrap();
    }
}

/// Moves the parts back into their places.
pub(crate) fn give_back<P: Drop>(places: &mut Vec<Option<P>>, held: Vec<(u32, P)>)
    requires within { Every (λ k. k < length places.old.items) (slots_of held.items) }
    ensures places { places.new.items ≡ put (slots_of held.items) (map Some (parts_of held.items)) places.old.items }
{
    for (slot, part) in held {
        places[slot as usize] = Some(part);
    }
}

/// The parts in their places.
pub(crate) fn placed<P: Drop>(parts: Records<P>) -> Result<Vec<Option<P>>, NoMemory>
    ensures places { IfOk result (λ places. places.items ≡ map Some parts) }
{
    let mut places = Vec::new(parts.allocator());
    for part in parts.into_vec() {
        places.push(Some(part))?;
    }
    Ok(places)
}
