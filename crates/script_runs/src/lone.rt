//! Which events touch one slot alone: their readings lag as its do.
ghost use Rattle.std.specs.Prelude.{◌≡◌, [], ◌∷◌, map};
ghost use Rattle.model.specs.Entries.{touches};
ghost use Rattle.cluster_events.specs.SeenActs.{act_of};
ghost use Rattle.script_runs.specs.Lone.{are_all, lone_among, lone_in, only};

use cluster_events::{Act, At};

fn slot_of(place: &At) -> u32
    ensures slot { result ≡ place.now.slot }
{
    place.slot
}

/// Whether all these slots are this one.
fn are_all(slot: u32, others: &[u32]) -> bool
    ensures exact { result ≡ are_all slot others.now }
{
    for other in others {
        if *other != slot {
            return false;
        }
    }
    true
}

/// The one slot of which all these are, where it is one.
fn lone_among(slot: u32, others: &[u32]) -> Option<u32>
    ensures exact { result ≡ lone_among slot others.now }
{
    if are_all(slot, others) {
        Some(slot)
    } else {
        None
    }
}

/// Whether all these places are in this slot.
fn are_in(slot: u32, places: &[At]) -> bool
    ensures exact { result ≡ are_all slot (map (λ place. place.slot) places.now) }
{
    for place in places {
        if slot_of(place) != slot {
            return false;
        }
    }
    true
}

/// The one slot in which all these places are, where it is one.
fn lone_place(places: &[At]) -> Option<u32>
    ensures exact { result ≡ lone_in (map (λ place. place.slot) places.now) }
{
    match places {
        [] => None,
        [first, rest @ ..] => {
            let slot = slot_of(first);
            if are_in(slot, rest) { Some(slot) } else { None }
        }
    }
}

/// The slot that an act touches alone, if it does.
#[tactic(auto, using(crate::proofs::Rising::only_among, crate::proofs::Rising::only_in))]
pub(crate) fn lone_slot(act: &Act) -> Option<u32>
    ensures exact { result ≡ only (touches (act_of act.now)) }
{
    match act {
        Act::Look(_) => Some(0),
        Act::Change { slots, .. } => lone_among(0, slots.as_slice()),
        Act::Write { place, .. } => Some(slot_of(place)),
        Act::Read { places, .. } => lone_place(places.as_slice()),
        Act::Cutoff { slot } => lone_among(0, &[*slot]),
        Act::Compact { slot } => Some(*slot),
        Act::Send { slot, .. } => lone_among(0, &[*slot]),
        Act::Process { slot, other } => lone_among(*slot, &[*other]),
        Act::Ack { slot, .. } => lone_among(0, &[*slot]),
        Act::Advance { .. } => Some(0),
        Act::Remove { slots, .. } => lone_among(0, slots.as_slice()),
        Act::Prune => Some(0),
        Act::Restart { slot } => Some(*slot),
        Act::Stats { slot } => Some(*slot),
    }
}
