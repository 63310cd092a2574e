//! The held part of a slot.
ghost use Rattle.std.specs.Prelude.{◌≡◌, not, ◌≤◌, ◌<◌, true, length, slice_get, Some};
ghost use Rattle.step_table.specs.Lists.{Rising};
ghost use Rattle.step_table.specs.Helds.{slots_of, parts_of};
ghost use Rattle.row_values.specs.Slots.{has};
ghost use Rattle.machine_laws.specs.Laid.{AreKinds};
ghost use Rattle.cluster_core.specs.Held.{laid};

use crate::part::ClusterPart;
use cluster_events::At;
use master_part::MasterPart;
use step_table::Held;
use tablet_part::TabletPart;
use versions::VersionStore;

/// The slot of a place.
pub(crate) fn slot_of(place: &At) -> u32
    ensures slot { result ≡ place.now.slot }
{
    place.slot
}

/// The place of a slot among those held.
fn place_of<V: VersionStore>(held: &Held<ClusterPart<V>>, slot: u32) -> u32
    requires there { has (slots_of held.now) slot ≡ true }
    ensures within { result < length held.now }
    ensures place { slice_get (slots_of held.now) result ≡ Some slot }
{
    for i in 0..held.len() {
        if held.slot(i) == slot {
            return i;
        }
    }
    unreachable!()
}

/// Whether the part of a slot is among those held.
fn is_held<V: VersionStore>(held: &Held<ClusterPart<V>>, slot: u32) -> bool
    ensures exact { result ≡ has (slots_of held.now) slot }
{
    for i in 0..held.len() {
        if held.slot(i) == slot {
            return true;
        }
    }
    false
}

/// Whether it is not.
pub(crate) fn is_absent<V: VersionStore>(held: &Held<ClusterPart<V>>, slot: u32) -> bool
    ensures exact { result ≡ not (has (slots_of held.now) slot) }
{
    !is_held(held, slot)
}

/// The master's part.
pub(crate) fn master_in<V: VersionStore>(held: &Held<ClusterPart<V>>) -> &MasterPart
    requires there { has (slots_of held.now) 0 ≡ true }
    requires rising { Rising (slots_of held.now) }
    requires kinds { AreKinds (slots_of held.now) (parts_of held.now) }
    ensures master { (laid held.now).master ≡ result.now.master }
{
    let i = place_of(held, 0);
    held.part(i).master()
}

/// The tablet's part of a slot.
pub(crate) fn tablet_in<V: VersionStore>(held: &Held<ClusterPart<V>>, slot: u32) -> &TabletPart<V>
    requires there { has (slots_of held.now) slot ≡ true }
    requires tablet { 1 ≤ slot }
    requires rising { Rising (slots_of held.now) }
    requires kinds { AreKinds (slots_of held.now) (parts_of held.now) }
    ensures tablet { (laid held.now).tablet slot ≡ result.now.tablet }
{
    let i = place_of(held, slot);
    held.part(i).tablet()
}
