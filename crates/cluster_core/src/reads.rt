//! What a read of rows comes to, by what the parts of its places have.
ghost use Rattle.std.specs.Prelude.{◌≡◌, ◌<◌, [], All, option_map, IfOk};
ghost use Rattle.step_table.specs.Lists.{Rising};
ghost use Rattle.step_table.specs.Helds.{slots_of, parts_of};
ghost use Rattle.row_values.specs.Elements.{in_order};
ghost use Rattle.model.specs.Times.{time_of, is_below};
ghost use Rattle.model.specs.Acts.{Read};
ghost use Rattle.model.specs.Parts.{refusal_in};
ghost use Rattle.model.specs.RowActs as book;
ghost use Rattle.cluster_events.specs.SeenReplies.{refusal_of};
ghost use Rattle.machine_laws.specs.Laid.{AreKinds};
ghost use Rattle.tablet_acts.specs.Tellings.{outcome_of};
ghost use Rattle.cluster_core.specs.Held.{laid};
ghost use Rattle.cluster_core.specs.Readies.{AllLater};
ghost use Rattle.cluster_core.specs.Plans.{MayPlan, IsPlan};
ghost use Rattle.cluster_core.specs.Reads.{tablets_in, IsHeld, MayRead, read_checks, comes_before};

use crate::held::{slot_of, tablet_in};
use crate::outcome::EventPlan;
use crate::part::ClusterPart;
use crate::rows::{add_rows, cut_rows};
use cluster_events::{At, Refusal, Reply};
use hybrid_time::HybridTime;
use row_values::{Key, NoMemory, Records, Rows, Slots};
use std::alloc::Global;
use step_table::Held;
use tablet_acts::TabletsPlan;
use tablet_part::TabletPart;
use versions::{ReadRefused, VersionStore};
use yb_ident::Ident;

/// The part of a place.
fn part_at<'a, V: VersionStore>(held: &'a Held<ClusterPart<V>>, place: &At) -> &'a TabletPart<V>
    requires rising { Rising (slots_of held.now) }
    requires kinds { AreKinds (slots_of held.now) (parts_of held.now) }
    requires held { IsHeld (slots_of held.now) place.now }
    ensures tablet { tablets_in held.now place.now.slot ≡ result.now.tablet }
{
    tablet_in(held, slot_of(place))
}

fn wanted_of(place: &At) -> Ident
    ensures tablet { result ≡ place.now.tablet }
{
    place.tablet
}

/// The slot's part doesn't have what is wanted of it.
fn moved<V: VersionStore>(part: &TabletPart<V>, slot: u32) -> Refusal
    ensures exact { refusal_of result ≡ book.has_moved slot part.now.tablet }
{
    Refusal::Moved {
        slot,
        standing: part.standing(),
    }
}

/// The refusal of the first place that doesn't serve its tablet, or hasn't the key.
fn moved_from_key<V: VersionStore>(
    held: &Held<ClusterPart<V>>,
    places: &[At],
    key: &Key,
) -> Option<Refusal>
    requires rising { Rising (slots_of held.now) }
    requires kinds { AreKinds (slots_of held.now) (parts_of held.now) }
    requires held { All (IsHeld (slots_of held.now)) places.now }
    ensures exact { option_map refusal_of result ≡ book.moved_from_key places.now key.now (tablets_in held.now) }
{
    for place in places {
        let part = part_at(held, place);
        if !(part.serves(wanted_of(place)) && part.covers(key)) {
            return Some(moved(part, slot_of(place)));
        }
    }
    None
}

/// The refusal of the first place of a scan that doesn't go on where the one before it ends.
#[tactic(auto, using(crate::proofs::Reading::last_left))]
fn moved_from_scan<V: VersionStore>(held: &Held<ClusterPart<V>>, places: &[At]) -> Option<Refusal>
    requires rising { Rising (slots_of held.now) }
    requires kinds { AreKinds (slots_of held.now) (parts_of held.now) }
    requires held { All (IsHeld (slots_of held.now)) places.now }
    ensures exact { option_map refusal_of result ≡ book.moved_from_scan places.now 0 (tablets_in held.now) }
{
    let mut from = 0;
    for i in 0..places.len() {
        let place = &places[i];
        let part = part_at(held, place);
        if !part.goes_on(from, i + 1 == places.len(), wanted_of(place)) {
            return Some(moved(part, slot_of(place)));
        }
        from = part.high();
    }
    None
}

fn first_moved<V: VersionStore>(
    held: &Held<ClusterPart<V>>,
    places: &[At],
    key: &Option<Key>,
) -> Option<Refusal>
    requires rising { Rising (slots_of held.now) }
    requires kinds { AreKinds (slots_of held.now) (parts_of held.now) }
    requires held { All (IsHeld (slots_of held.now)) places.now }
    ensures exact { option_map refusal_of result ≡ book.first_moved key.now places.now (tablets_in held.now) }
{
    match key {
        None => moved_from_scan(held, places),
        Some(key) => moved_from_key(held, places, key),
    }
}

/// The first fence.
fn first_fence<V: VersionStore>(held: &Held<ClusterPart<V>>, places: &[At]) -> Option<Ident>
    requires rising { Rising (slots_of held.now) }
    requires kinds { AreKinds (slots_of held.now) (parts_of held.now) }
    requires held { All (IsHeld (slots_of held.now)) places.now }
    ensures exact { result ≡ book.first_fence places.now (tablets_in held.now) }
{
    for place in places {
        if let Some(operation) = part_at(held, place).fence() {
            return Some(operation);
        }
    }
    None
}

/// The first version of a schema that isn't this one.
fn other_version<V: VersionStore>(
    held: &Held<ClusterPart<V>>,
    places: &[At],
    version: u32,
) -> Option<u32>
    requires rising { Rising (slots_of held.now) }
    requires kinds { AreKinds (slots_of held.now) (parts_of held.now) }
    requires held { All (IsHeld (slots_of held.now)) places.now }
    ensures exact { result ≡ book.other_version places.now version (tablets_in held.now) }
{
    for place in places {
        let kept = part_at(held, place).version();
        if kept != version {
            return Some(kept);
        }
    }
    None
}

/// Whether a time before this one is asked.
fn is_below(at: &Option<HybridTime>, low: HybridTime) -> bool
    ensures exact { result ≡ is_below at.now low }
{
    match at {
        None => false,
        Some(x) => x.number() < low.number(),
    }
}

/// The first cutoff that is after the asked time.
fn first_cutoff<V: VersionStore>(
    held: &Held<ClusterPart<V>>,
    places: &[At],
    at: &Option<HybridTime>,
) -> Option<HybridTime>
    requires rising { Rising (slots_of held.now) }
    requires kinds { AreKinds (slots_of held.now) (parts_of held.now) }
    requires held { All (IsHeld (slots_of held.now)) places.now }
    ensures exact { result ≡ book.first_cutoff places.now at.now (tablets_in held.now) }
{
    for place in places {
        let cutoff = part_at(held, place).cutoff();
        if is_below(at, cutoff) {
            return Some(cutoff);
        }
    }
    None
}

/// The first refusal of a read that comes.
#[tactic(auto, using(crate::proofs::Reading::no_cutoff))]
fn read_refusal<V: VersionStore>(
    held: &Held<ClusterPart<V>>,
    places: &[At],
    version: u32,
    key: &Option<Key>,
    at: &Option<HybridTime>,
    stamp: HybridTime,
) -> Option<Refusal>
    requires rising { Rising (slots_of held.now) }
    requires kinds { AreKinds (slots_of held.now) (parts_of held.now) }
    requires held { All (IsHeld (slots_of held.now)) places.now }
    ensures exact { option_map refusal_of result ≡ refusal_in (read_checks places.now version key.now at.now stamp (tablets_in held.now)) }
{
    if let Some(why) = first_moved(held, places, key) {
        return Some(why);
    }
    if let Some(operation) = first_fence(held, places) {
        return Some(Refusal::Fenced { operation });
    }
    let Some(x) = at else {
        return match other_version(held, places, version) {
            None => None,
            Some(kept) => Some(Refusal::StaleSchema { kept }),
        };
    };
    if stamp.number() <= x.number() {
        return Some(Refusal::Future { now: stamp });
    }
    match first_cutoff(held, places, at) {
        None => None,
        Some(cutoff) => Some(Refusal::TooOld { asked: *x, cutoff }),
    }
}

/// The asked time, or the stamp where none is asked.
fn time_of(at: &Option<HybridTime>, stamp: HybridTime) -> HybridTime
    ensures exact { result ≡ time_of at.now stamp }
{
    match at {
        None => stamp,
        Some(x) => *x,
    }
}

/// The asked rows of a place.
#[tactic(auto, using(crate::proofs::Reading::in_time))]
fn rows_at<V: VersionStore>(
    held: &Held<ClusterPart<V>>,
    place: &At,
    key: &Option<Key>,
    at: &Option<HybridTime>,
    stamp: HybridTime,
) -> Result<Rows, NoMemory>
    requires rising { Rising (slots_of held.now) }
    requires kinds { AreKinds (slots_of held.now) (parts_of held.now) }
    requires held { IsHeld (slots_of held.now) place.now }
    requires right { MayRead at.now stamp (tablets_in held.now place.now.slot) }
    ensures rows { IfOk result (λ rows. rows ≡ book.rows_in (tablets_in held.now place.now.slot) key.now (time_of at.now stamp)) }
{
    let part = part_at(held, place);
    let _cutoff = part.cutoff();
    let x = time_of(at, stamp);
    let found = match key {
        None => part.rows(x),
        Some(key) => part.row_of(key, x),
    };
    match found {
        Ok(rows) => Ok(rows),
        Err(ReadRefused::NoMemory) => Err(NoMemory),
        Err(ReadRefused::TooOld { .. }) => unreachable!(),
    }
}

/// The asked rows of the places, by key.
fn rows_of_places<V: VersionStore>(
    alloc: Global,
    held: &Held<ClusterPart<V>>,
    places: &[At],
    key: &Option<Key>,
    at: &Option<HybridTime>,
    stamp: HybridTime,
) -> Result<Rows, NoMemory>
    requires rising { Rising (slots_of held.now) }
    requires kinds { AreKinds (slots_of held.now) (parts_of held.now) }
    requires held { All (IsHeld (slots_of held.now)) places.now }
    requires right { All (λ place. MayRead at.now stamp (tablets_in held.now place.slot)) places.now }
    ensures rows { IfOk result (λ rows. rows ≡ in_order comes_before (book.rows_of_places places.now key.now (time_of at.now stamp) (tablets_in held.now))) }
{
    let mut rows = Records::new(alloc);
    let mut upto = places.len();
    'places: while upto > 0 {
        upto -= 1;
        let more = rows_at(held, &places[upto], key, at, stamp)?;
        add_rows(&mut rows, more)?;
    }
    Ok(rows)
}

/// A read of all rows of places or of a key's, at a time or at the stamp.
#[tactic(auto, using(crate::proofs::Reading::may_read, crate::proofs::Reading::read_refused, crate::proofs::Reading::read_done))]
fn read<V: VersionStore>(
    alloc: Global,
    held: &Held<ClusterPart<V>>,
    places: &[At],
    version: u32,
    key: &Option<Key>,
    at: &Option<HybridTime>,
    columns: &Slots,
    stamp: HybridTime,
) -> Result<TabletsPlan<V>, NoMemory>
    requires rising { Rising (slots_of held.now) }
    requires kinds { AreKinds (slots_of held.now) (parts_of held.now) }
    requires held { All (IsHeld (slots_of held.now)) places.now }
    requires later { AllLater stamp (parts_of held.now) }
    requires begun { 0 < stamp }
    ensures outcome { IfOk result (λ p. outcome_of p ≡ book.read places.now version key.now at.now columns.now stamp (laid held.now)) }
    ensures none { IfOk result (λ p. p.tablets ≡ []) }
{
    if let Some(why) = read_refusal(held, places, version, key, at, stamp) {
        return Ok(TabletsPlan::answered(alloc, Reply::Refused(why)));
    }
    let rows = rows_of_places(alloc, held, places, key, at, stamp)?;
    let shown = cut_rows(alloc, rows.as_slice(), columns.as_slice())?;
    Ok(TabletsPlan::answered(alloc, Reply::Rows(shown)))
}

/// A read of rows.
pub(crate) fn plan_read<V: VersionStore>(
    alloc: Global,
    held: &Held<ClusterPart<V>>,
    places: &Records<At>,
    version: u32,
    key: &Option<Key>,
    at: &Option<HybridTime>,
    columns: &Slots,
    stamp: HybridTime,
) -> Result<EventPlan<V>, NoMemory>
    requires may { MayPlan (Read places.now version key.now at.now columns.now) stamp held.now }
    ensures plan { IfOk result (IsPlan (Read places.now version key.now at.now columns.now) stamp held.now) }
{
    let plan = read(
        alloc,
        held,
        places.as_slice(),
        version,
        key,
        at,
        columns,
        stamp,
    )?;
    Ok(EventPlan::of_tablets(plan))
}
