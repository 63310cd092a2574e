//! How a clone of a namespace is judged, and the record that it begins with.
ghost use Rattle.std.specs.Prelude.{ℕ, ◌≡◌, ◌<◌, ◌≤◌, ◌+◌, length, IfOk, option_map};
ghost use Rattle.row_values.specs.Ids.{id_bound};
ghost use Rattle.model.specs.Tablets.{Tablet};
ghost use Rattle.model.specs.Parts.{refusal_in};
ghost use Rattle.model.specs.Changes as book;
ghost use Rattle.model.specs.Changed.{sources, new_clone, clone_time};
ghost use Rattle.cluster_events.specs.SeenReplies.{refusal_of};
ghost use Rattle.master_part.specs.Acts.{IsLawful};
ghost use Rattle.master_part.specs.Answers.{answer};
ghost use Rattle.master_part.specs.Decisions.{outcome_by, MayDo};
ghost use Rattle.master_acts.specs.Draws.{DrawsFew};

use crate::found::found_namespace;
use crate::pairs::{by_table_and_range, pair_tables, pair_tablets};
use catalog_tablets::{Interval, tablets_active_at};
use clone_coord::{CloneRecord, CloneState};
use cluster_events::{Refusal, Reply};
use hybrid_time::HybridTime;
use master_part::{Decision, MasterAct, MasterPart};
use row_values::{Copied, Name, NoMemory, Records};
use std::marker::Model;
use yb_ident::Ident;

/// A namespace that may be cloned, to times from the least low end of its schedules' windows on. Contracts see it as
/// the book's.
#[derive(Clone, Copy)]
pub struct CloneSource {
    pub namespace: Ident,
    pub least: HybridTime,
}

impl Model for CloneSource {
    ghost use Rattle.model.specs.Changes.{CloneSource};

    ghost Value = { CloneSource };

    ghost view = { λ s. record { namespace = s.namespace; least = s.least } };

    ghost inverse = { λ v. record { namespace = v.namespace; least = v.least } };
}

/// The namespace that is cloned. It takes no memory.
pub fn found_source(
    master: &MasterPart,
    source: &Name,
    stamp: HybridTime,
) -> Result<CloneSource, Refusal>
    ensures exact { answer result ≡ book.found_source master.now.master source.now stamp }
{
    let found = match found_namespace(master, source) {
        Ok(found) => found,
        Err(why) => return Err(why),
    };
    if let Some(operation) = master.user(&found) {
        return Err(Refusal::Busy { operation });
    }
    match master.schedules().least_low(&found, stamp) {
        Some(least) => Ok(CloneSource {
            namespace: found,
            least,
        }),
        None => Err(Refusal::NoSchedule { namespace: found }),
    }
}

// Why the namespace is not cloned under this name to this time, at which it had these tablets. It takes no memory.
fn clone_fault(
    master: &MasterPart,
    source: CloneSource,
    target: &Name,
    to: HybridTime,
    tablets: &Records<Interval>,
    stamp: HybridTime,
) -> Option<Refusal>
    requires tablets { tablets.now ≡ sources master.now.master source.namespace to }
    requires within { length tablets.now ≤ master.now.master.slots }
    ensures exact { option_map refusal_of result ≡ refusal_in (book.clone_checks source target.now to stamp master.now.master) }
{
    if let Some(by) = master.named(target) {
        return Some(Refusal::NameTaken { by });
    }
    if master.is_full() {
        return Some(Refusal::TooMany { limit: 64 });
    }
    if to.number() < source.least.number() {
        return Some(Refusal::TooEarly { low: source.least });
    }
    if stamp.number() <= to.number() {
        return Some(Refusal::Future { now: stamp });
    }
    let free = master.count_free();
    let needed = count_within(tablets, master.slots());
    if free < needed {
        return Some(Refusal::SlotsFull { free, needed });
    }
    None
}

// How many tablets there are, of no more than so many.
fn count_within(tablets: &Records<Interval>, most: u32) -> u32
    requires within { length tablets.now ≤ most }
    ensures count { result ≡ length tablets.now }
{
    tablets.len() as u32
}

// The tablets of a namespace at a time, in order of table, then of range.
fn source_tablets(
    master: &MasterPart,
    namespace: Ident,
    to: HybridTime,
) -> Result<Records<Interval>, NoMemory>
    ensures exact { IfOk result (λ found. found ≡ sources master.now.master namespace to) }
{
    let active = tablets_active_at(master.catalog(), master.tablets(), namespace, to)?;
    by_table_and_range(master.alloc(), active.as_slice())
}

/// A clone of a namespace under another name, to a time; without one to just before the stamp.
#[tactic(auto, using(crate::proofs::Allowed::few_namespaces, crate::proofs::Cloned::few_clones, crate::proofs::Cloned::few_sources, crate::proofs::Cloned::draws_few, crate::proofs::Cloned::clone_fits), unfolding(model::specs::Changes::clone_namespace))]
pub fn decide_clone(
    master: &MasterPart,
    source: &Name,
    target: &Name,
    at: Option<HybridTime>,
    stamp: HybridTime,
) -> Result<Decision, NoMemory>
    requires lawful { IsLawful master.now.master }
    requires later { master.now.master.clock < stamp }
    ensures plan { IfOk result (λ d. (parts : ℕ → Tablet) → outcome_by parts d ≡ book.clone_namespace source.now target.now at stamp master.now.master) }
    ensures may { IfOk result (λ d. MayDo d stamp master.now.master) }
{
    let found = match found_source(master, source, stamp) {
        Ok(found) => found,
        Err(why) => return Ok(Decision::Answers(Reply::Refused(why))),
    };
    let to = clone_time(at, stamp);
    let tablets = source_tablets(master, found.namespace, to)?;
    if let Some(why) = clone_fault(master, found, target, to, &tablets, stamp) {
        return Ok(Decision::Answers(Reply::Refused(why)));
    }
    let mut ids = Records::new(master.alloc());
    ids.push(master.next_clone())?;
    let made = new_clone(master, found.namespace, source, target, to, &tablets)?;
    Ok(Decision::Accepts {
        act: MasterAct::BeginsClone {
            namespace: found.namespace,
            source: source.copy()?,
            target: target.copy()?,
            to,
            made,
        },
        changes: Records::new(master.alloc()),
        reply: Reply::Ok { made: ids },
    })
}

// The time to which a clone goes.
fn clone_time(at: Option<HybridTime>, stamp: HybridTime) -> HybridTime
    ensures exact { result ≡ clone_time at stamp }
{
    match at {
        Some(to) => to,
        None => stamp.minus(1),
    }
}

// The record of a new clone: names, identifiers and the least free slots are reserved.
fn new_clone(
    master: &MasterPart,
    namespace: Ident,
    source: &Name,
    target: &Name,
    to: HybridTime,
    tablets: &Records<Interval>,
) -> Result<CloneRecord, NoMemory>
    requires namespaces { master.now.master.drawn.namespaces + 1 < id_bound }
    requires clones { master.now.master.drawn.clones + 1 < id_bound }
    requires draws { DrawsFew namespace to master.now.master }
    requires tablets { tablets.now ≡ sources master.now.master namespace to }
    ensures exact { IfOk result (λ made. made ≡ new_clone namespace source.now target.now to master.now.master) }
{
    let drawn = master.drawn();
    let stood = master.catalog().tables_at(master.alloc(), &namespace, to)?;
    let tables = pair_tables(master.alloc(), stood.as_slice(), drawn.tables)?;
    let free = master.free_slots()?;
    let pairs = pair_tablets(
        master.alloc(),
        tablets.as_slice(),
        free.as_slice(),
        drawn.tablets,
        tables.as_slice(),
    )?;
    Ok(CloneRecord {
        id: master.next_clone(),
        source: namespace,
        source_name: source.copy()?,
        target: target.copy()?,
        target_id: master.next_namespace(),
        tables,
        tablets: pairs,
        to,
        listed: Records::new(master.alloc()),
        state: CloneState::Accepted,
    })
}
