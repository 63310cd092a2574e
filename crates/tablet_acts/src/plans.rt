//! What acts on one tablet come to. These calls change nothing.
ghost use Rattle.std.specs.Prelude.{ℕ, ◌≡◌, ◌≤◌, IfOk};
ghost use Rattle.row_values.specs.Batches.{FitsStore};
ghost use Rattle.model.specs.Parts.{Parts};
ghost use Rattle.model.specs.RowActs.{allowed_of, scheduled_at};
ghost use Rattle.model.specs.RowActs as book;
ghost use Rattle.tablet_part.specs.Plans.{alone};
ghost use Rattle.tablet_acts.specs.Tellings.{outcome_of, SuitAt};

use crate::plan::TabletsPlan;
use crate::refused::refusal;
use crate::told::TabletTold;
use cluster_events::{At, Reply};
use hybrid_time::HybridTime;
use row_values::{Batch, Copied, NoMemory, Records};
use std::alloc::Global;
use tablet_part::{ReadyStore, TabletPart};
use versions::VersionStore;

/// A write of a batch into the tablet that is expected in its place.
pub fn write<V: VersionStore>(
    alloc: Global,
    part: &TabletPart<V>,
    place: &At,
    version: u32,
    batch: &Batch,
) -> Result<TabletsPlan<V>, NoMemory>
    requires batch { FitsStore batch.now }
    ensures plan { IfOk result (λ p. (n : ℕ) → outcome_of p ≡ book.write place.now version batch.now n (alone part.now.tablet)) }
    ensures suits { IfOk result (λ p. (n : ℕ) → SuitAt place.now.slot n part.now.tablet p.tablets) }
{
    match part.judge_write(place.slot, place.tablet, version, batch) {
        Err(why) => Ok(TabletsPlan::answered(alloc, Reply::Refused(refusal(why)))),
        Ok(()) => {
            let batch = batch.copy()?;
            let made = Records::new(alloc);
            TabletsPlan::telling(
                alloc,
                place.slot,
                TabletTold::Write { batch },
                Reply::Ok { made },
            )
        }
    }
}

/// A raise of a tablet's cutoff, as far as the master allows at the act's stamp.
#[tactic(auto, using(crate::proofs::Beside::cutoff_beside))]
pub fn cutoff<V: VersionStore>(
    alloc: Global,
    part: &TabletPart<V>,
    slot: u32,
    to: HybridTime,
) -> Result<TabletsPlan<V>, NoMemory>
    ensures plan { IfOk result (λ p. (n : ℕ) (ps : Parts) → ps.tablet slot ≡ part.now.tablet → allowed_of (scheduled_at ps.master slot) n ≡ to → outcome_of p ≡ book.cutoff slot n ps) }
    ensures suits { IfOk result (λ p. (n : ℕ) → to ≤ n → SuitAt slot n part.now.tablet p.tablets) }
{
    match part.judge_cutoff(slot, to) {
        Err(why) => Ok(TabletsPlan::answered(alloc, Reply::Refused(refusal(why)))),
        Ok(raised) => TabletsPlan::telling(
            alloc,
            slot,
            TabletTold::RaiseCutoff { to },
            Reply::CutoffAt(raised),
        ),
    }
}

/// A compaction of the tablet in a slot.
pub fn compact<V: VersionStore>(
    alloc: Global,
    part: &TabletPart<V>,
    slot: u32,
) -> Result<TabletsPlan<V>, NoMemory>
    ensures plan { IfOk result (λ p. (n : ℕ) → outcome_of p ≡ book.compact slot n (alone part.now.tablet)) }
    ensures suits { IfOk result (λ p. (n : ℕ) → SuitAt slot n part.now.tablet p.tablets) }
{
    let store = part.prepare_compact()?;
    match part.judge_compact(slot, &store) {
        Err(why) => Ok(TabletsPlan::answered(alloc, Reply::Refused(refusal(why)))),
        Ok((before, after)) => {
            let store = ReadyStore::of(store);
            TabletsPlan::telling(
                alloc,
                slot,
                TabletTold::Compact { store },
                Reply::Compacted { before, after },
            )
        }
    }
}

/// What the tablet in a slot has.
pub fn stats<V: VersionStore>(alloc: Global, part: &TabletPart<V>, slot: u32) -> TabletsPlan<V>
    ensures plan { (n : ℕ) → outcome_of result ≡ book.stats slot n (alone part.now.tablet) }
    ensures suits { (n : ℕ) → SuitAt slot n part.now.tablet result.tablets }
{
    let reply = match part.counts(slot) {
        None => Reply::Empty,
        Some((cutoff, versions, frozen, inbox)) => Reply::Stats {
            cutoff,
            versions,
            frozen,
            inbox,
        },
    };
    TabletsPlan::answered(alloc, reply)
}
