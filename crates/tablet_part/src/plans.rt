//! What an act on one tablet comes to. These calls change nothing.
ghost use Rattle.std.specs.Prelude.{◌≡◌, ◌≤◌, [], ℕ, Some, None, IfOk, MatchResult};
ghost use Rattle.row_values.specs.Store.{kept};
ghost use Rattle.model.specs.Tablets.{Write, RaiseCutoff, Compact};
ghost use Rattle.model.specs.Acts.{At, Ok, CutoffAt, Compacted};
ghost use Rattle.model.specs.Parts.{Master, answered};
ghost use Rattle.model.specs.RowActs.{write, cutoff, compact, stats, rows_in, allowed_of, scheduled_at};
ghost use Rattle.versions.specs.Causes.{RefusedFor};
ghost use Rattle.tablet_part.specs.Plans.{alone, beside, outcome_by, telling, counts_reply};

use crate::part::TabletPart;
use crate::refused::TabletRefused;
use hybrid_time::HybridTime;
use row_values::{Batch, Copied, Key, KeyedRow, Records, Rows};
use versions::{ReadRefused, VersionStore};
use yb_ident::Ident;

/// What a part has: its cutoff, and how many versions, frozen versions and commands of its inbox.
pub type Counts = (HybridTime, u64, u64, u64);

impl<V: VersionStore> TabletPart<V> {
    /// Whether it takes a write that expects this tablet here, under this version of the schema.
    #[tactic(auto, unfolding(model::specs::RowActs::write))]
    pub fn judge_write(
        &self,
        slot: u32,
        tablet: Ident,
        version: u32,
        batch: &Batch,
    ) -> Result<(), TabletRefused>
        ensures plan { (n : ℕ) → write (record { slot = slot; tablet = tablet }) version batch.now n (alone self.now.tablet) ≡ outcome_by (λ _. telling slot (Write batch.now) (Ok [])) result }
    {
        if !self.serves_all(tablet, batch) {
            return Err(TabletRefused::Moved {
                slot,
                standing: self.standing(),
            });
        }
        if let Some(operation) = self.fence() {
            return Err(TabletRefused::Fenced { operation });
        }
        if self.version() != version {
            return Err(TabletRefused::StaleSchema {
                kept: self.version(),
            });
        }
        Ok(())
    }

    /// What raising the cutoff comes to, as far as the master allows: the cutoff after it.
    #[tactic(auto, unfolding(model::specs::RowActs::cutoff))]
    pub fn judge_cutoff(&self, slot: u32, to: HybridTime) -> Result<HybridTime, TabletRefused>
        ensures plan { (m : Master) (n : ℕ) → allowed_of (scheduled_at m slot) n ≡ to → cutoff slot n (beside m self.now.tablet) ≡ outcome_by (λ raised. telling slot (RaiseCutoff to) (CutoffAt raised)) result }
    {
        if self.is_empty() {
            return Err(TabletRefused::Moved {
                slot,
                standing: self.standing(),
            });
        }
        let cutoff = self.cutoff();
        Ok(if cutoff.number() < to.number() {
            to
        } else {
            cutoff
        })
    }

    /// What a compaction comes to, with the store that was prepared for it.
    #[tactic(auto, unfolding(model::specs::RowActs::compact))]
    pub fn judge_compact(&self, slot: u32, store: &V) -> Result<(u64, u64), TabletRefused>
        requires versions { V.versions store.now ≡ kept self.now.tablet.versions self.now.tablet.cutoff }
        ensures plan { (n : ℕ) → compact slot n (alone self.now.tablet) ≡ outcome_by (λ counts. telling slot Compact (Compacted counts.0 counts.1)) result }
    {
        if self.is_empty() {
            return Err(TabletRefused::Moved {
                slot,
                standing: self.standing(),
            });
        }
        Ok((self.len(), store.len()))
    }

    /// What it has; `None` where it has no tablet.
    #[tactic(auto, unfolding(model::specs::RowActs::stats))]
    pub fn counts(&self, slot: u32) -> Option<Counts>
        ensures plan { (n : ℕ) → stats slot n (alone self.now.tablet) ≡ answered (counts_reply result) }
    {
        if self.is_empty() {
            return None;
        }
        Some((
            self.cutoff(),
            self.len(),
            self.frozen_len(),
            self.inbox_len(),
        ))
    }

    /// The present row of a key at a time, if its range has the key.
    pub fn row_of(&self, key: &Key, x: HybridTime) -> Result<Rows, ReadRefused>
        ensures rows { IfOk result (λ rows. rows ≡ rows_in self.now.tablet (Some key.now) x) }
        ensures right { IfOk result (λ _. self.now.tablet.cutoff ≤ x) }
        ensures cause { MatchResult result (λ _. Unit {0}) (RefusedFor x self.now.tablet.cutoff) }
    {
        let row = self.store.read_at(key, x)?;
        let mut rows = Records::new(row.cells.allocator());
        if row.present && self.covers(key) {
            let Ok(key) = key.copy() else {
                return Err(ReadRefused::NoMemory);
            };
            if rows.push(KeyedRow { key, row }).is_err() {
                return Err(ReadRefused::NoMemory);
            }
        }
        Ok(rows)
    }

    /// The present rows of its range at a time, by rising key.
    pub fn rows(&self, x: HybridTime) -> Result<Rows, ReadRefused>
        ensures rows { IfOk result (λ rows. rows ≡ rows_in self.now.tablet None x) }
        ensures right { IfOk result (λ _. self.now.tablet.cutoff ≤ x) }
        ensures cause { MatchResult result (λ _. Unit {0}) (RefusedFor x self.now.tablet.cutoff) }
    {
        let all = self.store.rows_at(x)?;
        let mut inside = Records::new(all.allocator());
        for row in all.into_vec() {
            if self.covers(&row.key) && inside.push(row).is_err() {
                return Err(ReadRefused::NoMemory);
            }
        }
        Ok(inside)
    }
}
