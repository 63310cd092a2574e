ghost use Rattle.std.specs.Prelude.{ℕ, List, [], length, max, ◌≡◌, ◌≤◌, ◌<◌, IfOk, OnOk, MatchResult};
ghost use Rattle.row_values.specs.Store.{Version, read_of, written, kept, frozen, part_of, rows_at, of_rows, Below};
ghost use Rattle.row_values.specs.Batches.{FitsStore};
ghost use Rattle.law_store.specs.Sorted.{Rising};
ghost use Rattle.versions.specs.Causes.{RefusedFor};
ghost use Rattle.versions.specs.Rows.{FitsRows, present_rows};

use crate::version::Version;
use hybrid_time::HybridTime;
use partition_codes::Range;
use row_values::{Batch, Key, NoMemory, Records, Row, Rows};
use std::alloc::Global;

/// Why a read gives no row.
#[derive(Debug, Drop)]
pub enum ReadRefused {
    /// The asked time is below the cutoff, from which reads are right.
    TooOld {
        asked: HybridTime,
        cutoff: HybridTime,
    },
    NoMemory,
}

/// A store of versions. Contracts see the list of its versions, by key and then in the order of
/// writing, the cutoff from which its reads are right, and the number of versions for which room
/// is kept.
pub trait VersionStore: Drop {
    ghost versions: { Self → List Version };

    ghost cutoff: { Self → ℕ };

    ghost room: { Self → ℕ };

    /// The empty store, whose reads are right from a time on.
    fn empty(alloc: Global, from: HybridTime) -> Result<Self, NoMemory>
        ensures versions { IfOk result (λ s. versions s ≡ []) }
        ensures cutoff { IfOk result (λ s. cutoff s ≡ from) };

    /// A store of present rows, each as one upsert at a stamp, from which on its reads are right.
    fn of_rows(alloc: Global, rows: &Rows, stamp: HybridTime) -> Result<Self, NoMemory>
        requires keys { Rising rows.now }
        requires rows { FitsRows rows.now }
        ensures versions { IfOk result (λ s. versions s ≡ of_rows (present_rows rows.now) stamp) }
        ensures cutoff { IfOk result (λ s. cutoff s ≡ stamp) };

    /// The number of versions.
    fn len(&self) -> u64
        ensures count { result ≡ length (versions self.now) };

    /// The time from which reads are right.
    fn cutoff(&self) -> HybridTime
        ensures cutoff { result ≡ cutoff self.now };

    /// Makes room for the versions of a batch.
    fn prepare_add(&mut self, batch: &Batch) -> Result<(), NoMemory>
        requires batch { FitsStore batch.now }
        ensures versions { versions self.new ≡ versions self.old }
        ensures cutoff { cutoff self.new ≡ cutoff self.old }
        ensures room { OnOk result (length batch.now ≤ room self.new) };

    /// Adds the versions of a batch, in the room that was made, under a stamp above those held.
    fn add(&mut self, batch: Batch, stamp: HybridTime)
        requires batch { FitsStore batch }
        requires room { length batch ≤ room self.old }
        requires above { Below stamp (versions self.old) }
        ensures versions { versions self.new ≡ written (versions self.old) stamp batch }
        ensures cutoff { cutoff self.new ≡ cutoff self.old };

    /// The row of a key at a time.
    fn read_at(&self, key: &Key, x: HybridTime) -> Result<Row, ReadRefused>
        ensures row { IfOk result (λ row. row ≡ read_of (versions self.now) key.now x) }
        ensures right { IfOk result (λ _. cutoff self.now ≤ x) }
        ensures cause { MatchResult result (λ _. Unit {0}) (RefusedFor x (cutoff self.now)) };

    /// The present rows at a time, by rising key.
    fn rows_at(&self, x: HybridTime) -> Result<Rows, ReadRefused>
        ensures rows { IfOk result (λ rows. rows ≡ rows_at (versions self.now) x) }
        ensures right { IfOk result (λ _. cutoff self.now ≤ x) }
        ensures cause { MatchResult result (λ _. Unit {0}) (RefusedFor x (cutoff self.now)) };

    /// All versions, by key and then in the order of writing.
    fn all_versions(&self) -> Result<Records<Version>, NoMemory>
        ensures all { IfOk result (λ all. all ≡ versions self.now) };

    /// Raises the time from which reads are right; a time below it changes nothing.
    fn raise_cutoff(&mut self, to: HybridTime)
        ensures versions { versions self.new ≡ versions self.old }
        ensures cutoff { cutoff self.new ≡ max (cutoff self.old) to }
        ensures room { room self.new ≡ room self.old };

    /// A store of what compaction keeps: for each key the versions after the cutoff, and one upsert
    /// of the row at the cutoff, where it is present.
    fn compacted(&self) -> Result<Self, NoMemory>
        ensures versions { IfOk result (λ s. versions s ≡ kept (versions self.now) (cutoff self.now)) }
        ensures cutoff { IfOk result (λ s. cutoff s ≡ cutoff self.now) };

    /// A store of the versions that are stamped at or before a time.
    fn frozen(&self, at: HybridTime) -> Result<Self, NoMemory>
        ensures versions { IfOk result (λ s. versions s ≡ frozen at (versions self.now)) }
        ensures cutoff { IfOk result (λ s. cutoff s ≡ cutoff self.now) };

    /// A store of the present rows at a time, each as one upsert at a stamp, from which on its reads
    /// are right. From the stamp on it has those rows. The time may be below the cutoff.
    fn restored(&self, to: HybridTime, stamp: HybridTime) -> Result<Self, NoMemory>
        ensures versions { IfOk result (λ s. versions s ≡ of_rows (rows_at (versions self.now) to) stamp) }
        ensures cutoff { IfOk result (λ s. cutoff s ≡ stamp) }
        ensures rows { IfOk result (λ s. rows_at (versions s) stamp ≡ rows_at (versions self.now) to) };

    /// A store of the versions whose partition code is in a range.
    fn part_of(&self, range: Range) -> Result<Self, NoMemory>
        ensures versions { IfOk result (λ s. versions s ≡ part_of range.low range.high (versions self.now)) }
        ensures cutoff { IfOk result (λ s. cutoff s ≡ cutoff self.now) };
}
