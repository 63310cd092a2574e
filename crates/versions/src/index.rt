ghost use Rattle.std.specs.Prelude.{◌≡◌, ◌≤◌, ◌<◌, ◌-◌, ◌++◌, ◌∷◌, [], true, false, None, Some, List, ℕ, ◌&&◌, nat_le, fold, length, map, take, slice_get, max, IfOk, OnOk, OnErr};
ghost use Rattle.std.specs.Option.{IfSome, option_copied};
ghost use Rattle.std.specs.Str.{bytes_eq};
ghost use Rattle.std.specs.BTreeMap.{get};
ghost use Rattle.std.specs.Ordering.{nat_cmp};
ghost use Rattle.std.specs.Cmp.Lexicographic.{slice_cmp};
ghost use Rattle.std.specs.List.Sorted.{IsNonDecreasing, IsPartitionPoint};
ghost use Rattle.row_values.specs.Rows.{applied};
ghost use Rattle.row_values.specs.Store.{Version, read_step, read_of};
ghost use Rattle.versions.specs.Indexed.{IsEntry, Indexes, RiseByKey, bare_entry, chosen, of_key, row_after, row_on, with_found};

use crate::order::version_at;
use crate::version::Version;
use hybrid_time::HybridTime;
use row_values::{Copied, Key, NoMemory, Records, Row, apply};
use std::alloc::Global;
use std::collections::BTreeMap;

/// A version of a key, by its place in the order of writing.
#[derive(Clone, Copy, Debug)]
pub struct Past {
    pub place: usize,
    pub stamp: HybridTime,
}

/// What is kept of a key beside its versions: where they are, the row after each few of them, the row
/// that they leave, and the newest of their stamps, from which on a read gives that row.
#[derive(Debug, Drop)]
pub struct KeyEntry {
    pub past: Records<Past>,
    pub marks: Records<Row>,
    pub row: Row,
    pub newest: HybridTime,
}

/// An entry for each key that has a version.
pub type Index = BTreeMap<Key, KeyEntry>;

/// A row is kept after each so many versions of a key.
const MARKED: usize = 4;

impl KeyEntry {
    // The entry of a key without versions.
    fn bare(alloc: Global) -> KeyEntry
        ensures { result ≡ bare_entry }
    {
        KeyEntry {
            past: Records::new(alloc),
            marks: Records::new(alloc),
            row: Row::absent(alloc),
            newest: HybridTime { value: 0 },
        }
    }

    // Keeps the row where enough versions came since the last that is kept.
    fn mark(&mut self) -> Result<(), NoMemory>
        ensures past { self.new.past ≡ self.old.past }
        ensures row { self.new.row ≡ self.old.row }
        ensures newest { self.new.newest ≡ self.old.newest }
        ensures right { (log : List Version) (key : List ℕ) → IsEntry log key self.old → IsEntry log key self.new }
    {
        let count = self.past.as_slice().len();
        if count % MARKED == 0 && count / MARKED == self.marks.as_slice().len() + 1 {
            self.marks.push(self.row.copy()?)?;
        }
        Ok(())
    }

    // Takes in one more version of the key, of the place that comes next.
    fn note(&mut self, alloc: Global, version: &Version, place: usize) -> Result<(), NoMemory>
        ensures noted { OnOk result ((log : List Version) → length log ≡ place → IsEntry log version.now.key self.old → IsEntry (log ++ version.now ∷ []) version.now.key self.new) }
        ensures kept { OnErr result ((log : List Version) (key : List ℕ) → IsEntry log key self.old → IsEntry log key self.new) }
    {
        self.mark()?;
        let row = apply(alloc, &self.row, &version.op)?;
        self.past.push(Past {
            place,
            stamp: version.stamp,
        })?;
        self.row = row;
        self.newest = self.newest.later_of(version.stamp);
        Ok(())
    }

    // How many versions of the key are stamped at or before a time.
    fn count_until(&self, x: HybridTime) -> usize
        requires { IsNonDecreasing (map (λ p. p.stamp) self.now.past) }
        ensures within { result ≤ length self.now.past }
        ensures point { IsPartitionPoint (λ p. nat_le p.stamp x ≡ true) (λ p. nat_le p.stamp x ≡ false) self.now.past result }
    {
        self.past
            .as_slice()
            .partition_point(|past| past.stamp.number() <= x.number())
    }

    // The row that is kept after this many times so many versions.
    fn marked(&self, times: usize) -> Option<&Row>
        ensures { IfSome result (λ row. (0 < times) × (slice_get self.now.marks (times - 1) ≡ Some row.now)) }
    {
        if times == 0 {
            return None;
        }
        self.marks.get((times - 1) as u64)
    }

    // The row after the first versions of the key, from the last one on after which it is kept.
    fn row_after(&self, alloc: Global, log: &[Version], count: usize) -> Result<Row, NoMemory>
        requires { count ≤ length self.now.past }
        ensures { IfOk result (λ row. (key : List ℕ) → IsEntry log.now key self.now → row ≡ row_after (take count (of_key key log.now))) }
    {
        let times = count / MARKED;
        let past = self.past.as_slice();
        match self.marked(times) {
            Some(row) => row_from(alloc, row, log, &past[times * MARKED..count]),
            None => row_from(alloc, &Row::absent(alloc), log, &past[0..count]),
        }
    }

    // The row of the key at a time.
    fn read(
        &self,
        alloc: Global,
        log: &[Version],
        key: &Key,
        x: HybridTime,
    ) -> Result<Row, NoMemory>
        requires entry { IsEntry log.now key.now self.now }
        requires rise { RiseByKey log.now }
        ensures { IfOk result (λ row. row ≡ read_of log.now key.now x) }
    {
        if self.newest.number() <= x.number() {
            return self.row.copy();
        }
        self.row_after(alloc, log, self.count_until(x))
    }
}

// The row after the version at a place.
fn row_at_place(alloc: Global, row: &Row, log: &[Version], place: usize) -> Result<Row, NoMemory>
    ensures { IfOk result (λ next. (rest : List Version) → row_on next rest ≡ row_on row.now (with_found (slice_get log.now place) rest)) }
{
    match version_at(log, place) {
        Some(version) => apply(alloc, row, &version.op),
        None => row.copy(),
    }
}

// The row after the versions at these places.
fn row_from(alloc: Global, before: &Row, log: &[Version], past: &[Past]) -> Result<Row, NoMemory>
    ensures { IfOk result (λ row. row ≡ row_on before.now (chosen log.now past.now)) }
{
    let Some((first, rest)) = past.split_first() else {
        return before.copy();
    };
    let mut row = row_at_place(alloc, before, log, first.place)?;
    for one in rest {
        row = row_at_place(alloc, &row, log, one.place)?;
    }
    Ok(row)
}

// Takes the first version of a key into the index.
fn note_first(
    alloc: Global,
    index: &mut Index,
    key: &Key,
    version: &Version,
    place: usize,
) -> Result<(), NoMemory>
    requires same { version.now.key ≡ key.now }
    requires absent { None ≡ get (slice_cmp nat_cmp) index.old key.now }
    ensures noted { OnOk result ((log : List Version) → length log ≡ place → Indexes index.old log → Indexes index.new (log ++ version.now ∷ [])) }
    ensures kept { OnErr result ((log : List Version) → Indexes index.old log → Indexes index.new log) }
{
    let mut entry = KeyEntry::bare(alloc);
    entry.note(alloc, version, place)?;
    index.insert(key.copy()?, entry)?;
    Ok(())
}

// Takes the version of a key that is written next into the index.
fn note_key(
    alloc: Global,
    index: &mut Index,
    key: &Key,
    version: &Version,
    place: usize,
) -> Result<(), NoMemory>
    requires { version.now.key ≡ key.now }
    ensures noted { OnOk result ((log : List Version) → length log ≡ place → Indexes index.old log → Indexes index.new (log ++ version.now ∷ [])) }
    ensures kept { OnErr result ((log : List Version) → Indexes index.old log → Indexes index.new log) }
{
    match index.get_mut(key) {
        Some(entry) => match entry.note(alloc, version, place) {
            Ok(()) => Ok(()),
            Err(refused) => Err(refused),
        },
        None => note_first(alloc, index, key, version, place),
    }
}

/// Takes the version that is written next into the index.
pub fn note_version(
    alloc: Global,
    index: &mut Index,
    version: &Version,
    place: usize,
) -> Result<(), NoMemory>
    ensures noted { OnOk result ((log : List Version) → length log ≡ place → Indexes index.old log → Indexes index.new (log ++ version.now ∷ [])) }
    ensures kept { OnErr result ((log : List Version) → Indexes index.old log → Indexes index.new log) }
{
    note_key(alloc, index, &version.key, version, place)
}

/// Whether a read of the key at the time takes the version.
fn is_read(version: &Version, key: &Key, x: HybridTime) -> bool
    ensures { result ≡ (bytes_eq version.now.key key.now && nat_le version.now.stamp x) }
{
    version.key.as_slice() == key.as_slice() && version.stamp.number() <= x.number()
}

// The row after one more version, as far as a read of the key at the time takes it.
fn read_one(
    alloc: Global,
    row: Row,
    version: &Version,
    key: &Key,
    x: HybridTime,
) -> Result<Row, NoMemory>
    ensures { IfOk result (λ next. next ≡ read_step key.now x row version.now) }
{
    if is_read(version, key, x) {
        apply(alloc, &row, &version.op)
    } else {
        Ok(row)
    }
}

/// The row after these versions, in their order, as far as a read of the key at the time takes them.
pub fn read_on(
    alloc: Global,
    before: Row,
    versions: &[Version],
    key: &Key,
    x: HybridTime,
) -> Result<Row, NoMemory>
    ensures { IfOk result (λ row. row ≡ fold (read_step key.now x) before versions.now) }
{
    let mut row = before;
    for version in versions {
        row = read_one(alloc, row, version, key, x)?;
    }
    Ok(row)
}

/// The row of a key at a time, by the index of these versions.
pub fn read_index(
    alloc: Global,
    index: &Index,
    log: &[Version],
    key: &Key,
    x: HybridTime,
) -> Result<Row, NoMemory>
    requires index { Indexes index.now log.now }
    requires rise { RiseByKey log.now }
    ensures { IfOk result (λ row. row ≡ read_of log.now key.now x) }
{
    match index.get(key) {
        Some(entry) => entry.read(alloc, log, key, x),
        None => Ok(Row::absent(alloc)),
    }
}
