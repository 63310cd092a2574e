//! Where a key stands last in a list that only grows, and where it stood before that.
//!
//! A table of records that never move, each with a key that never changes, is looked up by it: ending a record is a write at
//! its place, and neither the map nor the links are touched. The newest record of a key is one look-up away, and older ones
//! are found by walking its links back. `OpenLast` of `specs/` says when the newest record of a key is the current one;
//! the lemmas in `proofs/` say what each table needs of it, over any type of records.
#![tactic(auto)]

ghost use Rattle.std.specs.Prelude.{ℕ, ◌≡◌, ◌≤◌, ◌-◌, ◌+◌, List, [], ◌∷◌, ◌++◌, Some, slice_get, take, map, length, OnOk, vec_len, vec_capacity};
ghost use Rattle.indexmap.specs.IndexMap.{spare};
ghost use Rattle.newest_index.specs.Newest.{Indexes, last_place};

mod changing;

pub use changing::{Changes, change};
use indexmap::IndexMap;
use row_values::NoMemory;
use std::alloc::Global;
use std::hash::Hash;

/// By what the records of a list are looked up.
pub trait Keyed<R, K> {
    ghost key: { Self → R → K };

    /// The key of a record.
    fn key(&self, item: &R) -> K
        ensures exact { result ≡ key self.now item.now };
}

/// For each key the place where it stands last, and for each place where its key stood before. It
/// keeps no list of the keys: whoever has the list cites it.
#[derive(Drop)]
pub struct NewestIndex<K: Eq + Hash> {
    pub places: IndexMap<K, usize>,
    pub earlier: Vec<Option<usize>>,
}

impl<K: Eq + Hash + Drop> NewestIndex<K> {
    /// That of the empty list.
    pub fn new(alloc: Global) -> NewestIndex<K>
        ensures { Indexes K.eq result.places result.earlier.items [] }
    {
        NewestIndex {
            places: IndexMap::new(alloc),
            earlier: Vec::new(alloc),
        }
    }

    /// The place where a key stands last.
    pub fn newest(&self, key: &K) -> Option<usize>
        ensures { (keys : List K) → Indexes K.eq self.now.places self.now.earlier.items keys → result ≡ last_place (K.eq key.now) keys }
    {
        self.places.get(key).copied()
    }

    /// Where the key of a place stood last before it.
    pub fn earlier(&self, at: usize) -> Option<usize>
        ensures { (keys : List K) (k : K) → Indexes K.eq self.now.places self.now.earlier.items keys → slice_get keys at ≡ Some k → result ≡ last_place (K.eq k) (take at keys) }
    {
        match self.earlier.get(at) {
            Some(earlier) => *earlier,
            None => None,
        }
    }

    /// Makes room for one more key.
    pub fn prepare(&mut self) -> Result<(), NoMemory>
        ensures places { OnOk result (1 ≤ spare self.new.places) }
        ensures earlier { OnOk result (1 ≤ vec_capacity self.new.earlier - vec_len self.new.earlier) }
        ensures kept { (keys : List K) → Indexes K.eq self.old.places self.old.earlier.items keys → Indexes K.eq self.new.places self.new.earlier.items keys }
    {
        self.places.reserve(1)?;
        self.earlier.reserve(1)?;
        Ok(())
    }

    /// Makes room for so many more keys.
    pub fn prepare_for(&mut self, count: usize) -> Result<(), NoMemory>
        ensures places { OnOk result (count ≤ spare self.new.places) }
        ensures earlier { OnOk result (count ≤ vec_capacity self.new.earlier - vec_len self.new.earlier) }
        ensures kept { (keys : List K) → Indexes K.eq self.old.places self.old.earlier.items keys → Indexes K.eq self.new.places self.new.earlier.items keys }
        ensures places_kept { spare self.old.places ≤ spare self.new.places }
        ensures earlier_kept { vec_capacity self.old.earlier - vec_len self.old.earlier ≤ vec_capacity self.new.earlier - vec_len self.new.earlier }
    {
        self.places.reserve(count)?;
        self.earlier.reserve(count)?;
        Ok(())
    }

    /// Takes in the key that stands next, in the room that was made.
    pub fn note(&mut self, key: K)
        requires places { 1 ≤ spare self.old.places }
        requires earlier { 1 ≤ vec_capacity self.old.earlier - vec_len self.old.earlier }
        ensures noted { (keys : List K) → Indexes K.eq self.old.places self.old.earlier.items keys → Indexes K.eq self.new.places self.new.earlier.items (keys ++ key ∷ []) }
        ensures places_left { spare self.old.places ≤ spare self.new.places + 1 }
        ensures earlier_left { vec_capacity self.old.earlier - vec_len self.old.earlier ≤ vec_capacity self.new.earlier - vec_len self.new.earlier + 1 }
    {
        let at = self.earlier.len();
        let before = self.places.insert(key, at).unwrap();
        self.earlier.push(before).unwrap();
    }

    /// Forgets all keys, and keeps the room that there is.
    pub fn clear(&mut self)
        ensures empty { Indexes K.eq self.new.places self.new.earlier.items [] }
        ensures places { spare self.old.places ≤ spare self.new.places }
        ensures earlier { vec_capacity self.old.earlier - vec_len self.old.earlier ≤ vec_capacity self.new.earlier - vec_len self.new.earlier }
    {
        self.places.clear();
        self.earlier.clear();
    }

    /// Takes in the keys of other records instead, in the room that was made.
    pub fn index_anew<R, W: Keyed<R, K>>(&mut self, records: &[R], keyed: &W)
        requires places { length records.now ≤ spare self.old.places }
        requires earlier { length records.now ≤ vec_capacity self.old.earlier - vec_len self.old.earlier }
        ensures anew { Indexes K.eq self.new.places self.new.earlier.items (map (λ r. W.key keyed.now r) records.now) }
    {
        self.clear();
        for record in records {
            self.note(keyed.key(record));
        }
    }
}

#[cfg(test)]
mod tests {
    use super::NewestIndex;
    use row_values::NoMemory;
    use std::alloc::Global;
    use std::test::Fail;

    fn noted(alloc: Global, keys: &[u64]) -> Result<NewestIndex<u64>, NoMemory> {
        let mut index = NewestIndex::new(alloc);
        for key in keys {
            index.prepare()?;
            index.note(*key);
        }
        Ok(index)
    }

    #[test]
    fn keys_are_found_at_their_newest_place_and_before(rt: HostRuntime) -> Result<(), Fail> {
        let index = noted(rt.alloc(), &[7, 5, 7, 7])?;
        for (key, newest) in [(7u64, Some(3usize)), (5, Some(1)), (6, None)] {
            assert_eq!(rt; index.newest(&key), newest, "key {key}");
        }
        for (place, before) in [
            (3usize, Some(2usize)),
            (2, Some(0)),
            (1, None),
            (0, None),
            (4, None),
        ] {
            assert_eq!(rt; index.earlier(place), before, "place {place}");
        }
        Ok(())
    }
}
