ghost use Rattle.std.specs.Prelude.{◌≡◌, ◌+◌, List, Some, None, map, min, length, nat_lt, if◌then◌else◌};
ghost use Rattle.std.specs.List.{find, filter};
ghost use Rattle.newest_index.specs.Newest.{Indexes};
ghost use Rattle.kept_records.specs.Gathered.{present_of, kept_key, one_more};

use crate::records::{Gathers, Kept, gather};
use newest_index::NewestIndex;
use std::hash::Hash;

// Finds the first of the records.
#[derive(Drop)]
struct Finds;

impl<R: Copy + Drop> Gathers<R, Option<R>> for Finds {
    ghost step = { λ _ r _. Some r };

    fn step(&self, item: &R, _later: Option<R>) -> Option<R> {
        Some(*item)
    }
}

// Counts the records, up to a number.
#[derive(Drop)]
struct Counts {
    most: usize,
}

impl<R> Gathers<R, usize> for Counts {
    ghost step = { λ w _ later. one_more w.most later };

    fn step(&self, _item: &R, later: usize) -> usize {
        if later < self.most { later + 1 } else { later }
    }
}

/// The first record of a key.
pub fn first<K: Eq + Hash + Drop, R: Copy + Drop>(
    index: &NewestIndex<K>,
    key: &K,
    records: &[Kept<R>],
) -> Option<R>
    ensures first { (key_of : R → K) → Indexes K.eq index.now.places index.now.earlier.items (map (kept_key key_of) records.now) → result ≡ find (λ r. K.eq key.now (key_of r)) (present_of records.now) }
{
    gather(index, key, records, &Finds, None)
}

/// How many records of a key there are, counted up to a number.
pub fn count<K: Eq + Hash + Drop, R>(
    index: &NewestIndex<K>,
    key: &K,
    records: &[Kept<R>],
    most: usize,
) -> usize
    ensures count { (key_of : R → K) → Indexes K.eq index.now.places index.now.earlier.items (map (kept_key key_of) records.now) → result ≡ min (length (filter (λ r. K.eq key.now (key_of r)) (present_of records.now))) most }
{
    gather(index, key, records, &Counts { most }, 0)
}
