ghost use Rattle.std.specs.Prelude.{◌≡◌, ◌&&◌, Bool, List, map, IfOk, OnOk};
ghost use Rattle.std.specs.List.{filter};
ghost use Rattle.newest_index.specs.Newest.{Indexes};
ghost use Rattle.kept_records.specs.Gathered.{present_of, kept_key, step_present, puts};

use crate::records::Kept;
use newest_index::NewestIndex;
use row_values::NoMemory;
use std::alloc::Global;
use std::hash::Hash;

/// A test of records.
pub trait Tests<R> {
    ghost passes: { Self → R → Bool };

    /// Whether a record passes.
    fn passes(&self, item: &R) -> bool
        ensures exact { result ≡ passes self.now item.now };
}

// A present record that passes goes behind the others.
pub fn put<R: Copy + Drop, T: Tests<R>>(
    test: &T,
    kept: &Kept<R>,
    found: &mut Vec<R>,
) -> Result<(), NoMemory>
    ensures put { OnOk result (found.new.items ≡ step_present (puts (T.passes test.now)) kept.now found.old.items) }
{
    if kept.present && test.passes(&kept.item) {
        found.push(kept.item)?;
    }
    Ok(())
}

/// The records of a key that pass a test, in order. It goes over those of the key alone.
pub fn select<K: Eq + Hash + Drop, R: Copy + Drop, T: Tests<R>>(
    alloc: Global,
    index: &NewestIndex<K>,
    key: &K,
    records: &[Kept<R>],
    test: &T,
) -> Result<Vec<R>, NoMemory>
    ensures all { (key_of : R → K) → Indexes K.eq index.now.places index.now.earlier.items (map (kept_key key_of) records.now) → IfOk result (λ found. found.items ≡ filter (λ r. K.eq key.now (key_of r) && T.passes test.now r) (present_of records.now)) }
{
    let mut upto = records.len();
    let mut next = index.newest(key);
    let mut found = Vec::new(alloc);
    'records: while let Some(at) = next {
        if at >= upto {
            return Ok(found);
        }
        put(test, &records[at], &mut found)?;
        next = index.earlier(at);
        upto = at;
    }
    found.as_mut_slice().reverse();
    Ok(found)
}
