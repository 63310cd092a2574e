ghost use Rattle.std.specs.Prelude.{◌≡◌, ◌-◌, List, map, vec_len, vec_capacity};
ghost use Rattle.newest_index.specs.Newest.{Indexes};
ghost use Rattle.newest_index.specs.Gathered.{changed_where};

use crate::NewestIndex;
use std::hash::Hash;

/// What becomes of the records of a key, each by itself.
pub trait Changes<R> {
    ghost changed: { Self → R → R };

    /// Changes a record.
    fn change(&self, item: &mut R)
        ensures made { item.new ≡ changed self.now item.old };
}

/// Changes the records of a key, from the newest back, and no other. Their keys are to stay.
pub fn change<K: Eq + Hash + Drop, R, W: Changes<R>>(
    index: &NewestIndex<K>,
    key: &K,
    records: &mut Vec<R>,
    walk: &W,
)
    ensures all { (key_of : R → K) → Indexes K.eq index.now.places index.now.earlier.items (map key_of records.old.items) → records.new.items ≡ changed_where (λ r. K.eq key.now (key_of r)) (λ r. W.changed walk.now r) records.old.items }
    ensures room { vec_capacity records.new - vec_len records.new ≡ vec_capacity records.old - vec_len records.old }
{
    let mut upto = records.len();
    let mut next = index.newest(key);
    'records: while let Some(at) = next {
        if at >= upto {
            return;
        }
        walk.change(&mut records[at]);
        next = index.earlier(at);
        upto = at;
    }
}
