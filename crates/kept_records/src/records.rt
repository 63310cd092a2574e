ghost use Rattle.std.specs.Prelude.{◌≡◌, ◌-◌, List, map, vec_len, vec_capacity};
ghost use Rattle.newest_index.specs.Newest.{Indexes};
ghost use Rattle.kept_records.specs.Gathered.{gathered, step_present, changed_where, changes_record, present_of, kept_key, taken_out};

use newest_index::{Changes, NewestIndex};
use std::hash::Hash;

/// A record that may be taken out of its list. It stays where it is, so that an index of the list
/// stays right.
#[derive(Debug, Drop)]
pub struct Kept<R> {
    pub item: R,
    pub present: bool,
}

/// What is made of the records of a key, each with what was made of the later ones.
pub trait Gathers<R, B> {
    ghost step: { Self → R → B → B };

    /// What a record and the later ones give.
    fn step(&self, item: &R, later: B) -> B
        ensures made { result ≡ step self.now item.now later };
}

fn step_of<R, B, W: Gathers<R, B>>(walk: &W, kept: &Kept<R>, later: B) -> B
    ensures { result ≡ step_present (W.step walk.now) kept.now later }
{
    if kept.present {
        walk.step(&kept.item, later)
    } else {
        later
    }
}

// A record after its change.
pub fn change_of<R, W: Changes<R>>(walk: &W, kept: &mut Kept<R>)
    ensures { kept.new ≡ changes_record (W.changed walk.now) kept.old }
{
    walk.change(&mut kept.item);
}

/// Goes over the records of a key from the newest back, and over no other.
pub fn gather<K: Eq + Hash + Drop, R, B: Drop, W: Gathers<R, B>>(
    index: &NewestIndex<K>,
    key: &K,
    records: &[Kept<R>],
    walk: &W,
    start: B,
) -> B
    ensures all { (key_of : R → K) → Indexes K.eq index.now.places index.now.earlier.items (map (kept_key key_of) records.now) → result ≡ gathered (λ r. K.eq key.now (key_of r)) (W.step walk.now) start (present_of records.now) }
{
    let mut upto = records.len();
    let mut next = index.newest(key);
    let mut found = start;
    'records: while let Some(at) = next {
        if at >= upto {
            return found;
        }
        found = step_of(walk, &records[at], found);
        next = index.earlier(at);
        upto = at;
    }
    found
}

// What becomes of the record that is kept.
#[derive(Drop)]
struct OfItems<'a, W> {
    walk: &'a W,
}

impl<'a, R, W: Changes<R>> Changes<Kept<R>> for OfItems<'a, W> {
    ghost changed = { λ w k. changes_record (W.changed w.walk.now) k };

    fn change(&self, item: &mut Kept<R>) {
        change_of(self.walk, item);
    }
}

/// Changes the records of a key, and no other. Their keys are to stay.
pub fn change<K: Eq + Hash + Drop, R, W: Changes<R>>(
    index: &NewestIndex<K>,
    key: &K,
    records: &mut Vec<Kept<R>>,
    walk: &W,
)
    ensures all { (key_of : R → K) → Indexes K.eq index.now.places index.now.earlier.items (map (kept_key key_of) records.old.items) → records.new.items ≡ changed_where (λ k. K.eq key.now (key_of k.item)) (changes_record (W.changed walk.now)) records.old.items }
    ensures room { vec_capacity records.new - vec_len records.new ≡ vec_capacity records.old - vec_len records.old }
{
    newest_index::change(index, key, records, &OfItems { walk });
}

// A record is taken out.
#[derive(Drop)]
struct TakesOut;

impl<R> Changes<Kept<R>> for TakesOut {
    ghost changed = { λ _ k. taken_out k };

    fn change(&self, item: &mut Kept<R>) {
        item.present = false;
    }
}

/// Takes out the records of a key, and no other. It takes no memory.
pub fn take_out<K: Eq + Hash + Drop, R>(index: &NewestIndex<K>, key: &K, records: &mut Vec<Kept<R>>)
    ensures all { (key_of : R → K) → Indexes K.eq index.now.places index.now.earlier.items (map (kept_key key_of) records.old.items) → records.new.items ≡ changed_where (λ k. K.eq key.now (key_of k.item)) taken_out records.old.items }
    ensures room { vec_capacity records.new - vec_len records.new ≡ vec_capacity records.old - vec_len records.old }
{
    newest_index::change(index, key, records, &TakesOut);
}
