ghost use Rattle.std.specs.Prelude.{◌≡◌, ◌<◌, [], ◌∷◌, ◌++◌, ◌≤◌, insert, slice_set, length, slice_get, Some, OnOk, OnErr};
ghost use Rattle.std.specs.Option.{option_copied};
ghost use Rattle.std.specs.Borrow.{Lends, sem};
ghost use Rattle.std.specs.Cmp.Lexicographic.{pointwise, slice_cmp, slice_partial_cmp, lists_equiv, lists_agrees, lists_total, lists_ties, lists_po, lists_per};
ghost use Rattle.std.specs.Hash as fed;
ghost use Rattle.std.specs.Hash.{items_Alike};
ghost use Rattle.row_values.specs.contracts.records.Records.{the_row};

use crate::copied::Copied;
use crate::no_memory::NoMemory;
use std::alloc::Global;
use std::cmp::Ordering;
use std::hash::{Hash, Hasher};
use std::marker::Model;

/// A list of records, which contracts see as the list of its items. It keeps the allocator that it
/// was made with, so that only its constructors are given one.
#[derive(Debug, Drop)]
pub struct Records<R> {
    items: Vec<R>,
}

impl<R> Model for Records<R> {
    ghost use Rattle.std.specs.Prelude.{List};
    ghost use Rattle.std.specs.Coded.{coded_list};

    ghost Value = { List R };

    ghost coded = { coded_list R.code };

    ghost view = { λ list. list.items.items };
}

impl<R> Records<R> {
    /// The empty list, which takes no memory.
    pub fn new(alloc: Global) -> Records<R>
        ensures empty { result ≡ [] }
    {
        Records {
            items: Vec::new(alloc),
        }
    }

    /// The list of a `Vec`, without taking memory.
    pub fn from_vec(items: Vec<R>) -> Records<R>
        ensures same { result ≡ items.items }
    {
        Records { items }
    }

    /// The items as a `Vec`, without taking memory.
    pub fn into_vec(self) -> Vec<R>
        ensures same { result.items ≡ self }
    {
        let Records { items } = self;
        items
    }

    /// The number of items.
    pub fn len(&self) -> u64
        ensures count { result ≡ length self.now }
    {
        self.items.len() as u64
    }

    /// The item with this number, counted from 0; `None` from `len` on.
    pub fn get(&self, i: u64) -> Option<&R>
        ensures item { option_copied result ≡ slice_get self.now i }
    {
        self.items.get(i as usize)
    }

    /// The allocator that the list was made with. No clause speaks of an allocator.
    pub fn allocator(&self) -> Global
        ensures kept { self.now ≡ self.now }
    {
        *self.items.allocator()
    }

    /// The items, to be read.
    pub fn as_slice(&self) -> &[R]
        ensures same { result.now ≡ self.now }
    {
        self.items.as_slice()
    }

    /// An item, to be written in place.
    pub fn item_mut(&mut self, at: usize) -> &mut R
        requires within { at < length self.old }
        ensures* writes_back { sem 𝓛 (Lends (the_row R.row) R.row self.entry result (λ w. slice_set self.old at w)) }
        ensures item { slice_get self.old at ≡ Some result.now }
    {
        &mut self.items[at]
    }
}

impl<R: Drop> Records<R> {
    /// Puts the item at the end.
    pub fn push(&mut self, v: R) -> Result<(), NoMemory>
        ensures pushed { OnOk result (self.new ≡ self.old ++ v ∷ []) }
        ensures kept { OnErr result (self.new ≡ self.old) }
    {
        self.items.push(v)?;
        Ok(())
    }

    /// Puts the item at a place, and those from there on behind it.
    pub fn insert(&mut self, at: usize, v: R) -> Result<(), NoMemory>
        requires within { at ≤ length self.old }
        ensures inserted { OnOk result (self.new ≡ insert self.old at v) }
        ensures kept { OnErr result (self.new ≡ self.old) }
    {
        self.items.insert(at, v)?;
        Ok(())
    }

    /// Puts the item in the place of another.
    pub fn set(&mut self, at: usize, v: R)
        requires within { at < length self.old }
        ensures written { self.new ≡ slice_set self.old at v }
    {
        self.items[at] = v;
    }

    /// Puts an item in the place of another, and gives that one.
    pub fn replace(&mut self, at: usize, v: R) -> R
        requires within { at < length self.old }
        ensures was { slice_get self.old at ≡ Some result }
        ensures written { self.new ≡ slice_set self.old at v }
    {
        std::mem::replace(&mut self.items[at], v)
    }
}

impl<R: Copied> Copied for Records<R> {
    fn copy(&self) -> Result<Records<R>, NoMemory> {
        let mut copied = Vec::with_capacity(*self.items.allocator(), self.items.len())?;
        for item in &self.items {
            copied.push(item.copy()?)?;
        }
        Ok(Records { items: copied })
    }
}

impl<R: PartialEq> PartialEq for Records<R> {
    ghost eq = { λ x y. pointwise R.eq x y };

    ghost laws = { lists_per R.laws };

    fn eq(&self, other: &Records<R>) -> bool {
        self.as_slice() == other.as_slice()
    }
}

impl<R: Eq> Eq for Records<R> {
    ghost laws = { lists_equiv R.Eq.laws };
}

impl<R: PartialOrd> PartialOrd for Records<R> {
    ghost partial_cmp = { λ x y. slice_partial_cmp R.partial_cmp x y };

    ghost laws = { lists_po R.PartialOrd.laws };

    fn partial_cmp(&self, other: &Records<R>) -> Option<Ordering> {
        self.as_slice().partial_cmp(&other.as_slice())
    }
}

impl<R: Ord> Ord for Records<R> {
    ghost cmp = { λ x y. slice_cmp R.cmp x y };

    ghost total = { lists_total R.total };

    ghost matches_partial_cmp = { λ x y. lists_agrees R.matches_partial_cmp x y };

    ghost matches_eq = { λ x y. lists_ties R.cmp R.matches_eq x y };

    fn cmp(&self, other: &Records<R>) -> Ordering {
        self.as_slice().cmp(&other.as_slice())
    }
}

impl<R: Hash> Hash for Records<R> {
    ghost hash_input = { λ v. fed.slice R.hash_input v };

    ghost respects_eq = { (items_Alike (record { fed = R.respects_eq })).fed };

    fn hash<H: Hasher>(&self, state: &mut H) {
        self.as_slice().hash(state);
    }
}
