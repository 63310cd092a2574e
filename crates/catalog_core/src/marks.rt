ghost use Rattle.std.specs.Prelude.{ℕ, ◌≡◌, ◌≤◌, ◌<◌, ◌-◌, [], OnOk, map, max, if◌then◌else◌, Some, slice_get};
ghost use Rattle.indexmap.specs.IndexMap.{spare, index_map_len, set_value_at};
ghost use Rattle.row_values.specs.Ids.{Id};
ghost use Rattle.model.specs.Catalog.{KeptFrom, kept_from, set_kept_from};
ghost use Rattle.catalog_core.specs.Kept.{mark_raised, raised_to};
ghost use Rattle.catalog_core.specs.Pruned.{mark_risen};

use crate::keys::keys_agree;
use hybrid_time::HybridTime;
use indexmap::IndexMap;
use row_values::NoMemory;
use std::alloc::Global;
use std::marker::Model;
use yb_ident::Ident;

/// How marks rise.
pub trait Rises {
    ghost risen: { Self → Id → ℕ → ℕ };

    /// The mark of a namespace after it rose.
    fn rise(&self, namespace: &Ident, from: HybridTime) -> HybridTime
        ensures exact { result ≡ risen self.now namespace.now from };
}

/// For each namespace the stamp below which its catalog is not kept. Contracts see the book's list,
/// and for how many more there is room.
#[derive(Drop)]
pub struct Marks {
    entries: IndexMap<Ident, HybridTime>,
    room: usize,
}

impl Model for Marks {
    ghost use Rattle.std.specs.Prelude.{◌≤◌, map};
    ghost use Rattle.indexmap.specs.IndexMap.{spare};
    ghost use Rattle.model.specs.Catalog.{KeptFrom};
    ghost use Rattle.catalog_core.specs.Kept.{Roomy, mark_entry};

    ghost Value = { Roomy KeptFrom };

    ghost view = { λ m. record { items = map mark_entry m.entries.entries; room = m.room } };

    ghost invariant = { λ m. m.room ≤ spare m.entries };
}

impl Marks {
    /// That of no namespace, which takes no memory.
    pub fn new(alloc: Global) -> Marks
        ensures { result ≡ record { items = []; room = 0 } }
    {
        Marks {
            entries: IndexMap::new(alloc),
            room: 0,
        }
    }

    /// The mark of a namespace; 0 where it has none.
    pub fn kept_from(&self, namespace: &Ident) -> HybridTime
        ensures { result ≡ kept_from self.now.items namespace.now }
    {
        keys_agree();
        match self.entries.get(namespace) {
            Some(from) => *from,
            None => HybridTime { value: 0 },
        }
    }

    /// Makes room for so many more namespaces.
    pub fn prepare(&mut self, count: usize) -> Result<(), NoMemory>
        ensures kept { self.new.items ≡ self.old.items }
        ensures room { OnOk result (count ≤ self.new.room) }
        ensures no_less { self.old.room ≤ self.new.room }
    {
        if count > self.room {
            self.entries.reserve(count)?;
            self.room = count;
        }
        Ok(())
    }

    /// Sets the mark of a namespace, or raises it, in the room that was made.
    pub fn set(&mut self, namespace: Ident, from: HybridTime)
        requires room { 1 ≤ self.old.room }
        ensures items { self.new.items ≡ set_kept_from self.old.items namespace from }
        ensures room { self.new.room ≡ self.old.room - 1 }
    {
        keys_agree();
        self.room -= 1;
        let from = raised(self.entries.get(&namespace).copied(), from);
        self.entries.insert(namespace, from).unwrap();
    }

    /// All marks rise. It takes no memory.
    pub fn raise_all<W: Rises>(&mut self, walk: &W)
        ensures items { self.new.items ≡ map (mark_risen (λ ns from. W.risen walk.now ns from)) self.old.items }
        ensures room { self.new.room ≡ self.old.room }
    {
        let count = self.entries.len();
        for place in 0..count {
            raise_place(&mut self.entries, place, walk);
        }
    }

    /// Raises the mark of a namespace that has one. It takes no memory.
    pub fn raise(&mut self, namespace: &Ident, from: HybridTime)
        ensures items { self.new.items ≡ map (mark_raised namespace.now from) self.old.items }
        ensures room { self.new.room ≡ self.old.room }
    {
        keys_agree();
        let Some(mark) = self.entries.get_mut(namespace) else {
            return;
        };
        *mark = mark.later_of(from);
    }
}

// A mark after it is set to a time, or raised to it.
fn raised(old: Option<HybridTime>, from: HybridTime) -> HybridTime
    ensures { result ≡ raised_to old from }
{
    match old {
        Some(old) => old.later_of(from),
        None => from,
    }
}

// The mark of a place rises.
fn raise_place<W: Rises>(entries: &mut IndexMap<Ident, HybridTime>, place: usize, walk: &W)
    requires within { place < index_map_len entries.old }
    ensures entries { (e : Id × ℕ) → slice_get entries.old.entries place ≡ Some e → entries.new.entries ≡ set_value_at entries.old.entries place (W.risen walk.now e.0 e.1) }
    ensures room { spare entries.old ≤ spare entries.new }
{
    let (namespace, mark) = entries.pair_mut(place);
    *mark = walk.rise(namespace, *mark);
}
