ghost use Rattle.std.specs.Prelude.{◌≡◌, ◌≤◌, ◌-◌, None, [], ◌∷◌, ◌++◌, OnOk};
ghost use Rattle.model.specs.Catalog.{owner_of};

use crate::keys::keys_agree;
use indexmap::IndexMap;
use row_values::NoMemory;
use std::alloc::Global;
use std::marker::Model;
use yb_ident::Ident;

/// The namespaces in which tables were made, in the order in which they were. Contracts see the
/// book's list, and for how many more there is room.
#[derive(Drop)]
pub struct Owners {
    entries: IndexMap<Ident, Ident>,
    room: usize,
}

impl Model for Owners {
    ghost use Rattle.std.specs.Prelude.{◌≤◌, map};
    ghost use Rattle.indexmap.specs.IndexMap.{spare};
    ghost use Rattle.model.specs.Catalog.{Owner};
    ghost use Rattle.catalog_core.specs.Kept.{Roomy, owner_entry};

    ghost Value = { Roomy Owner };

    ghost view = { λ o. record { items = map owner_entry o.entries.entries; room = o.room } };

    ghost invariant = { λ o. o.room ≤ spare o.entries };
}

impl Owners {
    /// That of no table, which takes no memory.
    pub fn new(alloc: Global) -> Owners
        ensures { result ≡ record { items = []; room = 0 } }
    {
        Owners {
            entries: IndexMap::new(alloc),
            room: 0,
        }
    }

    /// The namespace in which a table was made.
    pub fn owner_of(&self, table: &Ident) -> Option<Ident>
        ensures { result ≡ owner_of self.now.items table.now }
    {
        keys_agree();
        self.entries.get(table).copied()
    }

    /// Makes room for so many more tables.
    pub fn prepare(&mut self, count: usize) -> Result<(), NoMemory>
        ensures kept { self.new.items ≡ self.old.items }
        ensures room { OnOk result (count ≤ self.new.room) }
        ensures no_less { self.old.room ≤ self.new.room }
    {
        if count > self.room {
            self.entries.reserve(count)?;
            self.room = count;
        }
        Ok(())
    }

    /// One table more, in the room that was made.
    pub fn add(&mut self, table: Ident, namespace: Ident)
        requires room { 1 ≤ self.old.room }
        requires fresh { owner_of self.old.items table ≡ None }
        ensures items { self.new.items ≡ self.old.items ++ record { table = table; namespace = namespace } ∷ [] }
        ensures room { self.new.room ≡ self.old.room - 1 }
    {
        keys_agree();
        self.room -= 1;
        self.entries.insert(table, namespace).unwrap();
    }
}
