ghost use Rattle.std.specs.Prelude.{◌≡◌, length, IfOk};
ghost use Rattle.std.specs.Option.{option_copied};
ghost use Rattle.row_values.specs.Ids.{same};
ghost use Rattle.row_values.specs.Store.{of_rows, rows_at};
ghost use Rattle.model.specs.Tablets as book;

use hybrid_time::HybridTime;
use row_values::NoMemory;
use std::marker::Model;
use versions::VersionStore;
use yb_ident::Ident;

/// The versions that a snapshot froze, in a store of their own. Contracts see the book's.
#[derive(Drop)]
pub struct Frozen<V: VersionStore> {
    pub(crate) snapshot: Ident,
    pub(crate) at: HybridTime,
    pub(crate) store: V,
}

impl<V: VersionStore> Model for Frozen<V> {
    ghost use Rattle.model.specs.Tablets.{FrozenSet};

    ghost Value = { FrozenSet };

    ghost view = { λ f. record { snapshot = f.snapshot; at = f.at; versions = V.versions f.store; cutoff = V.cutoff f.store } };
}

impl<V: VersionStore> Frozen<V> {
    /// The number of its versions.
    pub fn len(&self) -> u64
        ensures count { result ≡ length self.now.versions }
    {
        self.store.len()
    }

    /// Whether it is the set of this snapshot.
    pub fn is_of(&self, snapshot: Ident) -> bool
        ensures exact { result ≡ same self.now.snapshot snapshot }
    {
        self.snapshot == snapshot
    }

    /// A store of its rows at a time, each as one upsert at a stamp, from which on it has those rows.
    pub fn restored(&self, to: HybridTime, stamp: HybridTime) -> Result<V, NoMemory>
        ensures versions { IfOk result (λ store. V.versions store ≡ of_rows (rows_at self.now.versions to) stamp) }
        ensures cutoff { IfOk result (λ store. V.cutoff store ≡ stamp) }
        ensures rows { IfOk result (λ store. rows_at (V.versions store) stamp ≡ rows_at self.now.versions to) }
    {
        self.store.restored(to, stamp)
    }
}

/// The set of a snapshot.
pub(crate) fn set_of<V: VersionStore>(sets: &[Frozen<V>], snapshot: Ident) -> Option<&Frozen<V>>
    ensures exact { option_copied result ≡ book.set_of sets.now snapshot }
{
    for set in sets {
        if set.is_of(snapshot) {
            return Some(set);
        }
    }
    None
}
