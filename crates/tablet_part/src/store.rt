ghost use Rattle.std.specs.Prelude.{◌≡◌};

use std::marker::Model;
use versions::VersionStore;

/// A store that was made ready for a tablet. Contracts see its versions and its cutoff.
#[derive(Drop)]
pub struct ReadyStore<V: VersionStore> {
    store: V,
}

impl<V: VersionStore> Model for ReadyStore<V> {
    ghost use Rattle.tablet_part.specs.Views.{StoreView};

    ghost Value = { StoreView };

    ghost view = { λ s. record { versions = V.versions s.store; cutoff = V.cutoff s.store } };
}

impl<V: VersionStore> ReadyStore<V> {
    pub fn of(store: V) -> ReadyStore<V>
        ensures versions { result.versions ≡ V.versions store }
        ensures cutoff { result.cutoff ≡ V.cutoff store }
    {
        ReadyStore { store }
    }

    pub fn into_store(self) -> V
        ensures versions { V.versions result ≡ self.versions }
        ensures cutoff { V.cutoff result ≡ self.cutoff }
    {
        self.store
    }
}
