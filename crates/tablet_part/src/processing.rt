//! What a tablet's part does of the commands in its inbox. A command's store comes first, and may fail for want
//! of memory; then the command is done and marked, and can't fail.
ghost use Rattle.std.specs.Prelude.{◌≡◌, ◌≤◌, ◌<◌, ◌+◌, ◌^◌, ◌++◌, ◌∷◌, [], true, ℕ, Some, List, slice_get, length, IfOk};
ghost use Rattle.row_values.specs.Store.{Below, frozen, of_rows, rows_at};
ghost use Rattle.row_values.specs.declared.rows.KeyedRow.{KeyedRow};
ghost use Rattle.model.specs.Tablets.{effect, obeyed, set_of, rows_of_set, Process, DropFrozen, Clear, ServingPart};
ghost use Rattle.model.specs.RowActs.{count_frozen};
ghost use Rattle.tablet_part.specs.Obeying.{store_for, IsDue, CanCount};

use crate::frozen::{Frozen, set_of};
use crate::part::TabletPart;
use crate::presence::Presence;
use crate::store::ReadyStore;
use hybrid_time::HybridTime;
use row_values::NoMemory;
use std::alloc::Global;
use tablet_inbox::{Body, Inbox, TabletCommand};
use versions::VersionStore;
use yb_ident::Ident;

impl<V: VersionStore> TabletPart<V> {
    /// The commands that wait for it, and the marks of those that it did.
    pub fn inbox(&self) -> &Inbox
        ensures inbox { result.now.inbox ≡ self.now.tablet.inbox }
        ensures done { result.now.done ≡ self.now.tablet.done }
    {
        &self.inbox
    }

    /// The store of a snapshot's set: the versions up to its time.
    pub fn prepare_freeze(&self, at: HybridTime) -> Result<V, NoMemory>
        ensures versions { IfOk result (λ store. V.versions store ≡ frozen at self.now.tablet.versions) }
        ensures cutoff { IfOk result (λ store. V.cutoff store ≡ self.now.tablet.cutoff) }
        ensures count { IfOk result (λ _. count_frozen self.now.tablet.frozen + length (frozen at self.now.tablet.versions) < 2 ^ 64) }
    {
        let store = self.store.frozen(at)?;
        match self.frozen_len().checked_add(store.len()) {
            Some(_) => Ok(store),
            // So many versions fit into no memory.
            None => Err(NoMemory),
        }
    }

    /// The store of the rows that a snapshot's set had at a time, as of a stamp. The live versions are not read.
    pub fn prepare_restore(
        &self,
        alloc: Global,
        snapshot: Ident,
        to: HybridTime,
        stamp: HybridTime,
    ) -> Result<V, NoMemory>
        ensures versions { IfOk result (λ store. V.versions store ≡ of_rows (rows_of_set (set_of self.now.tablet.frozen snapshot) to) stamp) }
        ensures cutoff { IfOk result (λ store. V.cutoff store ≡ stamp) }
        ensures rows { IfOk result (λ store. rows_at (V.versions store) stamp ≡ rows_of_set (set_of self.now.tablet.frozen snapshot) to) }
    {
        match set_of(&self.frozen, snapshot) {
            Some(set) => set.restored(to, stamp),
            None => V::empty(alloc, stamp),
        }
    }

    /// Does the first command of its inbox with the store that was made for it, and marks it as done.
    #[tactic(auto, using(law_store::proofs::Writing::below_weaker))]
    pub fn process(
        &mut self,
        command: &TabletCommand,
        store: Option<ReadyStore<V>>,
        stamp: HybridTime,
    )
        requires first { slice_get self.old.tablet.inbox 0 ≡ Some command.now }
        requires due { IsDue command.now.body stamp }
        requires count { CanCount command.now.body self.old.tablet }
        requires made { (rows : List KeyedRow) × (store ≡ store_for command.now.body rows self.old.tablet) }
        requires ready { self.old.ready ≡ true }
        requires later { self.old.tablet.clock ≤ stamp }
        ensures tablet { (rows : List KeyedRow) → store ≡ store_for command.now.body rows self.old.tablet → self.new.tablet ≡ effect (Process rows) stamp self.old.tablet }
    {
        self.clock = stamp;
        self.inbox.mark_done();
        self.obey(command, store);
    }

    // Does what a command says.
    #[tactic(auto, using(law_store::proofs::Listing::below_of_rows))]
    fn obey(&mut self, command: &TabletCommand, store: Option<ReadyStore<V>>)
        requires due { IsDue command.now.body self.old.tablet.clock }
        requires count { CanCount command.now.body self.old.tablet }
        requires made { (rows : List KeyedRow) × (store ≡ store_for command.now.body rows self.old.tablet) }
        requires ready { self.old.ready ≡ true }
        ensures tablet { (rows : List KeyedRow) → store ≡ store_for command.now.body rows self.old.tablet → self.new.tablet ≡ obeyed command.now.body command.now.operation command.now.tablet rows self.old.tablet }
    {
        let operation = command.operation;
        match &command.body {
            Body::Fence => self.fence = Some(operation),
            Body::Freeze { snapshot, at } => {
                self.keep_set(*snapshot, *at, store.unwrap().into_store());
            }
            Body::RestoreFrom { version, .. } => {
                self.take_versions(*version, store.unwrap().into_store(), operation);
            }
            Body::Hide { ended } => {
                self.presence = Presence::Hidden { ended: *ended };
                self.fence = None;
            }
            Body::Copy {
                table,
                range,
                version,
                ..
            } => {
                self.tablet = Some(command.tablet);
                self.table = Some(*table);
                self.low = range.low;
                self.high = range.high;
                self.take_versions(*version, store.unwrap().into_store(), operation);
            }
            Body::Release { cutoff } => {
                self.store.raise_cutoff(*cutoff);
                self.fence = None;
            }
        }
    }
}

impl<V: VersionStore> TabletPart<V> {
    // Keeps the frozen set of a snapshot, with the store that was made for it.
    #[tactic(auto, using(crate::proofs::Counting::count_more))]
    fn keep_set(&mut self, snapshot: Ident, at: HybridTime, store: V)
        requires ready { self.old.ready ≡ true }
        requires count { count_frozen self.old.tablet.frozen + length (V.versions store) < 2 ^ 64 }
        ensures tablet { self.new.tablet ≡ record self.old.tablet { frozen = self.old.tablet.frozen ++ record { snapshot = snapshot; at = at; versions = V.versions store; cutoff = V.cutoff store } ∷ [] } }
    {
        self.ready = false;
        let set = Frozen {
            snapshot,
            at,
            store,
        };
        self.frozen.push(set).unwrap();
    }

    // Serves these versions, fenced by the operation.
    fn take_versions(&mut self, version: u32, store: V, operation: Ident)
        requires below { Below (self.old.tablet.clock + 1) (V.versions store) }
        requires past { V.cutoff store ≤ self.old.tablet.clock }
        ensures tablet { self.new.tablet ≡ record self.old.tablet { presence = ServingPart; version = version; versions = V.versions store; cutoff = V.cutoff store; fence = Some operation } }
    {
        self.presence = Presence::Serving;
        self.version = version;
        self.store = store;
        self.fence = Some(operation);
    }

    /// The empty store of a part that is emptied.
    pub fn prepare_clear(alloc: Global) -> Result<V, NoMemory>
        ensures versions { IfOk result (λ store. V.versions store ≡ []) }
        ensures cutoff { IfOk result (λ store. V.cutoff store ≡ 0) }
    {
        V::empty(alloc, HybridTime { value: 0 })
    }

    /// Is emptied, with the store that was prepared: it keeps its clock alone.
    pub fn clear(&mut self, store: V, stamp: HybridTime)
        requires versions { V.versions store ≡ [] }
        requires cutoff { V.cutoff store ≡ 0 }
        ensures tablet { self.new.tablet ≡ effect Clear stamp self.old.tablet }
    {
        let alloc = *self.frozen.allocator();
        self.clock = stamp;
        self.presence = Presence::Empty;
        self.tablet = None;
        self.table = None;
        self.low = 0;
        self.high = 0;
        self.version = 0;
        self.store = store;
        self.frozen = Vec::new(alloc);
        self.fence = None;
        self.inbox = Inbox::new(alloc);
        self.ready = false;
    }

    /// Drops the frozen sets of a snapshot.
    #[tactic(auto, using(law_store::proofs::Writing::below_weaker))]
    pub fn drop_frozen(&mut self, snapshot: Ident, stamp: HybridTime)
        requires later { self.old.tablet.clock ≤ stamp }
        ensures tablet { self.new.tablet ≡ effect (DropFrozen snapshot) stamp self.old.tablet }
    {
        self.clock = stamp;
        self.frozen.retain(|set| !set.is_of(snapshot));
    }
}
