//! What a tablet's part does when it is told, under a stamp that is no earlier than its clock.
ghost use Rattle.std.specs.Prelude.{◌≡◌, ◌≤◌, ◌<◌, ◌+◌, [], true, length, IfOk, OnOk};
ghost use Rattle.row_values.specs.Store.{Below, kept, part_of};
ghost use Rattle.row_values.specs.Batches.{FitsStore};
ghost use Rattle.model.specs.Tablets.{effect, placed, Clock, Make, Child, SetVersion, HideSince, Write, RaiseCutoff, Compact, Offer, Restart};

use crate::part::TabletPart;
use crate::presence::Presence;
use hybrid_time::HybridTime;
use partition_codes::Range;
use row_values::{Batch, NoMemory};
use std::alloc::Global;
use tablet_inbox::{Inbox, TabletCommand};
use versions::VersionStore;
use yb_ident::Ident;

impl<V: VersionStore> TabletPart<V> {
    /// Sets the clock.
    #[tactic(auto, using(law_store::proofs::Writing::below_weaker))]
    pub fn tick(&mut self, stamp: HybridTime)
        requires later { self.old.tablet.clock ≤ stamp }
        ensures tablet { self.new.tablet ≡ effect Clock stamp self.old.tablet }
    {
        self.clock = stamp;
    }

    /// Makes room for the versions of a batch.
    pub fn prepare_write(&mut self, batch: &Batch) -> Result<(), NoMemory>
        requires batch { FitsStore batch.now }
        ensures tablet { self.new.tablet ≡ self.old.tablet }
        ensures room { OnOk result (length batch.now ≤ self.new.room) }
    {
        self.store.prepare_add(batch)
    }

    /// Writes a batch, in the room that was made.
    #[tactic(auto, using(law_store::proofs::Writing::below_weaker, law_store::proofs::Writing::below_written))]
    pub fn write(&mut self, batch: Batch, stamp: HybridTime)
        requires batch { FitsStore batch }
        requires room { length batch ≤ self.old.room }
        requires later { self.old.tablet.clock < stamp }
        ensures tablet { self.new.tablet ≡ effect (Write batch) stamp self.old.tablet }
    {
        self.clock = stamp;
        self.store.add(batch, stamp);
    }

    /// Raises the cutoff; a time below it changes nothing but the clock.
    #[tactic(auto, using(law_store::proofs::Writing::below_weaker))]
    pub fn raise_cutoff(&mut self, to: HybridTime, stamp: HybridTime)
        requires later { self.old.tablet.clock ≤ stamp }
        requires past { to ≤ stamp }
        ensures tablet { self.new.tablet ≡ effect (RaiseCutoff to) stamp self.old.tablet }
    {
        self.clock = stamp;
        self.store.raise_cutoff(to);
    }

    /// A store of what compaction keeps.
    pub fn prepare_compact(&self) -> Result<V, NoMemory>
        ensures versions { IfOk result (λ store. V.versions store ≡ kept self.now.tablet.versions self.now.tablet.cutoff) }
        ensures cutoff { IfOk result (λ store. V.cutoff store ≡ self.now.tablet.cutoff) }
    {
        self.store.compacted()
    }

    /// Keeps what compaction keeps: the store that was prepared.
    #[tactic(auto, using(law_store::proofs::Writing::below_weaker, law_store::proofs::Compaction::below_kept))]
    pub fn compact(&mut self, store: V, stamp: HybridTime)
        requires versions { V.versions store ≡ kept self.old.tablet.versions self.old.tablet.cutoff }
        requires cutoff { V.cutoff store ≡ self.old.tablet.cutoff }
        requires later { self.old.tablet.clock ≤ stamp }
        ensures tablet { self.new.tablet ≡ effect Compact stamp self.old.tablet }
    {
        self.clock = stamp;
        self.store = store;
    }

    /// The empty store of a tablet that is made at a stamp.
    pub fn prepare_make(alloc: Global, stamp: HybridTime) -> Result<V, NoMemory>
        ensures versions { IfOk result (λ store. V.versions store ≡ []) }
        ensures cutoff { IfOk result (λ store. V.cutoff store ≡ stamp) }
    {
        V::empty(alloc, stamp)
    }

    /// Gets a new tablet, with the empty store that was prepared.
    pub fn make(
        &mut self,
        tablet: Ident,
        table: Ident,
        range: Range,
        version: u32,
        store: V,
        stamp: HybridTime,
    )
        requires versions { V.versions store ≡ [] }
        requires cutoff { V.cutoff store ≡ stamp }
        ensures tablet { self.new.tablet ≡ effect (Make tablet table range.low range.high version) stamp self.old.tablet }
    {
        self.place(tablet, table, range, version, store, stamp)
    }

    /// The store of a split's child that gets what this part has in a range.
    #[tactic(auto, using(law_store::proofs::Choosing::below_part))]
    pub fn prepare_child(&self, range: Range) -> Result<V, NoMemory>
        ensures versions { IfOk result (λ store. V.versions store ≡ part_of range.low range.high self.now.tablet.versions) }
        ensures cutoff { IfOk result (λ store. V.cutoff store ≡ self.now.tablet.cutoff) }
        ensures below { IfOk result (λ store. Below (self.now.tablet.clock + 1) (V.versions store)) }
        ensures past { IfOk result (λ store. V.cutoff store ≤ self.now.tablet.clock) }
    {
        self.store.part_of(range)
    }

    /// Gets the child of a split, with the store that was prepared.
    pub fn make_child(
        &mut self,
        tablet: Ident,
        table: Ident,
        range: Range,
        version: u32,
        store: V,
        stamp: HybridTime,
    )
        requires below { Below (stamp + 1) (V.versions store) }
        requires past { V.cutoff store ≤ stamp }
        ensures tablet { self.new.tablet ≡ effect (Child tablet table range.low range.high version (V.versions store) (V.cutoff store)) stamp self.old.tablet }
    {
        self.place(tablet, table, range, version, store, stamp)
    }

    // Gets a tablet in service, with this store.
    fn place(
        &mut self,
        tablet: Ident,
        table: Ident,
        range: Range,
        version: u32,
        store: V,
        stamp: HybridTime,
    )
        requires below { Below (stamp + 1) (V.versions store) }
        requires past { V.cutoff store ≤ stamp }
        ensures tablet { self.new.tablet ≡ placed tablet table range.low range.high version (V.versions store) (V.cutoff store) stamp self.old.tablet }
    {
        let alloc = *self.frozen.allocator();
        self.clock = stamp;
        self.presence = Presence::Serving;
        self.tablet = Some(tablet);
        self.table = Some(table);
        self.low = range.low;
        self.high = range.high;
        self.version = version;
        self.store = store;
        self.frozen = Vec::new(alloc);
        self.fence = None;
        self.inbox = Inbox::new(alloc);
        self.ready = false;
    }

    /// Keeps another version of the schema.
    #[tactic(auto, using(law_store::proofs::Writing::below_weaker))]
    pub fn set_version(&mut self, version: u32, stamp: HybridTime)
        requires later { self.old.tablet.clock ≤ stamp }
        ensures tablet { self.new.tablet ≡ effect (SetVersion version) stamp self.old.tablet }
    {
        self.clock = stamp;
        self.version = version;
    }

    /// Hides its tablet, which ended at another stamp.
    #[tactic(auto, using(law_store::proofs::Writing::below_weaker))]
    pub fn hide(&mut self, ended: HybridTime, stamp: HybridTime)
        requires later { self.old.tablet.clock ≤ stamp }
        ensures tablet { self.new.tablet ≡ effect (HideSince ended) stamp self.old.tablet }
    {
        self.clock = stamp;
        self.presence = Presence::Hidden { ended };
    }

    /// Restarts: the inbox is lost, and nothing else.
    #[tactic(auto, using(law_store::proofs::Writing::below_weaker))]
    pub fn restart(&mut self, stamp: HybridTime)
        requires later { self.old.tablet.clock ≤ stamp }
        ensures tablet { self.new.tablet ≡ effect Restart stamp self.old.tablet }
    {
        self.clock = stamp;
        self.inbox.lose_all();
    }

    /// Makes room for one more command, and for one more frozen set.
    pub fn make_ready(&mut self) -> Result<(), NoMemory>
        ensures tablet { self.new.tablet ≡ self.old.tablet }
        ensures ready { OnOk result (self.new.ready ≡ true) }
    {
        if self.ready {
            return Ok(());
        }
        self.inbox.prepare_offer()?;
        self.frozen.reserve(1)?;
        self.ready = true;
        Ok(())
    }

    /// Is offered a command, in the room that was made.
    #[tactic(auto, using(law_store::proofs::Writing::below_weaker))]
    pub fn offer(&mut self, command: TabletCommand, stamp: HybridTime)
        requires ready { self.old.ready ≡ true }
        requires later { self.old.tablet.clock ≤ stamp }
        ensures tablet { self.new.tablet ≡ effect (Offer command) stamp self.old.tablet }
    {
        self.clock = stamp;
        self.ready = false;
        self.inbox.offer(command);
    }
}
