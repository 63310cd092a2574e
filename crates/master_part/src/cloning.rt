//! What the master's part does where a clone begins, and where its record moves.
ghost use Rattle.std.specs.Prelude.{ℕ, ◌≡◌, ◌≤◌, ◌<◌, ◌+◌, ◌++◌, ◌∷◌, [], List, Some, OnOk, length, filter, map};
ghost use Rattle.std.specs.Option.{option_copied};
ghost use Rattle.row_values.specs.Ids.{Id, id_bound, same};
ghost use Rattle.model.specs.Parts.{Moves, BeginsClone};
ghost use Rattle.model.specs.Records as book;
ghost use Rattle.model.specs.Records.{unsent};
ghost use Rattle.model.specs.Coordination.{unfinished_clone};
ghost use Rattle.model.specs.Changed.{new_clone};
ghost use Rattle.model.specs.Restored.{cloned_tables, cloned_activity};
ghost use Rattle.model.specs.Catalog.{namespace_added};
ghost use Rattle.model.specs.History.{master_effect};
ghost use Rattle.catalog_core.specs.Cloned.{TargetFits, target_of};
ghost use Rattle.clone_coord.specs.Seen.{state_of};
ghost use Rattle.clone_coord.specs.View.{entered_in};
ghost use Rattle.master_part.specs.Going.{IsClone, OfClone, CloneFits, MakesServing, CloneEnters, ShowsBy};
ghost use Rattle.master_part.specs.Cloning.{owner_by, Unowned, target_at, with_drawn, with_owners};

use crate::fields::{
    clone_id, clone_source, clone_tables, clone_tablets, clone_target, snapshot_id,
    snapshot_schedule,
};
use crate::part::MasterPart;
use crate::sending::forget_all_sent;
use catalog_core::{Catalog, NamespaceRecord, TableRecord};
use catalog_tablets::{Interval, Tablets};
use clone_coord::{CloneRecord, CloneState, IdPair, TabletPair};
use hybrid_time::HybridTime;
use row_values::{Name, NoMemory, Records};
use snapshot_coord::SnapshotRecord;
use tablet_inbox::Listed;
use yb_ident::Ident;

impl MasterPart {
    /// Makes room for the record of a clone, and for what its tables reserve.
    pub fn prepare_clone(&mut self, made: &CloneRecord) -> Result<(), NoMemory>
        ensures master { self.new.master ≡ self.old.master }
        ensures owners { OnOk result (length made.now.tables ≤ self.new.catalog_room) }
        ensures room { OnOk result (1 ≤ self.new.clone_room) }
    {
        self.catalog.prepare(clone_tables(made).len())?;
        self.clones.prepare()?;
        Ok(())
    }

    /// A clone begins, in the room that was made. Its record says what is reserved for it.
    pub fn begin_clone(&mut self, made: CloneRecord, stamp: HybridTime)
        requires owners { length made.tables ≤ self.old.catalog_room }
        requires room { 1 ≤ self.old.clone_room }
        requires fits { CloneFits made self.old.master }
        requires made { (ns : Id) × ((source : List ℕ) × ((target : List ℕ) × ((to : ℕ) × (new_clone ns source target to self.old.master ≡ made)))) }
        ensures master { (ns : Id) (source target : List ℕ) (to : ℕ) → new_clone ns source target to self.old.master ≡ made → self.new.master ≡ master_effect (BeginsClone ns source target to) stamp self.old.master }
    {
        self.draw_for_clone(&made, stamp);
        self.own_tables(&made);
        self.keep_clone(made);
    }

    /// An accepted clone that no snapshot serves makes one, in the room that was made.
    pub fn snapshot_clone(&mut self, operation: &Ident, made: SnapshotRecord, stamp: HybridTime)
        requires room { 1 ≤ self.old.snapshot_room }
        requires clone { IsClone operation.now self.old.master }
        requires may { OfClone operation.now self.old.master (λ r. MakesServing made r stamp self.old.master) }
        ensures master { self.new.master ≡ master_effect (Moves operation.now) stamp self.old.master }
    {
        let Some(found) = self.moving_clone(operation) else {
            self.clock = stamp;
            return;
        };
        let id = clone_id(found);
        let namespace = clone_source(found);
        let schedule = snapshot_schedule(&made);
        let state = CloneState::Snapshotting {
            own: snapshot_id(&made),
        };
        let listed = Records::new(self.alloc());
        self.begin_snapshot(&namespace, &schedule, made, stamp);
        self.enter_clone(&id, state, listed, stamp);
    }

    /// A clone enters a state, with the tablets that it lists there, and nothing else becomes of the master.
    pub fn move_clone(
        &mut self,
        operation: &Ident,
        state: CloneState,
        listed: Records<Listed>,
        stamp: HybridTime,
    )
        requires clone { IsClone operation.now self.old.master }
        requires may { OfClone operation.now self.old.master (λ r. CloneEnters state listed r stamp self.old.master) }
        ensures master { self.new.master ≡ master_effect (Moves operation.now) stamp self.old.master }
    {
        let Some(found) = self.moving_clone(operation) else {
            self.clock = stamp;
            return;
        };
        let id = clone_id(found);
        self.enter_clone(&id, state, listed, stamp);
    }

    /// Makes room for the target of a clone with so many tables.
    pub fn prepare_target(&mut self, operation: &Ident, tables: usize) -> Result<(), NoMemory>
        ensures master { self.new.master ≡ self.old.master }
        ensures namespace { OnOk result (1 ≤ self.new.catalog_room) }
        ensures tables { OnOk result (tables ≤ self.new.catalog_room) }
        ensures places { OnOk result ((r : book.CloneRecord) → unfinished_clone self.new.master.clones operation.now ≡ Some r → length r.tablets ≤ self.new.activity_room) }
    {
        let places = match self.moving_clone(operation) {
            Some(found) => clone_tablets(found).len(),
            None => 0,
        };
        self.catalog.prepare(if tables < 1 { 1 } else { tables })?;
        self.activity.prepare(places)?;
        Ok(())
    }

    /// The target of a clone becomes current under its name with these tables, and its tablets active, in the room
    /// that was made.
    pub fn show_clone(
        &mut self,
        operation: &Ident,
        name: Name,
        tables: Records<TableRecord>,
        listed: Records<Listed>,
        stamp: HybridTime,
    )
        requires namespace { 1 ≤ self.old.catalog_room }
        requires tables { length tables ≤ self.old.catalog_room }
        requires places { (r : book.CloneRecord) → unfinished_clone self.old.master.clones operation.now ≡ Some r → length r.tablets ≤ self.old.activity_room }
        requires clone { IsClone operation.now self.old.master }
        requires may { OfClone operation.now self.old.master (λ r. ShowsBy r.state name tables listed r stamp self.old.master) }
        ensures master { self.new.master ≡ master_effect (Moves operation.now) stamp self.old.master }
    {
        let Some(found) = self.moving_clone(operation) else {
            self.clock = stamp;
            return;
        };
        let id = clone_id(found);
        let state = after_copies(found);
        let namespace = NamespaceRecord {
            id: clone_target(found),
            name,
            from: stamp,
            to: None,
        };
        self.begin_targets(operation, stamp);
        self.show_target(namespace, tables);
        self.enter_clone(&id, state, listed, stamp);
    }

    // The identifiers of a new clone are drawn.
    fn draw_for_clone(&mut self, made: &CloneRecord, stamp: HybridTime)
        requires fits { CloneFits made.now self.old.master }
        ensures master { self.new.master ≡ with_drawn made.now stamp self.old.master }
        ensures owners { self.new.catalog_room ≡ self.old.catalog_room }
        ensures room { self.new.clone_room ≡ self.old.clone_room }
    {
        let tables = clone_tables(made).len() as u64;
        let tablets = clone_tablets(made).len() as u64;
        self.clock = stamp;
        self.drawn.namespaces += 1;
        self.drawn.tables += tables;
        self.drawn.tablets += tablets;
        self.drawn.clones += 1;
    }

    // The tables of a new clone get their namespace, in the room that was made.
    fn own_tables(&mut self, made: &CloneRecord)
        requires owners { length made.now.tables ≤ self.old.catalog_room }
        requires unowned { Unowned made.now.target_id self.old.master.catalog.owners made.now.tables }
        ensures master { self.new.master ≡ with_owners made.now self.old.master }
        ensures room { self.new.clone_room ≡ self.old.clone_room }
    {
        add_owners(&mut self.catalog, clone_tables(made), clone_target(made));
    }

    // One record of a clone more, in the room that was made.
    fn keep_clone(&mut self, made: CloneRecord)
        requires room { 1 ≤ self.old.clone_room }
        ensures master { self.new.master ≡ record self.old.master { clones = self.old.master.clones ++ made ∷ [] } }
    {
        self.clones.add(made);
    }

    // The unfinished clone of an identifier.
    pub(crate) fn moving_clone(&self, operation: &Ident) -> Option<&CloneRecord>
        ensures exact { option_copied result ≡ unfinished_clone self.now.master.clones operation.now }
    {
        self.clones.unfinished(operation)
    }

    // The tablets of a clone's target become active, in the room that was made.
    fn begin_targets(&mut self, operation: &Ident, stamp: HybridTime)
        requires places { (r : book.CloneRecord) → unfinished_clone self.old.master.clones operation.now ≡ Some r → length r.tablets ≤ self.old.activity_room }
        ensures master { (r : book.CloneRecord) → unfinished_clone self.old.master.clones operation.now ≡ Some r → self.new.master ≡ record self.old.master { activity = self.old.master.activity ++ cloned_activity stamp r.tablets } }
        ensures room { self.new.catalog_room ≡ self.old.catalog_room }
    {
        if let Some(found) = self.clones.unfinished(operation) {
            begin_all(&mut self.activity, clone_tablets(found), stamp);
        }
    }

    // A clone's target becomes current with its tables, in the room that was made.
    fn show_target(&mut self, namespace: NamespaceRecord, tables: Records<TableRecord>)
        requires namespace { 1 ≤ self.old.catalog_room }
        requires tables { length tables ≤ self.old.catalog_room }
        requires target { (r : book.CloneRecord) × (TargetFits self.old.master.catalog r × ((namespace ≡ target_of r namespace.from) × (tables ≡ cloned_tables r.tables self.old.master.catalog.tables r.target_id r.to namespace.from))) }
        ensures master { self.new.master ≡ record self.old.master { catalog = record (namespace_added namespace self.old.master.catalog) { tables = self.old.master.catalog.tables ++ tables } } }
    {
        self.catalog.add_target(namespace, tables.into_vec());
    }

    // The record of a clone enters a state, and its sent marks go.
    fn enter_clone(
        &mut self,
        id: &Ident,
        state: CloneState,
        listed: Records<Listed>,
        stamp: HybridTime,
    )
        requires once { length (filter (λ r. same r.id id.now) self.old.master.clones) ≤ 1 }
        ensures master { self.new.master ≡ record self.old.master {
          clock = stamp;
          clones = entered_in id.now (state_of state) listed self.old.master.clones;
          sent = unsent id.now self.old.master.sent;
        } }
    {
        self.clock = stamp;
        self.clones.enter(id, state, listed);
        forget_all_sent(&mut self.sent, id);
    }
}

// The tables of pairs get their namespace, in the room that was made.
fn add_owners(catalog: &mut Catalog, pairs: &[IdPair], namespace: Ident)
    requires room { length pairs.now ≤ catalog.old.room }
    requires unowned { Unowned namespace catalog.old.catalog.owners pairs.now }
    ensures catalog { catalog.new.catalog ≡ record catalog.old.catalog { owners = catalog.old.catalog.owners ++ map (owner_by namespace) pairs.now } }
{
    for pair in pairs {
        catalog.add_owner(target_table(pair), namespace);
    }
}

// The target tablets of pairs become active, in the room that was made.
fn begin_all(activity: &mut Tablets, pairs: &[TabletPair], at: HybridTime)
    requires room { length pairs.now ≤ activity.old.room }
    ensures activity { activity.new.activity ≡ activity.old.activity ++ cloned_activity at pairs.now }
{
    for pair in pairs {
        activity.begin(target_interval(pair, at));
    }
}

// The table that stands for a source's.
fn target_table(pair: &IdPair) -> Ident
    ensures exact { result ≡ pair.now.target }
{
    pair.target
}

// The interval of a target tablet from a time on.
fn target_interval(pair: &TabletPair, at: HybridTime) -> Interval
    ensures exact { result ≡ target_at at pair.now }
{
    Interval {
        slot: pair.slot,
        tablet: pair.target,
        table: pair.table,
        range: pair.range,
        from: at,
        to: None,
    }
}

// The state that a clone enters when all its rows are copied.
fn after_copies(clone: &CloneRecord) -> CloneState
    ensures exact { (serving : Id) (copied_at : ℕ) → clone.now.state ≡ book.Copying serving copied_at → state_of result ≡ book.CloneReleasing serving copied_at }
{
    match clone.state {
        CloneState::Copying { serving, copied_at } => CloneState::Releasing { serving, copied_at },
        state => state,
    }
}
