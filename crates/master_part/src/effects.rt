//! What the master's part does when it is told, under a stamp.
ghost use Rattle.std.specs.Prelude.{ℕ, ◌≡◌, ◌≤◌, ◌<◌, ◌+◌, OnOk, List, length};
ghost use Rattle.row_values.specs.Ids.{id_bound};
ghost use Rattle.row_values.specs.Schema.{NewColumn, Schema, first_schema};
ghost use Rattle.model.specs.Catalog.{TableRecord};
ghost use Rattle.model.specs.Changed.{table_changed};
ghost use Rattle.model.specs.Parts.{Ticks, MakesNamespace, DropsNamespace, MakesTable, DropsTable, SplitsTablet, MakesSchedule, EditsSchedule, DeletesSchedule, Restarts};
ghost use Rattle.model.specs.History.{master_effect};
ghost use Rattle.schedules.specs.Periods.{IsPeriod};
ghost use Rattle.master_part.specs.Acts.{NamespaceFits, TableFits, SplitFits, ChangeFits, goes_on};

use crate::fields::tablet_of;
use crate::part::MasterPart;
use catalog_core::{NamespaceRecord, TableRecord};
use catalog_tablets::Interval;
use hybrid_time::HybridTime;
use row_values::{Name, NoMemory};
use schedules::Schedule;
use table_schema::Schema;
use yb_ident::Ident;

impl MasterPart {
    /// Sets the clock.
    pub fn tick(&mut self, stamp: HybridTime)
        ensures master { self.new.master ≡ master_effect Ticks stamp self.old.master }
    {
        self.clock = stamp;
    }

    /// Makes room for a namespace.
    pub fn prepare_namespace(&mut self) -> Result<(), NoMemory>
        ensures master { self.new.master ≡ self.old.master }
        ensures room { OnOk result (1 ≤ self.new.catalog_room) }
    {
        self.catalog.prepare(1)
    }

    /// Makes a namespace, in the room that was made.
    pub fn make_namespace(&mut self, name: Name, stamp: HybridTime)
        requires room { 1 ≤ self.old.catalog_room }
        requires fits { NamespaceFits name self.old.master }
        ensures master { self.new.master ≡ master_effect (MakesNamespace name) stamp self.old.master }
    {
        let id = self.next_namespace();
        self.clock = stamp;
        self.drawn.namespaces += 1;
        self.catalog.add_namespace(NamespaceRecord {
            id,
            name,
            from: stamp,
            to: None,
        });
    }

    /// Ends a namespace.
    pub fn drop_namespace(&mut self, namespace: &Ident, stamp: HybridTime)
        ensures master { self.new.master ≡ master_effect (DropsNamespace namespace.now) stamp self.old.master }
    {
        self.clock = stamp;
        self.catalog.end_namespace(namespace, stamp);
    }

    /// Makes room for a table of so many tablets.
    pub fn prepare_table(&mut self, tablets: usize) -> Result<(), NoMemory>
        ensures master { self.new.master ≡ self.old.master }
        ensures room { OnOk result (1 ≤ self.new.catalog_room) }
        ensures places { OnOk result (tablets ≤ self.new.activity_room) }
    {
        self.catalog.prepare(1)?;
        self.activity.prepare(tablets)?;
        Ok(())
    }

    /// Makes a table with a tablet in each of the slots, in the room that was made.
    pub fn make_table(
        &mut self,
        namespace: Ident,
        name: Name,
        schema: Schema,
        slots: &[u32],
        stamp: HybridTime,
    )
        requires room { 1 ≤ self.old.catalog_room }
        requires places { length slots.now ≤ self.old.activity_room }
        requires fits { TableFits namespace name slots.now stamp self.old.master }
        ensures master { (columns : List NewColumn) → first_schema columns ≡ schema → self.new.master ≡ master_effect (MakesTable namespace name columns slots.now) stamp self.old.master }
    {
        let id = self.next_table();
        let drawn = self.drawn.tablets;
        self.clock = stamp;
        self.activity.begin_shares(id, slots, drawn, stamp);
        self.drawn.tables += 1;
        self.drawn.tablets += slots.len() as u64;
        self.catalog.add_table(TableRecord {
            id,
            namespace,
            name,
            schema,
            from: stamp,
            to: None,
        });
    }

    /// Makes room for the next record of a table.
    pub fn prepare_change(&mut self) -> Result<(), NoMemory>
        ensures master { self.new.master ≡ self.old.master }
        ensures room { OnOk result (1 ≤ self.new.catalog_room) }
    {
        self.catalog.prepare(1)
    }

    /// A table goes on under another name or schema, in the room that was made.
    pub fn change_table(&mut self, made: TableRecord, stamp: HybridTime)
        requires room { 1 ≤ self.old.catalog_room }
        requires fits { ChangeFits made stamp self.old.master }
        ensures master { (t : TableRecord) (name : List ℕ) (schema : Schema) → goes_on t name schema stamp ≡ made → self.new.master ≡ table_changed t name schema stamp self.old.master }
    {
        self.clock = stamp;
        self.catalog.replace_table(made);
    }

    /// Ends a table, and hides its tablets.
    pub fn drop_table(&mut self, table: &Ident, stamp: HybridTime)
        ensures master { self.new.master ≡ master_effect (DropsTable table.now) stamp self.old.master }
    {
        self.clock = stamp;
        self.catalog.end_table(table, stamp);
        self.activity.end_table_tablets(table, stamp);
    }

    /// Makes room for the children of a split.
    pub fn prepare_split(&mut self) -> Result<(), NoMemory>
        ensures master { self.new.master ≡ self.old.master }
        ensures places { OnOk result (2 ≤ self.new.activity_room) }
    {
        self.activity.prepare(2)
    }

    /// Hides a tablet, and makes its two children, in the room that was made.
    pub fn split_tablet(
        &mut self,
        parent: &Interval,
        code: u16,
        low_slot: u32,
        high_slot: u32,
        stamp: HybridTime,
    )
        requires places { 2 ≤ self.old.activity_room }
        requires fits { SplitFits parent.now code self.old.master }
        ensures master { self.new.master ≡ master_effect (SplitsTablet parent.now code low_slot high_slot) stamp self.old.master }
    {
        let drawn = self.drawn.tablets;
        self.clock = stamp;
        self.drawn.tablets += 2;
        self.activity.end_tablet(&tablet_of(parent), stamp);
        self.activity
            .begin_children(parent, code, low_slot, high_slot, drawn, stamp);
    }

    /// Makes room for a schedule.
    pub fn prepare_schedule(&mut self) -> Result<(), NoMemory>
        ensures master { self.new.master ≡ self.old.master }
        ensures schedule { OnOk result (1 ≤ self.new.schedule_room) }
        ensures scheduled { OnOk result (1 ≤ self.new.scheduled_room) }
    {
        self.schedules.prepare()?;
        self.scheduled.prepare()?;
        Ok(())
    }

    /// Makes a schedule, in the room that was made.
    pub fn make_schedule(
        &mut self,
        namespace: Ident,
        interval: u64,
        retention: u64,
        stamp: HybridTime,
    )
        requires schedule { 1 ≤ self.old.schedule_room }
        requires scheduled { 1 ≤ self.old.scheduled_room }
        requires few { self.old.master.drawn.schedules + 1 < id_bound }
        requires period { IsPeriod interval retention }
        ensures master { self.new.master ≡ master_effect (MakesSchedule namespace interval retention) stamp self.old.master }
    {
        let id = self.next_schedule();
        self.clock = stamp;
        self.drawn.schedules += 1;
        self.scheduled.begin(namespace, stamp);
        self.schedules.add(Schedule {
            id,
            namespace,
            interval,
            retention,
            made: stamp,
            kept_low: stamp,
            last: None,
        });
    }

    /// Gives a schedule other periods.
    pub fn edit_schedule(
        &mut self,
        schedule: &Ident,
        interval: u64,
        retention: u64,
        stamp: HybridTime,
    )
        requires period { IsPeriod interval retention }
        ensures master { self.new.master ≡ master_effect (EditsSchedule schedule.now interval retention) stamp self.old.master }
    {
        self.clock = stamp;
        self.schedules
            .set_periods(schedule, interval, retention, stamp);
    }

    /// Deletes a schedule.
    pub fn delete_schedule(&mut self, schedule: &Ident, stamp: HybridTime)
        ensures master { self.new.master ≡ master_effect (DeletesSchedule schedule.now) stamp self.old.master }
    {
        self.clock = stamp;
        self.schedules.remove(schedule);
        self.scheduled.keep_scheduled(&self.schedules);
    }

    /// Restarts: the sent marks are lost, and nothing else.
    pub fn restart(&mut self, stamp: HybridTime)
        ensures master { self.new.master ≡ master_effect Restarts stamp self.old.master }
    {
        self.clock = stamp;
        self.sent.clear();
    }
}
