use crate::cut::Cut;
use crate::switch::Switch;
use catalog_core::TableRecord;
use catalog_tablets::Interval;
use clone_coord::{CloneRecord, CloneState};
use hybrid_time::HybridTime;
use restore_coord::{RestorationRecord, RestorationState};
use row_values::{Name, Records, Slots};
use schedules::Schedule;
use snapshot_coord::SnapshotRecord;
use table_schema::{Column, Kind, NewColumn, Schema};
use tablet_inbox::Listed;
use yb_ident::Ident;

/// What the master is told: of a command what was found, so that no name is resolved again, and what
/// was made of it while memory could be had.
#[derive(Drop)]
pub enum MasterAct {
    /// Sets the clock alone.
    Ticks,
    MakesNamespace {
        name: Name,
    },
    DropsNamespace {
        namespace: Ident,
    },
    /// A table with a tablet in each of the slots. The schema is that of the columns.
    MakesTable {
        namespace: Ident,
        name: Name,
        columns: Records<NewColumn>,
        schema: Schema,
        slots: Slots,
    },
    /// A table goes on with one more column, under the record that was made.
    AddsColumn {
        table: TableRecord,
        name: Name,
        kind: Kind,
        made: TableRecord,
    },
    /// The same without a column.
    DropsColumn {
        table: TableRecord,
        column: Column,
        made: TableRecord,
    },
    /// The same under another name.
    RenamesTable {
        table: TableRecord,
        name: Name,
        made: TableRecord,
    },
    DropsTable {
        table: Ident,
    },
    SplitsTablet {
        parent: Interval,
        code: u16,
        low_slot: u32,
        high_slot: u32,
    },
    /// The interval and the retention are in minutes.
    MakesSchedule {
        namespace: Ident,
        interval: u64,
        retention: u64,
    },
    EditsSchedule {
        schedule: Ident,
        interval: u64,
        retention: u64,
    },
    DeletesSchedule {
        schedule: Ident,
    },
    /// A snapshot by a schedule, whose record is at hand.
    TakesSnapshot {
        schedule: Schedule,
        made: SnapshotRecord,
    },
    /// A restoration by a schedule to a time.
    BeginsRestoration {
        schedule: Schedule,
        to: HybridTime,
        made: RestorationRecord,
    },
    /// A command of an operation went to the tablet of a slot.
    Sends {
        operation: Ident,
        slot: u32,
    },
    /// The tablet of a slot did its command of an operation.
    Acks {
        operation: Ident,
        slot: u32,
    },
    /// It did not, so that the command is to be sent again.
    Unsends {
        operation: Ident,
        slot: u32,
    },
    /// All tablets of a snapshot froze.
    CompletesSnapshot {
        operation: Ident,
    },
    /// All tablets of a restoration's namespace are fenced, and it makes its own snapshot.
    SnapshotsRestoration {
        operation: Ident,
        made: SnapshotRecord,
    },
    /// A restoration enters a state with the tablets that it lists there, and nothing else becomes of the master.
    MovesRestoration {
        operation: Ident,
        state: RestorationState,
        listed: Records<Listed>,
    },
    /// The switch of a restoration: from its point on, tables and active tablets are those of its time.
    SwitchesRestoration {
        operation: Ident,
        switch: Switch,
    },
    /// A clone of a namespace, found under the name `source`, to a time. Its record has what is reserved.
    BeginsClone {
        namespace: Ident,
        source: Name,
        target: Name,
        to: HybridTime,
        made: CloneRecord,
    },
    /// No snapshot serves an accepted clone, and it makes one.
    SnapshotsClone {
        operation: Ident,
        made: SnapshotRecord,
    },
    /// A clone enters a state with the tablets that it lists there, and nothing else becomes of the master.
    MovesClone {
        operation: Ident,
        state: CloneState,
        listed: Records<Listed>,
    },
    /// All rows of a clone are copied: its target becomes current under its name, with these tables.
    ShowsClone {
        operation: Ident,
        name: Name,
        tables: Records<TableRecord>,
        listed: Records<Listed>,
    },
    /// A tablet is forgotten, or a snapshot's record goes.
    Removes {
        target: Ident,
    },
    /// The catalog's old records go: of each namespace those that ended by its cut.
    Prunes {
        cuts: Records<Cut>,
    },
    /// Loses the sent marks.
    Restarts,
}
