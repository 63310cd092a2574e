use crate::named::{NamedCell, NamedItem};
use crate::time::Time;
use row_values::{Key, Name, Records};
use table_schema::{Kind, NewColumn};
use yb_ident::Ident;

/// The command of a script's line. Its fields are the line's words in their order.
#[derive(Debug, Drop, PartialEq, Eq)]
pub enum ScriptCommand {
    /// Sets the reading, in microseconds.
    Tick {
        micros: u64,
    },
    /// The events of this tablet's slot alone have a reading so many microseconds earlier.
    Lag {
        slot: u32,
        micros: u64,
    },
    CreateNamespace {
        namespace: Name,
    },
    DropNamespace {
        namespace: Name,
    },
    /// A table of so many tablets.
    CreateTable {
        namespace: Name,
        table: Name,
        tablets: u32,
        columns: Records<NewColumn>,
    },
    AddColumn {
        namespace: Name,
        table: Name,
        name: Name,
        kind: Kind,
    },
    DropColumn {
        namespace: Name,
        table: Name,
        name: Name,
    },
    /// Gives the table this name.
    RenameTable {
        namespace: Name,
        table: Name,
        name: Name,
    },
    DropTable {
        namespace: Name,
        table: Name,
    },
    Put {
        namespace: Name,
        table: Name,
        key: Key,
        cells: Records<NamedCell>,
    },
    Delete {
        namespace: Name,
        table: Name,
        key: Key,
    },
    /// Writes these items under one stamp.
    Batch {
        namespace: Name,
        table: Name,
        items: Records<NamedItem>,
    },
    Get {
        namespace: Name,
        table: Name,
        key: Key,
    },
    GetAt {
        namespace: Name,
        table: Name,
        key: Key,
        at: Time,
    },
    Scan {
        namespace: Name,
        table: Name,
    },
    ScanAt {
        namespace: Name,
        table: Name,
        at: Time,
    },
    /// Splits the tablet of this partition code, there.
    Split {
        namespace: Name,
        table: Name,
        code: u16,
    },
    /// The interval and the retention are in minutes.
    CreateSnapshotSchedule {
        interval: u64,
        retention: u64,
        namespace: Name,
    },
    /// Gives the schedule another interval and another retention, in minutes.
    EditSnapshotSchedule {
        schedule: Ident,
        interval: u64,
        retention: u64,
    },
    DeleteSnapshotSchedule {
        schedule: Ident,
    },
    TakeSnapshot {
        schedule: Ident,
    },
    RestoreSnapshotSchedule {
        schedule: Ident,
        to: Time,
    },
    /// Without a time the clone is of the source just before the command's own stamp.
    CloneNamespace {
        source: Name,
        target: Name,
        to: Option<Time>,
    },
    ListSnapshotSchedules,
    ListSnapshots,
    ListSnapshotRestorations,
    ListClones,
    ListTablets {
        namespace: Name,
    },
    /// Raises the cutoff of each tablet as far as it may be.
    Cutoff,
    /// Compacts each tablet.
    Compact,
    /// Removes what may be removed.
    Cleanup,
    /// So many steps of the coordinator.
    Coordinate {
        count: u64,
    },
    /// Steps of the coordinator until nothing is left to do.
    Settle,
    RestartMaster,
    RestartTablet {
        slot: u32,
    },
    Stats {
        slot: u32,
    },
    /// Writes every entry so far.
    History,
}
