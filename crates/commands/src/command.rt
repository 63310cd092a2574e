use hybrid_time::HybridTime;
use row_values::{Copied, Name, NoMemory, Records};
use table_schema::{Kind, NewColumn};
use yb_ident::Ident;

/// A command to the master, of a client or an administrator.
#[derive(Debug, Drop, PartialEq, Eq)]
pub enum Command {
    CreateNamespace {
        namespace: Name,
    },
    DropNamespace {
        namespace: Name,
    },
    /// A table of so many tablets.
    CreateTable {
        namespace: Name,
        table: Name,
        tablets: u32,
        columns: Records<NewColumn>,
    },
    AddColumn {
        namespace: Name,
        table: Name,
        name: Name,
        kind: Kind,
    },
    DropColumn {
        namespace: Name,
        table: Name,
        name: Name,
    },
    /// Gives the table this name.
    RenameTable {
        namespace: Name,
        table: Name,
        name: Name,
    },
    DropTable {
        namespace: Name,
        table: Name,
    },
    /// Splits the tablet of this partition code, there.
    Split {
        namespace: Name,
        table: Name,
        code: u16,
    },
    /// The interval and the retention are in minutes.
    CreateSnapshotSchedule {
        interval: u64,
        retention: u64,
        namespace: Name,
    },
    /// Gives the schedule another interval and another retention, in minutes.
    EditSnapshotSchedule {
        schedule: Ident,
        interval: u64,
        retention: u64,
    },
    DeleteSnapshotSchedule {
        schedule: Ident,
    },
    TakeSnapshot {
        schedule: Ident,
    },
    RestoreSnapshotSchedule {
        schedule: Ident,
        to: HybridTime,
    },
    /// Without a time the clone is of the source just before the command's own stamp.
    CloneNamespace {
        source: Name,
        target: Name,
        to: Option<HybridTime>,
    },
    ListSnapshotSchedules,
    ListSnapshots,
    ListSnapshotRestorations,
    ListClones,
    ListTablets {
        namespace: Name,
    },
}

impl Copied for Command {
    fn copy(&self) -> Result<Command, NoMemory> {
        match self {
            Command::CreateNamespace { namespace } => Ok(Command::CreateNamespace {
                namespace: namespace.copy()?,
            }),
            Command::DropNamespace { namespace } => Ok(Command::DropNamespace {
                namespace: namespace.copy()?,
            }),
            Command::CreateTable {
                namespace,
                table,
                tablets,
                columns,
            } => Ok(Command::CreateTable {
                namespace: namespace.copy()?,
                table: table.copy()?,
                tablets: *tablets,
                columns: columns.copy()?,
            }),
            Command::AddColumn {
                namespace,
                table,
                name,
                kind,
            } => Ok(Command::AddColumn {
                namespace: namespace.copy()?,
                table: table.copy()?,
                name: name.copy()?,
                kind: *kind,
            }),
            Command::DropColumn {
                namespace,
                table,
                name,
            } => Ok(Command::DropColumn {
                namespace: namespace.copy()?,
                table: table.copy()?,
                name: name.copy()?,
            }),
            Command::RenameTable {
                namespace,
                table,
                name,
            } => Ok(Command::RenameTable {
                namespace: namespace.copy()?,
                table: table.copy()?,
                name: name.copy()?,
            }),
            Command::DropTable { namespace, table } => Ok(Command::DropTable {
                namespace: namespace.copy()?,
                table: table.copy()?,
            }),
            Command::Split {
                namespace,
                table,
                code,
            } => Ok(Command::Split {
                namespace: namespace.copy()?,
                table: table.copy()?,
                code: *code,
            }),
            Command::CreateSnapshotSchedule {
                interval,
                retention,
                namespace,
            } => Ok(Command::CreateSnapshotSchedule {
                interval: *interval,
                retention: *retention,
                namespace: namespace.copy()?,
            }),
            Command::EditSnapshotSchedule {
                schedule,
                interval,
                retention,
            } => Ok(Command::EditSnapshotSchedule {
                schedule: *schedule,
                interval: *interval,
                retention: *retention,
            }),
            Command::DeleteSnapshotSchedule { schedule } => Ok(Command::DeleteSnapshotSchedule {
                schedule: *schedule,
            }),
            Command::TakeSnapshot { schedule } => Ok(Command::TakeSnapshot {
                schedule: *schedule,
            }),
            Command::RestoreSnapshotSchedule { schedule, to } => Ok(
                Command::RestoreSnapshotSchedule {
                    schedule: *schedule,
                    to: *to,
                },
            ),
            Command::CloneNamespace { source, target, to } => Ok(Command::CloneNamespace {
                source: source.copy()?,
                target: target.copy()?,
                to: *to,
            }),
            Command::ListSnapshotSchedules => Ok(Command::ListSnapshotSchedules),
            Command::ListSnapshots => Ok(Command::ListSnapshots),
            Command::ListSnapshotRestorations => Ok(Command::ListSnapshotRestorations),
            Command::ListClones => Ok(Command::ListClones),
            Command::ListTablets { namespace } => Ok(Command::ListTablets {
                namespace: namespace.copy()?,
            }),
        }
    }
}
