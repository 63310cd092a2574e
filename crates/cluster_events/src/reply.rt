use crate::lines::{CloneLine, RestorationLine, ScheduleLine, SnapshotLine, TabletLine};
use crate::place::TabletPlace;
use crate::refusal::Refusal;
use crate::state::State;
use crate::work::{Removal, WorkItem};
use hybrid_time::HybridTime;
use row_values::{Copied, NoMemory, Records, Rows, Slots};
use table_schema::Column;
use tablet_inbox::BodyKind;
use yb_ident::Ident;

/// What an event answers.
#[derive(Debug, Drop, PartialEq, Eq)]
pub enum Reply {
    /// It was done, and these were made.
    Ok {
        made: Records<Ident>,
    },
    Planned(Slots),
    Placed {
        places: Records<TabletPlace>,
        version: u32,
        columns: Records<Column>,
    },
    Work(Option<WorkItem>),
    Removable(Records<Removal>),
    Present(Slots),
    Rows(Rows),
    CutoffAt(HybridTime),
    /// So many versions before and after.
    Compacted {
        before: u64,
        after: u64,
    },
    Sent,
    Done {
        operation: Ident,
        kind: BodyKind,
    },
    Acked,
    Advanced(State),
    Removed,
    Pruned(u64),
    /// Numbers of versions, of versions in frozen sets, and of commands in the inbox.
    Stats {
        cutoff: HybridTime,
        versions: u64,
        frozen: u64,
        inbox: u64,
    },
    /// The slot has no tablet.
    Empty,
    Schedules(Records<ScheduleLine>),
    Snapshots(Records<SnapshotLine>),
    Restorations(Records<RestorationLine>),
    Clones(Records<CloneLine>),
    Tablets(Records<TabletLine>),
    Refused(Refusal),
}

impl Copied for Reply {
    fn copy(&self) -> Result<Reply, NoMemory> {
        match self {
            Reply::Ok { made } => Ok(Reply::Ok { made: made.copy()? }),
            Reply::Planned(slots) => Ok(Reply::Planned(slots.copy()?)),
            Reply::Placed {
                places,
                version,
                columns,
            } => Ok(Reply::Placed {
                places: places.copy()?,
                version: *version,
                columns: columns.copy()?,
            }),
            Reply::Work(item) => Ok(Reply::Work(*item)),
            Reply::Removable(targets) => Ok(Reply::Removable(targets.copy()?)),
            Reply::Present(slots) => Ok(Reply::Present(slots.copy()?)),
            Reply::Rows(rows) => Ok(Reply::Rows(rows.copy()?)),
            Reply::CutoffAt(cutoff) => Ok(Reply::CutoffAt(*cutoff)),
            Reply::Compacted { before, after } => Ok(Reply::Compacted {
                before: *before,
                after: *after,
            }),
            Reply::Sent => Ok(Reply::Sent),
            Reply::Done { operation, kind } => Ok(Reply::Done {
                operation: *operation,
                kind: *kind,
            }),
            Reply::Acked => Ok(Reply::Acked),
            Reply::Advanced(state) => Ok(Reply::Advanced(*state)),
            Reply::Removed => Ok(Reply::Removed),
            Reply::Pruned(count) => Ok(Reply::Pruned(*count)),
            Reply::Stats {
                cutoff,
                versions,
                frozen,
                inbox,
            } => Ok(Reply::Stats {
                cutoff: *cutoff,
                versions: *versions,
                frozen: *frozen,
                inbox: *inbox,
            }),
            Reply::Empty => Ok(Reply::Empty),
            Reply::Schedules(lines) => Ok(Reply::Schedules(lines.copy()?)),
            Reply::Snapshots(lines) => Ok(Reply::Snapshots(lines.copy()?)),
            Reply::Restorations(lines) => Ok(Reply::Restorations(lines.copy()?)),
            Reply::Clones(lines) => Ok(Reply::Clones(lines.copy()?)),
            Reply::Tablets(lines) => Ok(Reply::Tablets(lines.copy()?)),
            Reply::Refused(why) => Ok(Reply::Refused(why.copy()?)),
        }
    }
}
