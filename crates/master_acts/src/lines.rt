//! A line of each list that the master tells.
ghost use Rattle.std.specs.Prelude.{◌≡◌, [], unwrap_or, IfOk};
ghost use Rattle.model.specs.Catalog.{name_of};
ghost use Rattle.model.specs.Records.{snapshot_state, restoration_state, clone_state, point_of};
ghost use Rattle.restore_coord.specs.Seen as restorations;
ghost use Rattle.clone_coord.specs.Seen as clones;
ghost use Rattle.cluster_events.specs.SeenStates.{state_of};
ghost use Rattle.master_acts.specs.Lines as book;

use catalog_tablets::Interval;
use clone_coord::{CloneRecord, CloneState};
use cluster_events::{CloneLine, RestorationLine, ScheduleLine, SnapshotLine, State, TabletLine};
use hybrid_time::HybridTime;
use master_part::{MasterPart, scheduled_namespace};
use restore_coord::{RestorationRecord, RestorationState};
use row_values::{Copied, Name, NoMemory};
use schedules::Schedule;
use snapshot_coord::SnapshotRecord;
use yb_ident::Ident;

/// The line of a schedule at a stamp.
pub fn schedule_line(
    master: &MasterPart,
    schedule: &Schedule,
    stamp: HybridTime,
) -> Result<ScheduleLine, NoMemory>
    ensures exact { IfOk result (λ line. line ≡ book.schedule_line stamp master.now.master schedule.now) }
{
    let namespace = name_of(master, &scheduled_namespace(schedule))?;
    Ok(ScheduleLine {
        id: schedule.id,
        namespace,
        interval: schedule.interval,
        retention: schedule.retention,
        low: schedule.low(stamp),
    })
}

/// The line of a snapshot.
pub fn snapshot_line(snapshot: &SnapshotRecord) -> SnapshotLine
    ensures exact { result ≡ book.snapshot_line snapshot.now }
{
    SnapshotLine {
        id: snapshot.id,
        schedule: snapshot.schedule,
        state: if snapshot.complete {
            State::Complete
        } else {
            State::Creating
        },
        after: snapshot.after,
        at: snapshot.at,
    }
}

/// The line of a restoration.
pub fn restoration_line(restoration: &RestorationRecord) -> RestorationLine
    ensures exact { result ≡ book.restoration_line restoration.now }
{
    RestorationLine {
        id: restoration.id,
        schedule: restoration.schedule,
        state: restoration_state(&restoration.state),
        to: restoration.to,
        point: point_of(&restoration.state),
    }
}

/// The line of a clone.
pub fn clone_line(clone: &CloneRecord) -> Result<CloneLine, NoMemory>
    ensures exact { IfOk result (λ line. line ≡ book.clone_line clone.now) }
{
    Ok(CloneLine {
        id: clone.id,
        source: clone.source_name.copy()?,
        target: clone.target.copy()?,
        state: clone_state(&clone.state),
        to: clone.to,
    })
}

/// The line of a tablet, by its last interval.
pub fn tablet_line(interval: &Interval) -> TabletLine
    ensures exact { result ≡ book.tablet_line interval.now }
{
    TabletLine {
        tablet: interval.tablet,
        table: interval.table,
        slot: interval.slot,
        range: interval.range,
        ended: interval.to,
    }
}

// The name of a namespace, empty where it has none now.
fn name_of(master: &MasterPart, namespace: &Ident) -> Result<Name, NoMemory>
    ensures exact { IfOk result (λ name. name ≡ unwrap_or (name_of master.now.master.catalog.namespaces namespace.now) []) }
{
    match master.catalog().name_of(namespace) {
        Some(name) => name.copy(),
        None => Ok(Name::new(master.alloc())),
    }
}

fn restoration_state(state: &RestorationState) -> State
    ensures exact { state_of result ≡ restoration_state (restorations.state_of state.now) }
{
    match state {
        RestorationState::Fencing => State::Fencing,
        RestorationState::Snapshotting { .. } => State::Snapshot,
        RestorationState::Switching { .. } => State::Switching,
        RestorationState::Restoring { .. } => State::Restoring,
        RestorationState::Releasing { .. } => State::Releasing,
        RestorationState::Restored { .. } => State::Restored,
    }
}

fn point_of(state: &RestorationState) -> Option<HybridTime>
    ensures exact { result ≡ point_of (restorations.state_of state.now) }
{
    match state {
        RestorationState::Fencing => None,
        RestorationState::Snapshotting { point, .. } => Some(*point),
        RestorationState::Switching { point, .. } => Some(*point),
        RestorationState::Restoring { point, .. } => Some(*point),
        RestorationState::Releasing { point, .. } => Some(*point),
        RestorationState::Restored { point, .. } => Some(*point),
    }
}

fn clone_state(state: &CloneState) -> State
    ensures exact { state_of result ≡ clone_state (clones.state_of state.now) }
{
    match state {
        CloneState::Accepted => State::Accepted,
        CloneState::Snapshotting { .. } => State::Snapshot,
        CloneState::Copying { .. } => State::Copying,
        CloneState::Releasing { .. } => State::Releasing,
        CloneState::Complete { .. } => State::Complete,
    }
}
