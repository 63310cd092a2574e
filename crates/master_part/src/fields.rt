//! Fields of records, as the book's.
ghost use Rattle.std.specs.Prelude.{◌≡◌};
ghost use Rattle.restore_coord.specs.Seen as restorations;
ghost use Rattle.yb_ident.specs.Seen as kinds;

use catalog_core::TableRecord;
use catalog_tablets::Interval;
use clone_coord::{CloneRecord, IdPair, TabletPair};
use hybrid_time::HybridTime;
use restore_coord::{RestorationRecord, RestorationState};
use schedules::Schedule;
use snapshot_coord::SnapshotRecord;
use yb_ident::{Ident, Kind};

/// The identifier of a restoration.
pub fn restoration_id(restoration: &RestorationRecord) -> Ident
    ensures exact { result ≡ restoration.now.id }
{
    restoration.id
}

/// The namespace of a restoration.
pub fn restoration_namespace(restoration: &RestorationRecord) -> Ident
    ensures exact { result ≡ restoration.now.namespace }
{
    restoration.namespace
}

/// The schedule of a restoration.
pub fn restoration_schedule(restoration: &RestorationRecord) -> Ident
    ensures exact { result ≡ restoration.now.schedule }
{
    restoration.schedule
}

/// How far a restoration is.
pub fn restoration_state(restoration: &RestorationRecord) -> RestorationState
    ensures exact { restorations.state_of result ≡ restoration.now.state }
{
    restoration.state
}

/// The identifier of a clone.
pub fn clone_id(clone: &CloneRecord) -> Ident
    ensures exact { result ≡ clone.now.id }
{
    clone.id
}

/// The namespace that a clone takes its tables from.
pub fn clone_source(clone: &CloneRecord) -> Ident
    ensures exact { result ≡ clone.now.source }
{
    clone.source
}

/// The namespace that a clone makes.
pub fn clone_target(clone: &CloneRecord) -> Ident
    ensures exact { result ≡ clone.now.target_id }
{
    clone.target_id
}

/// The tables of a clone.
pub fn clone_tables(clone: &CloneRecord) -> &[IdPair]
    ensures exact { result.now ≡ clone.now.tables }
{
    clone.tables.as_slice()
}

/// The tablets of a clone.
pub fn clone_tablets(clone: &CloneRecord) -> &[TabletPair]
    ensures exact { result.now ≡ clone.now.tablets }
{
    clone.tablets.as_slice()
}

/// The identifier of a table.
pub fn table_id(table: &TableRecord) -> Ident
    ensures exact { result ≡ table.now.id }
{
    table.id
}

/// The tablet of an interval.
pub fn tablet_of(interval: &Interval) -> Ident
    ensures exact { result ≡ interval.now.tablet }
{
    interval.tablet
}

/// The identifier of a schedule.
pub fn schedule_id(schedule: &Schedule) -> Ident
    ensures exact { result ≡ schedule.now.id }
{
    schedule.id
}

/// The identifier of a snapshot.
pub fn snapshot_id(snapshot: &SnapshotRecord) -> Ident
    ensures exact { result ≡ snapshot.now.id }
{
    snapshot.id
}

/// The schedule of a snapshot.
pub fn snapshot_schedule(snapshot: &SnapshotRecord) -> Ident
    ensures exact { result ≡ snapshot.now.schedule }
{
    snapshot.schedule
}

/// The namespace of a snapshot.
pub fn snapshot_namespace(snapshot: &SnapshotRecord) -> Ident
    ensures exact { result ≡ snapshot.now.namespace }
{
    snapshot.namespace
}

/// The time of a snapshot.
pub fn snapshot_time(snapshot: &SnapshotRecord) -> HybridTime
    ensures exact { result ≡ snapshot.now.at }
{
    snapshot.at
}

/// The namespace of a schedule.
pub fn scheduled_namespace(schedule: &Schedule) -> Ident
    ensures exact { result ≡ schedule.now.namespace }
{
    schedule.namespace
}

pub fn kind_of(id: &Ident) -> Kind
    ensures exact { kinds.kind_of result ≡ id.now.kind }
{
    id.kind
}

/// The number of a tablet.
pub fn number_of(interval: &Interval) -> u64
    ensures exact { result ≡ interval.now.tablet.number }
{
    interval.tablet.number
}

/// The number of a tablet's table.
pub fn table_number(interval: &Interval) -> u64
    ensures exact { result ≡ interval.now.table.number }
{
    interval.table.number
}
