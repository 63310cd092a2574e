//! What the master's part does where a snapshot or a restoration begins.
ghost use Rattle.std.specs.Prelude.{ℕ, ◌≡◌, ◌≤◌, ◌<◌, ◌+◌, IfOk, OnOk};
ghost use Rattle.row_values.specs.Ids.{id_bound};
ghost use Rattle.model.specs.Parts.{TakesSnapshot, BeginsRestoration};
ghost use Rattle.model.specs.Lists.{new_snapshot, next_snapshot};
ghost use Rattle.model.specs.Changed.{next_restoration};
ghost use Rattle.model.specs.History.{master_effect};
ghost use Rattle.master_part.specs.Acts.{new_restoration};

use crate::fields::{schedule_id, scheduled_namespace};
use crate::listed::listing;
use crate::part::MasterPart;
use crate::within::tablets_active_within;
use hybrid_time::HybridTime;
use restore_coord::RestorationRecord;
use row_values::NoMemory;
use schedules::Schedule;
use snapshot_coord::SnapshotRecord;
use tablet_inbox::Body;
use yb_ident::{Ident, Kind};

impl MasterPart {
    /// The identifier that the next snapshot gets.
    pub fn next_snapshot(&self) -> Ident
        requires few { self.now.master.drawn.snapshots + 1 < id_bound }
        ensures exact { result ≡ next_snapshot self.now.master }
    {
        Ident {
            kind: Kind::Snapshot,
            number: self.drawn.snapshots + 1,
        }
    }

    /// The identifier that the next restoration gets.
    pub fn next_restoration(&self) -> Ident
        requires few { self.now.master.drawn.restorations + 1 < id_bound }
        ensures exact { result ≡ next_restoration self.now.master }
    {
        Ident {
            kind: Kind::Restoration,
            number: self.drawn.restorations + 1,
        }
    }

    /// Makes room for a snapshot's record.
    pub fn prepare_snapshot(&mut self) -> Result<(), NoMemory>
        ensures master { self.new.master ≡ self.old.master }
        ensures room { OnOk result (1 ≤ self.new.snapshot_room) }
    {
        self.snapshots.prepare()
    }

    /// A snapshot by a schedule begins, in the room that was made.
    pub fn take_snapshot(&mut self, schedule: &Schedule, made: SnapshotRecord, stamp: HybridTime)
        requires room { 1 ≤ self.old.snapshot_room }
        requires few { self.old.master.drawn.snapshots + 1 < id_bound }
        requires made { new_snapshot self.old.master schedule.now.namespace schedule.now.id stamp ≡ made }
        ensures master { self.new.master ≡ master_effect (TakesSnapshot schedule.now) stamp self.old.master }
    {
        let id = schedule_id(schedule);
        let namespace = scheduled_namespace(schedule);
        self.clock = stamp;
        self.schedules.set_last(&id, stamp);
        self.scheduled.set_last(&namespace, stamp);
        self.drawn.snapshots += 1;
        self.snapshots.add(made);
    }

    /// Makes room for a restoration's record.
    pub fn prepare_restoration(&mut self) -> Result<(), NoMemory>
        ensures master { self.new.master ≡ self.old.master }
        ensures room { OnOk result (1 ≤ self.new.restoration_room) }
    {
        self.restorations.prepare()
    }

    /// A restoration by a schedule begins, in the room that was made.
    pub fn begin_restoration(
        &mut self,
        schedule: &Schedule,
        made: RestorationRecord,
        stamp: HybridTime,
    )
        requires room { 1 ≤ self.old.restoration_room }
        requires few { self.old.master.drawn.restorations + 1 < id_bound }
        ensures master { (to : ℕ) → new_restoration self.old.master schedule.now to ≡ made → self.new.master ≡ master_effect (BeginsRestoration schedule.now to) stamp self.old.master }
    {
        self.clock = stamp;
        self.drawn.restorations += 1;
        self.restorations.add(made);
    }
}

/// The record of a snapshot of a namespace at a stamp, by a schedule.
pub fn new_snapshot(
    master: &MasterPart,
    namespace: Ident,
    schedule: Ident,
    stamp: HybridTime,
) -> Result<SnapshotRecord, NoMemory>
    requires few { master.now.master.drawn.snapshots + 1 < id_bound }
    ensures exact { IfOk result (λ made. made ≡ new_snapshot master.now.master namespace schedule stamp) }
{
    let id = master.next_snapshot();
    let after = master.scheduled().after_in(&namespace);
    let tablets = tablets_active_within(
        master.alloc(),
        master.catalog(),
        master.tablets(),
        namespace,
        after,
        stamp,
    )?;
    let body = Body::Freeze {
        snapshot: id,
        at: stamp,
    };
    let listed = listing(master.alloc(), &body, tablets.as_slice())?;
    Ok(SnapshotRecord {
        id,
        complete: false,
        listed,
        schedule,
        namespace,
        after,
        at: stamp,
    })
}
