ghost use Rattle.std.specs.Prelude.{◌≡◌, IfOk};
ghost use Rattle.model.specs.Parts.{empty_master};

use crate::drawn::Drawn;
use crate::sent::Sent;
use catalog_core::Catalog;
use catalog_tablets::Tablets;
use clone_coord::Clones;
use hybrid_time::HybridTime;
use restore_coord::Restorations;
use row_values::NoMemory;
use schedules::{ScheduleList, ScheduledNamespaces};
use snapshot_coord::Snapshots;
use std::alloc::Global;
use std::marker::Model;

/// The master's part. Contracts see it as the book's master, and for how many more records and
/// intervals there is room.
#[derive(Drop)]
pub struct MasterPart {
    pub(crate) clock: HybridTime,
    pub(crate) slots: u32,
    pub(crate) catalog: Catalog,
    pub(crate) activity: Tablets,
    pub(crate) schedules: ScheduleList,
    pub(crate) scheduled: ScheduledNamespaces,
    pub(crate) snapshots: Snapshots,
    pub(crate) restorations: Restorations,
    pub(crate) clones: Clones,
    pub(crate) sent: Vec<Sent>,
    pub(crate) drawn: Drawn,
}

impl Model for MasterPart {
    ghost use Rattle.std.specs.Prelude.{◌-◌, vec_len, vec_capacity};
    ghost use Rattle.master_part.specs.View.{MasterView};

    ghost Value = { MasterView };

    ghost view = { λ p. record {
      master = record {
        clock = p.clock;
        slots = p.slots;
        catalog = p.catalog.catalog;
        activity = p.activity.activity;
        schedules = p.schedules.schedules;
        scheduled = p.scheduled.scheduled;
        snapshots = p.snapshots.snapshots;
        restorations = p.restorations.restorations;
        clones = p.clones.clones;
        sent = p.sent.items;
        drawn = p.drawn;
      };
      catalog_room = p.catalog.room;
      activity_room = p.activity.room;
      schedule_room = p.schedules.room;
      scheduled_room = p.scheduled.room;
      sent_room = vec_capacity p.sent - vec_len p.sent;
      snapshot_room = p.snapshots.room;
      restoration_room = p.restorations.room;
      clone_room = p.clones.room;
    } };
}

impl MasterPart {
    /// The master's part of the empty cluster with so many slots.
    pub fn empty(alloc: Global, slots: u32) -> Result<MasterPart, NoMemory>
        ensures empty { IfOk result (λ part. part.master ≡ empty_master slots) }
    {
        Ok(MasterPart {
            clock: HybridTime { value: 0 },
            slots,
            catalog: Catalog::new(alloc),
            activity: Tablets::for_slots(alloc, slots)?,
            schedules: ScheduleList::new(alloc),
            scheduled: ScheduledNamespaces::new(alloc),
            snapshots: Snapshots::new(alloc),
            restorations: Restorations::new(alloc),
            clones: Clones::new(alloc),
            sent: Vec::new(alloc),
            drawn: Drawn {
                namespaces: 0,
                tables: 0,
                tablets: 0,
                schedules: 0,
                snapshots: 0,
                restorations: 0,
                clones: 0,
            },
        })
    }

    /// The last stamp.
    pub fn clock(&self) -> HybridTime
        ensures clock { result ≡ self.now.master.clock }
    {
        self.clock
    }

    /// The number of slots for tablets.
    pub fn slots(&self) -> u32
        ensures slots { result ≡ self.now.master.slots }
    {
        self.slots
    }

    /// The catalog.
    pub fn catalog(&self) -> &Catalog
        ensures catalog { result.now.catalog ≡ self.now.master.catalog }
    {
        &self.catalog
    }

    /// The activity of all tablets.
    pub fn tablets(&self) -> &Tablets
        ensures activity { result.now.activity ≡ self.now.master.activity }
    {
        &self.activity
    }

    /// The schedules.
    pub fn schedules(&self) -> &ScheduleList
        ensures schedules { result.now.schedules ≡ self.now.master.schedules }
    {
        &self.schedules
    }

    /// The namespaces that have schedules.
    pub fn scheduled(&self) -> &ScheduledNamespaces
        ensures scheduled { result.now.scheduled ≡ self.now.master.scheduled }
    {
        &self.scheduled
    }

    /// The records of snapshots.
    pub fn snapshots(&self) -> &Snapshots
        ensures snapshots { result.now.snapshots ≡ self.now.master.snapshots }
    {
        &self.snapshots
    }

    /// The records of restorations.
    pub fn restorations(&self) -> &Restorations
        ensures restorations { result.now.restorations ≡ self.now.master.restorations }
    {
        &self.restorations
    }

    /// The records of clones.
    pub fn clones(&self) -> &Clones
        ensures clones { result.now.clones ≡ self.now.master.clones }
    {
        &self.clones
    }

    /// The allocator of its lists. No clause speaks of an allocator.
    pub fn alloc(&self) -> Global
        ensures kept { self.now ≡ self.now }
    {
        *self.sent.allocator()
    }
}
