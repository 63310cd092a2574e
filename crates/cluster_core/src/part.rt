//! The parts of a cluster: the master's, and a tablet's in each slot from 1 on, each with its log.
ghost use Rattle.std.specs.Prelude.{ℕ, ◌≡◌, ◌≤◌, ◌<◌, ◌++◌, ◌∷◌, [], length, IfOk, OnOk};
ghost use Rattle.machine_laws.specs.Views.{OfMaster, OfTablet, clock_of, kept_after};
ghost use Rattle.cluster_core.specs.Tellings.{IsMaster, IsTablet, part_act, ActFits, ActHasRoom};
ghost use Rattle.cluster_core.specs.SeenTold.{part_telling};

use crate::answer::Answer;
use cluster_events::Event;
use hybrid_time::HybridTime;
use master_part::{MasterAct, MasterPart};
use row_values::NoMemory;
use std::alloc::Global;
use std::marker::Model;
use step_table::Entry;
use tablet_acts::TabletTold;
use tablet_part::TabletPart;
use versions::VersionStore;

/// The master's part or a tablet's.
#[derive(Drop)]
enum Kept<V: VersionStore> {
    Master(MasterPart),
    Tablet(TabletPart<V>),
}

/// What a part is told.
#[derive(Drop)]
pub(crate) enum PartTold<V: VersionStore> {
    Master(MasterAct),
    Tablet(TabletTold<V>),
}

/// What stands behind the pointer of a part.
#[derive(Drop)]
struct Body<V: VersionStore> {
    kept: Kept<V>,
    log: Vec<Entry<Event, Answer>>,
}

/// A part with its log. It is a pointer, so that it moves cheaply.
#[derive(Drop)]
pub struct ClusterPart<V: VersionStore> {
    body: Box<Body<V>>,
}

impl<V: VersionStore> Model for ClusterPart<V> {
    ghost use Rattle.std.specs.Prelude.{◌-◌, vec_len, vec_capacity};
    ghost use Rattle.machine_laws.specs.Views.{PartView};
    ghost use Rattle.cluster_core.specs.declared.room.PartRoom.{PartRoom};
    ghost use Rattle.cluster_core.specs.SeenKept.{kept_of, versions_room, inbox_room, master_room};

    ghost Value = { PartView PartRoom };

    ghost view = { λ p. record {
      kept = kept_of p.body.value.kept;
      log = p.body.value.log.items;
      room = record {
        log = vec_capacity p.body.value.log - vec_len p.body.value.log;
        versions = versions_room p.body.value.kept;
        inbox = inbox_room p.body.value.kept;
        master = master_room p.body.value.kept;
      };
    } };
}

impl<V: VersionStore> ClusterPart<V> {
    /// The master's part.
    pub(crate) fn of_master(alloc: Global, master: MasterPart) -> Result<ClusterPart<V>, NoMemory>
        ensures kept { IfOk result (λ p. p.kept ≡ OfMaster master.master) }
        ensures log { IfOk result (λ p. p.log ≡ []) }
    {
        let body = Body {
            kept: Kept::Master(master),
            log: Vec::new(alloc),
        };
        Ok(ClusterPart {
            body: Box::new(alloc, body)?,
        })
    }

    /// A tablet's part.
    pub(crate) fn of_tablet(
        alloc: Global,
        tablet: TabletPart<V>,
    ) -> Result<ClusterPart<V>, NoMemory>
        ensures kept { IfOk result (λ p. p.kept ≡ OfTablet tablet.tablet) }
        ensures log { IfOk result (λ p. p.log ≡ []) }
    {
        let body = Body {
            kept: Kept::Tablet(tablet),
            log: Vec::new(alloc),
        };
        Ok(ClusterPart {
            body: Box::new(alloc, body)?,
        })
    }

    /// The last stamp.
    pub(crate) fn clock(&self) -> HybridTime
        ensures clock { result ≡ clock_of self.now.kept }
    {
        match &self.body.kept {
            Kept::Master(master) => master.clock(),
            Kept::Tablet(tablet) => tablet.clock(),
        }
    }

    /// The tablet's part.
    pub(crate) fn tablet(&self) -> &TabletPart<V>
        requires tablet { IsTablet self.now.kept }
        ensures tablet { self.now.kept ≡ OfTablet result.now.tablet }
    {
        match &self.body.kept {
            Kept::Master(_) => unreachable!(),
            Kept::Tablet(tablet) => tablet,
        }
    }

    /// The master's part.
    pub(crate) fn master(&self) -> &MasterPart
        requires master { IsMaster self.now.kept }
        ensures master { self.now.kept ≡ OfMaster result.now.master }
    {
        match &self.body.kept {
            Kept::Master(master) => master,
            Kept::Tablet(_) => unreachable!(),
        }
    }

    /// The allocator of the log. No clause speaks of an allocator.
    pub(crate) fn allocator(&self) -> Global
        ensures kept { self.now ≡ self.now }
    {
        *self.body.log.allocator()
    }

    /// The number of entries.
    pub(crate) fn len(&self) -> u64
        ensures count { result ≡ length self.now.log }
    {
        self.body.log.len() as u64
    }

    /// The entries of the log, the first one first.
    pub(crate) fn entries(&self) -> &[Entry<Event, Answer>]
        ensures entries { result.now ≡ self.now.log }
    {
        self.body.log.as_slice()
    }

    /// Makes room for one entry.
    pub(crate) fn make_room(&mut self) -> Result<(), NoMemory>
        ensures kept { self.new.kept ≡ self.old.kept }
        ensures log { self.new.log ≡ self.old.log }
        ensures room { OnOk result (1 ≤ self.new.room.log) }
    {
        self.body.log.reserve(1)?;
        Ok(())
    }

    /// Adds an entry, for which there is room.
    pub(crate) fn note(&mut self, entry: Entry<Event, Answer>)
        requires room { 1 ≤ self.old.room.log }
        ensures kept { self.new.kept ≡ self.old.kept }
        ensures log { self.new.log ≡ self.old.log ++ entry ∷ [] }
    {
        self.body.log.push(entry).unwrap();
    }

    /// Takes all memory that what it is told needs.
    pub(crate) fn prepare(&mut self, told: &PartTold<V>) -> Result<(), NoMemory>
        requires fits { (n : ℕ) × ActFits (part_telling told.now) n self.old.kept }
        ensures kept { self.new.kept ≡ self.old.kept }
        ensures log { self.new.log ≡ self.old.log }
        ensures log_room { self.new.room.log ≡ self.old.room.log }
        ensures room { OnOk result (ActHasRoom (part_telling told.now) self.new.room) }
    {
        match (&mut self.body.kept, told) {
            (Kept::Tablet(tablet), PartTold::Tablet(told)) => told.prepare(tablet),
            (Kept::Master(master), PartTold::Master(act)) => master.prepare(act),
            _ => unreachable!(),
        }
    }

    /// Does what it is told at a stamp, in the room that was made.
    pub(crate) fn apply(&mut self, told: PartTold<V>, stamp: HybridTime)
        requires fits { ActFits (part_telling told) stamp self.old.kept }
        requires room { ActHasRoom (part_telling told) self.old.room }
        requires later { clock_of self.old.kept < stamp }
        ensures kept { self.new.kept ≡ kept_after (part_act (part_telling told)) stamp self.old.kept }
        ensures log { self.new.log ≡ self.old.log }
        ensures log_room { self.new.room.log ≡ self.old.room.log }
    {
        match (&mut self.body.kept, told) {
            (Kept::Tablet(tablet), PartTold::Tablet(told)) => told.apply(tablet, stamp),
            (Kept::Master(master), PartTold::Master(act)) => master.apply(act, stamp),
            _ => unreachable!(),
        }
    }
}
