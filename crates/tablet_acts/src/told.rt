ghost use Rattle.std.specs.Prelude.{ℕ, ◌≡◌, ◌<◌, OnOk};
ghost use Rattle.model.specs.Tablets.{effect};
ghost use Rattle.tablet_acts.specs.Tellings.{Suits, HasRoom, act_told};
ghost use Rattle.tablet_acts.specs.Seen.{telling_of};

use hybrid_time::HybridTime;
use partition_codes::Range;
use row_values::{Batch, NoMemory};
use tablet_inbox::TabletCommand;
use tablet_part::{ReadyStore, TabletPart};
use versions::VersionStore;
use yb_ident::Ident;

/// What a tablet's part is told.
#[derive(Drop)]
pub enum TabletTold<V: VersionStore> {
    /// Sets the clock alone.
    Clock,
    /// Gets a new tablet, with the empty store.
    Make {
        tablet: Ident,
        table: Ident,
        range: Range,
        version: u32,
        store: ReadyStore<V>,
    },
    /// Gets the child of a split, with this store.
    MakeChild {
        tablet: Ident,
        table: Ident,
        range: Range,
        version: u32,
        store: ReadyStore<V>,
    },
    /// Keeps another version of the schema.
    SetVersion {
        version: u32,
    },
    Hide {
        ended: HybridTime,
    },
    Write {
        batch: Batch,
    },
    RaiseCutoff {
        to: HybridTime,
    },
    /// Keeps what compaction keeps: this store.
    Compact {
        store: ReadyStore<V>,
    },
    Offer {
        command: TabletCommand,
    },
    /// Does the first command of its inbox, with the store that was made for it.
    Process {
        command: TabletCommand,
        store: Option<ReadyStore<V>>,
    },
    /// Is emptied, and keeps the empty store.
    Clear {
        store: ReadyStore<V>,
    },
    /// Drops the frozen sets of a snapshot.
    DropFrozen {
        snapshot: Ident,
    },
    Restart,
}

impl<V: VersionStore> TabletTold<V> {
    /// Takes the memory that the part needs for what it is told.
    pub fn prepare(&self, part: &mut TabletPart<V>) -> Result<(), NoMemory>
        requires suits { (n : ℕ) × Suits (telling_of self.now) n part.old.tablet }
        ensures tablet { part.new.tablet ≡ part.old.tablet }
        ensures room { OnOk result (HasRoom (telling_of self.now) part.new.room part.new.ready) }
    {
        match self {
            TabletTold::Write { batch } => part.prepare_write(batch),
            TabletTold::Offer { .. } => part.make_ready(),
            TabletTold::Process { .. } => part.make_ready(),
            TabletTold::Clock => Ok(()),
            TabletTold::Make { .. } => Ok(()),
            TabletTold::MakeChild { .. } => Ok(()),
            TabletTold::SetVersion { .. } => Ok(()),
            TabletTold::Hide { .. } => Ok(()),
            TabletTold::RaiseCutoff { .. } => Ok(()),
            TabletTold::Compact { .. } => Ok(()),
            TabletTold::Clear { .. } => Ok(()),
            TabletTold::DropFrozen { .. } => Ok(()),
            TabletTold::Restart => Ok(()),
        }
    }

    /// The part does what it is told, in the room that was made. It takes no memory.
    pub fn apply(self, part: &mut TabletPart<V>, stamp: HybridTime)
        requires suits { Suits (telling_of self) stamp part.old.tablet }
        requires room { HasRoom (telling_of self) part.old.room part.old.ready }
        requires later { part.old.tablet.clock < stamp }
        ensures tablet { part.new.tablet ≡ effect (act_told (telling_of self)) stamp part.old.tablet }
    {
        match self {
            TabletTold::Clock => part.tick(stamp),
            TabletTold::Make {
                tablet,
                table,
                range,
                version,
                store,
            } => part.make(tablet, table, range, version, store.into_store(), stamp),
            TabletTold::MakeChild {
                tablet,
                table,
                range,
                version,
                store,
            } => part.make_child(tablet, table, range, version, store.into_store(), stamp),
            TabletTold::SetVersion { version } => part.set_version(version, stamp),
            TabletTold::Hide { ended } => part.hide(ended, stamp),
            TabletTold::Write { batch } => part.write(batch, stamp),
            TabletTold::RaiseCutoff { to } => part.raise_cutoff(to, stamp),
            TabletTold::Compact { store } => part.compact(store.into_store(), stamp),
            TabletTold::Offer { command } => part.offer(command, stamp),
            TabletTold::Process { command, store } => part.process(&command, store, stamp),
            TabletTold::Clear { store } => part.clear(store.into_store(), stamp),
            TabletTold::DropFrozen { snapshot } => part.drop_frozen(snapshot, stamp),
            TabletTold::Restart => part.restart(stamp),
        }
    }
}
