ghost use Rattle.std.specs.Prelude.{◌≡◌, ◌≤◌, length, IfOk};
ghost use Rattle.std.specs.List.{list_all};
ghost use Rattle.row_values.specs.declared.value.Item.{Item};
ghost use Rattle.model.specs.Tablets.{emptied, serves, is_empty, standing};
ghost use Rattle.model.specs.RowActs.{covers, serves_all, goes_on, count_frozen};
ghost use Rattle.tablet_inbox.specs.Seen.{standing_seen};

use crate::frozen::Frozen;
use crate::presence::Presence;
use hybrid_time::HybridTime;
use partition_codes::code;
use row_values::{Batch, Key, NoMemory};
use std::alloc::Global;
use std::marker::Model;
use tablet_inbox::{Inbox, Standing};
use versions::VersionStore;
use yb_ident::Ident;

/// A tablet's part over any store of versions. Contracts see it as the book's tablet, as the room of
/// its store, and as whether it has room for one more command and for one more frozen set.
#[derive(Drop)]
pub struct TabletPart<V: VersionStore> {
    pub(crate) clock: HybridTime,
    pub(crate) presence: Presence,
    pub(crate) tablet: Option<Ident>,
    pub(crate) table: Option<Ident>,
    pub(crate) low: u32,
    pub(crate) high: u32,
    pub(crate) version: u32,
    pub(crate) store: V,
    pub(crate) frozen: Vec<Frozen<V>>,
    pub(crate) fence: Option<Ident>,
    pub(crate) inbox: Inbox,
    pub(crate) ready: bool,
}

impl<V: VersionStore> Model for TabletPart<V> {
    ghost use Rattle.std.specs.Prelude.{◌≡◌, ◌+◌, ◌-◌, ◌<◌, ◌≤◌, ◌^◌, true, vec_len, vec_capacity};
    ghost use Rattle.model.specs.RowActs.{count_frozen};
    ghost use Rattle.row_values.specs.Ids.{Tablet, Table};
    ghost use Rattle.row_values.specs.Store.{Below};
    ghost use Rattle.tablet_inbox.specs.Seen.{id_or};
    ghost use Rattle.tablet_part.specs.Seen.{presence_of};
    ghost use Rattle.tablet_part.specs.Views.{TabletView};

    ghost Value = { TabletView };

    ghost view = { λ p. record {
      tablet = record {
        clock = p.clock;
        presence = presence_of p.presence;
        tablet = id_or Tablet p.tablet;
        table = id_or Table p.table;
        low = p.low;
        high = p.high;
        version = p.version;
        versions = V.versions p.store;
        cutoff = V.cutoff p.store;
        frozen = p.frozen.items;
        fence = p.fence;
        inbox = p.inbox.inbox;
        done = p.inbox.done;
      };
      room = V.room p.store;
      ready = p.ready;
    } };

    ghost invariant = { λ p. record {
      stamps : Below (p.clock + 1) (V.versions p.store);
      few : count_frozen p.frozen.items < 2 ^ 64;
      past : V.cutoff p.store ≤ p.clock;
      room : p.ready ≡ true → (p.inbox.ready ≡ true) × (1 ≤ vec_capacity p.frozen - vec_len p.frozen);
    } };
}

impl<V: VersionStore> TabletPart<V> {
    /// An empty part, whose clock has stamped nothing.
    pub fn empty(alloc: Global) -> Result<TabletPart<V>, NoMemory>
        ensures empty { IfOk result (λ part. part.tablet ≡ emptied 0) }
    {
        let zero = HybridTime { value: 0 };
        Ok(TabletPart {
            clock: zero,
            presence: Presence::Empty,
            tablet: None,
            table: None,
            low: 0,
            high: 0,
            version: 0,
            store: V::empty(alloc, zero)?,
            frozen: Vec::new(alloc),
            fence: None,
            inbox: Inbox::new(alloc),
            ready: false,
        })
    }

    /// The last stamp.
    pub fn clock(&self) -> HybridTime
        ensures clock { result ≡ self.now.tablet.clock }
    {
        self.clock
    }

    /// Whether it has no tablet.
    pub fn is_empty(&self) -> bool
        ensures exact { result ≡ is_empty self.now.tablet.presence }
    {
        match self.presence {
            Presence::Empty => true,
            Presence::Serving => false,
            Presence::Hidden { .. } => false,
        }
    }

    /// Whether it serves this tablet.
    pub fn serves(&self, tablet: Ident) -> bool
        ensures exact { result ≡ serves self.now.tablet tablet }
    {
        match (self.presence, self.tablet) {
            (Presence::Serving, Some(own)) => own == tablet,
            _ => false,
        }
    }

    /// Whether its range has the key.
    pub fn covers(&self, key: &Key) -> bool
        ensures exact { result ≡ covers self.now.tablet key.now }
    {
        let at = u32::from(code(key));
        self.low <= at && at < self.high
    }

    /// Whether it serves the tablet, and its range has all keys of the batch.
    pub fn serves_all(&self, tablet: Ident, batch: &Batch) -> bool
        ensures exact { result ≡ serves_all self.now.tablet tablet batch.now }
    {
        self.serves(tablet) && self.covers_all(batch)
    }

    fn covers_all(&self, batch: &Batch) -> bool
        ensures exact { result ≡ list_all (λ (item : Item). covers self.now.tablet item.key) batch.now }
    {
        for item in batch.as_slice() {
            if !self.covers(&item.key) {
                return false;
            }
        }
        true
    }

    /// Whether a scan that has come to a code goes on here: it serves the tablet, begins at the code,
    /// and ends with the codes if it is the last.
    pub fn goes_on(&self, from: u32, last: bool, tablet: Ident) -> bool
        ensures exact { result ≡ goes_on from last tablet self.now.tablet }
    {
        self.serves(tablet) && self.low == from && (!last || self.high == 65536)
    }

    /// What it says of itself.
    pub fn standing(&self) -> Standing
        ensures exact { standing_seen result ≡ standing self.now.tablet }
    {
        match self.presence {
            Presence::Empty => Standing::Empty,
            Presence::Serving => Standing::Serving {
                tablet: self.tablet,
                low: self.low,
                high: self.high,
            },
            Presence::Hidden { ended } => Standing::Hidden {
                tablet: self.tablet,
                ended,
            },
        }
    }

    /// The high end of its range.
    pub fn high(&self) -> u32
        ensures high { result ≡ self.now.tablet.high }
    {
        self.high
    }

    /// The operation that keeps writes and reads off, if there is one.
    pub fn fence(&self) -> Option<Ident>
        ensures fence { result ≡ self.now.tablet.fence }
    {
        self.fence
    }

    /// The version of the schema that it keeps.
    pub fn version(&self) -> u32
        ensures version { result ≡ self.now.tablet.version }
    {
        self.version
    }

    /// The time from which reads are right.
    pub fn cutoff(&self) -> HybridTime
        ensures cutoff { result ≡ self.now.tablet.cutoff }
        ensures past { result ≤ self.now.tablet.clock }
    {
        self.store.cutoff()
    }

    /// The number of versions of its live store.
    pub fn len(&self) -> u64
        ensures count { result ≡ length self.now.tablet.versions }
    {
        self.store.len()
    }

    /// The number of commands in its inbox.
    pub fn inbox_len(&self) -> u64
        ensures count { result ≡ length self.now.tablet.inbox }
    {
        self.inbox.len()
    }

    /// The number of versions in its frozen sets.
    pub fn frozen_len(&self) -> u64
        ensures count { result ≡ count_frozen self.now.tablet.frozen }
    {
        let mut count = 0;
        for set in &self.frozen {
            count += set.len();
        }
        count
    }
}
