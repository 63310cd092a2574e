ghost use Rattle.std.specs.Prelude.{◌≡◌, [], ◌∷◌, IfOk};
ghost use Rattle.model.specs.Acts.{Reply};
ghost use Rattle.cluster_events.specs.SeenReplies.{reply_of};
ghost use Rattle.tablet_acts.specs.Seen.{telling_of};

use crate::told::TabletTold;
use cluster_events::Reply;
use row_values::NoMemory;
use std::alloc::Global;
use std::marker::Model;
use versions::VersionStore;

/// What the tablet's part of a slot is told. Contracts see it with what was made ready for it.
#[derive(Drop)]
pub struct SlotTold<V: VersionStore> {
    pub slot: u32,
    pub told: TabletTold<V>,
}

impl<V: VersionStore> Model for SlotTold<V> {
    ghost use Rattle.tablet_acts.specs.Tellings.{SlotTelling};
    ghost use Rattle.tablet_acts.specs.Seen.{telling_of};

    ghost Value = { SlotTelling };

    ghost view = { λ t. record { slot = t.slot; telling = telling_of t.told } };
}

impl<V: VersionStore> SlotTold<V> {
    pub fn of(slot: u32, told: TabletTold<V>) -> SlotTold<V>
        ensures exact { result ≡ record { slot = slot; telling = telling_of told } }
    {
        SlotTold { slot, told }
    }

    pub fn slot(&self) -> u32
        ensures slot { result ≡ self.now.slot }
    {
        self.slot
    }

    pub fn into_told(self) -> TabletTold<V>
        ensures told { telling_of result ≡ self.telling }
    {
        self.told
    }
}

/// What tablets' parts are told, and the reply. A touched part that isn't named sets its clock.
#[derive(Drop)]
pub struct TabletsPlan<V: VersionStore> {
    pub tablets: Vec<SlotTold<V>>,
    pub reply: Reply,
}

impl<V: VersionStore> Model for TabletsPlan<V> {
    ghost use Rattle.tablet_acts.specs.Tellings.{PlanView};
    ghost use Rattle.cluster_events.specs.SeenReplies.{reply_of};

    ghost Value = { PlanView };

    ghost view = { λ p. record { tablets = p.tablets.items; reply = reply_of p.reply } };
}

impl<V: VersionStore> TabletsPlan<V> {
    /// No part is told anything.
    pub fn answered(alloc: Global, reply: Reply) -> TabletsPlan<V>
        ensures exact { result ≡ record { tablets = []; reply = reply_of reply } }
    {
        TabletsPlan {
            tablets: Vec::new(alloc),
            reply,
        }
    }

    /// The part of one slot is told this.
    pub fn telling(
        alloc: Global,
        slot: u32,
        told: TabletTold<V>,
        reply: Reply,
    ) -> Result<TabletsPlan<V>, NoMemory>
        ensures exact { IfOk result (λ p. p ≡ record { tablets = record { slot = slot; telling = telling_of told } ∷ []; reply = reply_of reply }) }
    {
        let mut tablets = Vec::new(alloc);
        tablets.push(SlotTold { slot, told })?;
        Ok(TabletsPlan { tablets, reply })
    }
}
