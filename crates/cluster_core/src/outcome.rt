ghost use Rattle.std.specs.Prelude.{◌≡◌, ℕ};
ghost use Rattle.cluster_events.specs.SeenReplies.{reply_of};
ghost use Rattle.model.specs.Parts.{Master, answered};
ghost use Rattle.master_part.specs.Acts.{May};
ghost use Rattle.tablet_acts.specs.Tellings as tablets;
ghost use Rattle.cluster_core.specs.Held.{Holding};
ghost use Rattle.cluster_core.specs.Plans.{outcome_of, ComesTo};

use cluster_events::Reply;
use master_part::MasterAct;
use std::alloc::Global;
use std::marker::Model;
use tablet_acts::{SlotTold, TabletsPlan};
use versions::VersionStore;

/// What the parts are told, and the reply.
#[derive(Drop)]
pub(crate) struct EventPlan<V: VersionStore> {
    pub(crate) master: MasterAct,
    pub(crate) tablets: Vec<SlotTold<V>>,
    pub(crate) reply: Reply,
}

impl<V: VersionStore> Model for EventPlan<V> {
    ghost use Rattle.cluster_events.specs.SeenReplies.{reply_of};
    ghost use Rattle.cluster_core.specs.Plans.{EventPlanView};

    ghost Value = { EventPlanView };

    ghost view = { λ p. record { master = p.master; tablets = p.tablets.items; reply = reply_of p.reply } };
}

impl<V: VersionStore> EventPlan<V> {
    /// The master is told nothing.
    pub(crate) fn of_tablets(plan: TabletsPlan<V>) -> EventPlan<V>
        ensures outcome { outcome_of result ≡ tablets.outcome_of plan }
        ensures tablets { result.tablets ≡ plan.tablets }
        ensures may { (n : ℕ) (m : Master) → May result.master n m }
    {
        let TabletsPlan { tablets, reply } = plan;
        EventPlan {
            master: MasterAct::Ticks,
            tablets,
            reply,
        }
    }

    /// No part is told anything.
    pub(crate) fn answered(alloc: Global, reply: Reply) -> EventPlan<V>
        ensures plan { (n : ℕ) (held : Holding) → ComesTo (answered (reply_of reply)) n held result }
    {
        EventPlan {
            master: MasterAct::Ticks,
            tablets: Vec::new(alloc),
            reply,
        }
    }

    pub(crate) fn into_parts(self) -> (MasterAct, Vec<SlotTold<V>>, Reply)
        ensures master { result.0 ≡ self.master }
        ensures tablets { result.1.items ≡ self.tablets }
        ensures reply { reply_of result.2 ≡ self.reply }
    {
        let EventPlan {
            master,
            tablets,
            reply,
        } = self;
        (master, tablets, reply)
    }
}
