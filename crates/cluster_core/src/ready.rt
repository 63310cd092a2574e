ghost use Rattle.std.specs.Prelude.{◌≡◌};
ghost use Rattle.cluster_core.specs.SeenTold.{tellings_of};

use crate::answer::Answer;
use crate::part::PartTold;
use cluster_events::Event;
use hybrid_time::HybridTime;
use std::marker::Model;
use std::snapshot::Snapshot;
use versions::VersionStore;

/// A prepared event: all that `apply` puts in place.
#[derive(Drop)]
pub struct EventReady<V: VersionStore> {
    pub(crate) event: Snapshot<Event>,
    pub(crate) answer: Answer,
    pub(crate) kept: Answer,
    pub(crate) acts: Vec<PartTold<V>>,
}

impl<V: VersionStore> Model for EventReady<V> {
    ghost use Rattle.std.specs.Prelude.{◌≡◌};
    ghost use Rattle.cluster_core.specs.Readies.{ReadyView};
    ghost use Rattle.cluster_core.specs.SeenTold.{tellings_of};

    ghost Value = { ReadyView };

    ghost view = { λ r. record { event = r.event.value; answer = r.answer; acts = tellings_of r.acts.items } };

    ghost invariant = { λ r. r.kept ≡ r.answer };
}

impl<V: VersionStore> EventReady<V> {
    /// What each part is told.
    pub(crate) fn acts(&self) -> &[PartTold<V>]
        ensures acts { tellings_of result.now ≡ self.now.acts }
    {
        self.acts.as_slice()
    }

    /// The stamp of the event.
    pub(crate) fn stamp(&self) -> HybridTime
        ensures stamp { result ≡ self.now.answer.stamp }
    {
        self.answer.stamp
    }
}
