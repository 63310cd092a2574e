ghost use Rattle.std.specs.Prelude.{◌≡◌};
ghost use Rattle.cluster_events.specs.SeenReplies.{reply_of};

use cluster_events::Reply;
use hybrid_time::HybridTime;
use std::marker::Model;

/// A reply with the stamp of its event. A log's entry keeps both.
#[derive(Debug, Drop)]
pub struct Answer {
    pub stamp: HybridTime,
    pub reply: Reply,
}

impl Model for Answer {
    ghost use Rattle.machine_laws.specs.Views.{AnswerView};
    ghost use Rattle.cluster_events.specs.SeenReplies.{reply_of};

    ghost Value = { AnswerView };

    ghost view = { λ a. record { stamp = a.stamp; reply = reply_of a.reply } };
}

impl Answer {
    pub fn into_reply(self) -> Reply
        ensures reply { reply_of result ≡ self.reply }
    {
        self.reply
    }
}
