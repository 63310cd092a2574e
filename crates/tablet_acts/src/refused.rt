ghost use Rattle.std.specs.Prelude.{◌≡◌};
ghost use Rattle.cluster_events.specs.SeenReplies.{refusal_of};
ghost use Rattle.tablet_part.specs.Seen as part;

use cluster_events::Refusal;
use tablet_part::TabletRefused;

/// A tablet's refusal as one of the cluster's.
pub(crate) fn refusal(why: TabletRefused) -> Refusal
    ensures exact { refusal_of result ≡ part.refusal_of why }
{
    match why {
        TabletRefused::Moved { slot, standing } => Refusal::Moved { slot, standing },
        TabletRefused::Fenced { operation } => Refusal::Fenced { operation },
        TabletRefused::StaleSchema { kept } => Refusal::StaleSchema { kept },
        TabletRefused::TooOld { asked, cutoff } => Refusal::TooOld { asked, cutoff },
    }
}
