//! What a coordinator does next.
ghost use Rattle.std.specs.Prelude.{ℕ, ◌≡◌, ◌<◌, length, slice_get, option_map};
ghost use Rattle.model.specs.Work as book;
ghost use Rattle.model.specs.Work.{next_act};
ghost use Rattle.model.specs.History.{replay};
ghost use Rattle.machine_laws.specs.Laid.{parts_of, kept_in, HasKind};
ghost use Rattle.cluster_events.specs.SeenActs.{act_of};
ghost use Rattle.cluster_events.specs.SeenReplies.{work_of};
ghost use Rattle.cluster_core.specs.Idle.{is_idle};

use crate::machine::ClusterMachine;
use cluster_events::{Act, WorkItem};
use master_moves::next_work;
use step_line::Line;
use versions::VersionStore;

/// The act that a coordinator asks next in a line of parts.
pub(crate) fn next_in<V: VersionStore>(line: &Line<ClusterMachine<V>>) -> Option<Act>
    requires some { 0 < length line.now.parts }
    requires kinds { (k : ℕ) → k < length line.now.parts → HasKind k (kept_in (slice_get line.now.parts k)) }
    ensures exact { option_map act_of result ≡ next_act (parts_of line.now.parts) }
{
    let item = next_work(line.part(0).master())?;
    Some(act_for(line, item))
}

/// The act that does a work item: a tablet with a command in its inbox does it first.
fn act_for<V: VersionStore>(line: &Line<ClusterMachine<V>>, item: WorkItem) -> Act
    requires kinds { (k : ℕ) → k < length line.now.parts → HasKind k (kept_in (slice_get line.now.parts k)) }
    ensures exact { act_of result ≡ book.act_of_work (work_of item) (parts_of line.now.parts) }
{
    match item {
        WorkItem::Send { operation, slot } => Act::Send { operation, slot },
        WorkItem::Collect {
            operation,
            slot,
            other,
        } => {
            if is_idle(line, slot) {
                return Act::Ack { operation, slot };
            }
            Act::Process { slot, other }
        }
        WorkItem::Advance { operation } => Act::Advance { operation },
    }
}

/// Whether no command is in the inbox of a slot's tablet.
fn is_idle<V: VersionStore>(line: &Line<ClusterMachine<V>>, slot: u32) -> bool
    requires kinds { (k : ℕ) → k < length line.now.parts → HasKind k (kept_in (slice_get line.now.parts k)) }
    ensures exact { result ≡ is_idle ((parts_of line.now.parts).tablet slot).inbox }
{
    if slot == 0 || slot >= line.size() {
        return true;
    }
    line.part(slot).tablet().inbox().len() == 0
}
