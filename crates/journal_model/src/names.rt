ghost use Rattle.std.specs.Prelude.{◌≡◌};
ghost use Rattle.std.specs.Option.{option_copied};
ghost use Rattle.model.specs.Journal.{namespace_at, name_after};
ghost use Rattle.journal_model.specs.Seen.{act_of};

use crate::change::{Change, ChangeAct};
use hybrid_time::HybridTime;
use row_values::Name;
use yb_ident::Ident;

// The name of a namespace after a change, given its name before it.
fn name_after<'a>(act: &'a ChangeAct, id: &Ident, before: Option<&'a Name>) -> Option<&'a Name>
    ensures { option_copied result ≡ name_after (act_of act.now) id.now (option_copied before.entry) }
{
    match act {
        ChangeAct::NamespaceMade { namespace, name } => {
            if *namespace == *id {
                Some(name)
            } else {
                before
            }
        }
        ChangeAct::NamespaceDropped { namespace } => {
            if *namespace == *id { None } else { before }
        }
        ChangeAct::NamespaceCloned { target, name, .. } => {
            if *target == *id { Some(name) } else { before }
        }
        ChangeAct::TableMade { .. } => before,
        ChangeAct::TableRenamed { .. } => before,
        ChangeAct::TableDropped { .. } => before,
        ChangeAct::ColumnAdded { .. } => before,
        ChangeAct::ColumnDropped { .. } => before,
        ChangeAct::RowChanged { .. } => before,
        ChangeAct::NamespaceRestored { .. } => before,
    }
}

/// The name of a namespace in the view at a time; none where it is not there. The changes are given
/// the newest first.
#[tactic(auto, using(crate::proofs::Steps::name_late, crate::proofs::Steps::name_seen))]
pub fn namespace_at<'a>(changes: &'a [Change], x: HybridTime, id: &Ident) -> Option<&'a Name>
    ensures { option_copied result ≡ namespace_at changes.now x id.now }
{
    let Some((change, earlier)) = changes.split_first() else {
        return None;
    };
    let before = namespace_at(earlier, x, id);
    if x.number() < change.stamp.number() {
        return before;
    }
    name_after(&change.act, id, before)
}
