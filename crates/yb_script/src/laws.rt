//! What the law says of the history of a run.

ghost use Rattle.std.specs.Prelude.{ℕ, ◌≤◌, List};
ghost use Rattle.model.specs.Drawn.{most_slots};
ghost use Rattle.model.specs.Entries.{Entry};
ghost use Rattle.model.specs.History.{Legal};
ghost use Rattle.yb_script.specs.Lawful.{IsRight};

use law::{
    legal_is_right, numbers_are_drawn, operations_come_once, retention_is_kept, runs_are_right,
};
use law_drive::{a_restore_comes_back, accepted_is_finished, settling_ends, something_comes_next};

/// All that is proved of a legal history of a cluster with few enough slots, and of each of its entries.
pub fn what_is_legal_is_right()
    ensures right { (slots : ℕ) (history : List Entry) → slots ≤ most_slots → Legal slots history → IsRight slots history }
{
    legal_is_right();
    numbers_are_drawn();
    operations_come_once();
    retention_is_kept();
    runs_are_right();
    something_comes_next();
    settling_ends();
    accepted_is_finished();
    a_restore_comes_back();
}
