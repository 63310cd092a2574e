//! Events in one thread.
ghost use Rattle.std.specs.Prelude.{◌≡◌, ◌≤◌, length};
ghost use Rattle.step_counters.specs.Adds.{May};

use crate::machine::{Add, Counters};
use std::sync::Wait;
use step_table::{Pass, StepTable};

/// Performs the event so many times, and counts the answers that are Ok.
pub fn perform_many<R: Wait>(
    rt: &R,
    table: &StepTable<Counters>,
    mut pass: Pass<Counters>,
    event: Add,
    times: u32,
) -> (Pass<Counters>, u32)
    requires own_pass { pass.table ≡ table.now.id }
    requires event { May (length table.now.given) event }
    ensures own_pass { result.0.table ≡ pass.table }
    ensures same_shares { result.0.shares ≡ pass.shares }
    ensures at_most { result.1 ≤ times }
{
    let mut done = 0;
    for _turn in 0..times {
        if table.perform(rt, &mut pass, event).is_ok() {
            done += 1;
        }
    }
    (pass, done)
}
