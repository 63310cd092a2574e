//! A table of counters at 0, and a line of them.
ghost use Rattle.std.specs.Prelude.{◌≡◌, ◌<◌, ◌^◌, length, IfOk, IfErr};
ghost use Rattle.step_table.specs.Lists.{Every};
ghost use Rattle.step_table.specs.Passes.{first_pass};
ghost use Rattle.step_counters.specs.Adds.{IsEmpty, core_of};

use crate::counter::Counter;
use crate::gate::Gate;
use crate::machine::Counters;
use row_values::{NoMemory, Records};
use std::alloc::Global;
use std::sync::Arc;
use step_line::Line;
use step_table::{Pass, StepTable};

/// Three counters at 0, the second behind the gate.
pub fn three_counters(alloc: Global, gate: Arc<Gate, Global>) -> Result<Records<Counter>, NoMemory>
    ensures three { IfOk result (λ parts. length parts ≡ 3) }
    ensures empty { IfOk result (λ parts. Every IsEmpty parts) }
{
    let mut parts = Records::new(alloc);
    parts.push(Counter::new(alloc))?;
    parts.push(Counter::behind(alloc, gate))?;
    parts.push(Counter::new(alloc))?;
    Ok(parts)
}

/// A table over counters at 0, and its first pass. For want of memory the counters come back.
pub fn start(
    parts: Records<Counter>,
) -> Result<(StepTable<Counters>, Pass<Counters>), Records<Counter>>
    requires empty { Every IsEmpty parts }
    requires few { length parts < 2 ^ 32 }
    ensures slots { IfOk result (λ made. length made.0.given ≡ length parts) }
    ensures all_shares { IfOk result (λ made. made.1 ≡ first_pass core_of made.0) }
    ensures parts_back { IfErr result (λ back. back ≡ parts) }
{
    StepTable::new(parts)
}

/// A line over counters at 0.
pub fn begin_line(parts: Records<Counter>) -> Result<Line<Counters>, NoMemory>
    requires empty { Every IsEmpty parts }
    requires few { length parts < 2 ^ 32 }
    ensures slots { IfOk result (λ line. length line.parts ≡ length parts) }
{
    Line::new(parts)
}
