//! The parts of the empty cluster.
ghost use Rattle.std.specs.Prelude.{◌≡◌, ◌≤◌, map, IfOk};
ghost use Rattle.model.specs.Drawn.{most_slots};
ghost use Rattle.cluster_core.specs.Tellings.{meaning};
ghost use Rattle.cluster_core.specs.Starts.{first_parts, vacant_part};

use crate::machine::ClusterMachine;
use crate::part::ClusterPart;
use master_part::MasterPart;
use row_values::{NoMemory, Records};
use std::alloc::Global;
use step_line::Line;
use tablet_part::TabletPart;
use versions::VersionStore;

fn vacant<V: VersionStore>(alloc: Global) -> Result<ClusterPart<V>, NoMemory>
    ensures exact { IfOk result (λ p. meaning p ≡ vacant_part) }
{
    let tablet = TabletPart::empty(alloc)?;
    ClusterPart::of_tablet(alloc, tablet)
}

fn all_parts<V: VersionStore>(alloc: Global, slots: u32) -> Result<Vec<ClusterPart<V>>, NoMemory>
    ensures exact { IfOk result (λ parts. map meaning parts.items ≡ first_parts slots) }
{
    let mut parts = Vec::new(alloc);
    let master = MasterPart::empty(alloc, slots)?;
    parts.push(ClusterPart::of_master(alloc, master)?)?;
    for _ in 0..slots {
        parts.push(vacant(alloc)?)?;
    }
    Ok(parts)
}

pub(crate) fn first_line<V: VersionStore>(
    alloc: Global,
    slots: u32,
) -> Result<Line<ClusterMachine<V>>, NoMemory>
    requires few { slots ≤ most_slots }
    ensures exact { IfOk result (λ line. line.parts ≡ first_parts slots) }
{
    let parts = all_parts(alloc, slots)?;
    Line::new(Records::from_vec(parts))
}
