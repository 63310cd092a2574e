//! How far cutoffs may be raised. None of these calls takes memory.
ghost use Rattle.std.specs.Prelude.{◌≡◌, ◌≤◌, ◌<◌};
ghost use Rattle.std.specs.Option.{option_map, option_and_then};
ghost use Rattle.model.specs.RowActs as book;
ghost use Rattle.master_part.specs.Acts.{IsLawful};

use hybrid_time::HybridTime;
use master_part::MasterPart;
use schedules::ScheduledNamespace;

/// How far an act at a stamp may raise the cutoff of the tablet in a slot: not past the stamp, and
/// in a scheduled namespace to just after its last complete snapshot.
#[tactic(auto, using(crate::proofs::Raising::complete_over, crate::proofs::Raising::allowed_past))]
pub fn allowed_cutoff(master: &MasterPart, slot: u32, stamp: HybridTime) -> HybridTime
    requires lawful { IsLawful master.now.master }
    requires later { master.now.master.clock < stamp }
    ensures exact { result ≡ book.allowed_of (book.scheduled_at master.now.master slot) stamp }
    ensures past { result ≤ stamp }
{
    // No stamp is after the end of time.
    let _ = &stamp.value;
    match scheduled_at(master, slot) {
        Some(scheduled) => {
            retention_rules::allowed_cutoff(Some(scheduled.since), scheduled.complete, stamp)
        }
        None => retention_rules::allowed_cutoff(None, None, stamp),
    }
}

// The namespace of the tablet in a slot, where it is scheduled.
fn scheduled_at(master: &MasterPart, slot: u32) -> Option<ScheduledNamespace>
    ensures exact { result ≡ book.scheduled_at master.now.master slot }
{
    let table = master.tablets().table_in(slot)?;
    let namespace = master.catalog().owner_of(&table)?;
    master.scheduled().scheduled_in(&namespace)
}
