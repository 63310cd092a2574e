//! What may be removed at a stamp.
ghost use Rattle.std.specs.Prelude.{◌≡◌, ◌++◌, ◌∷◌, [], None, map, IfOk, OnOk};
ghost use Rattle.row_values.specs.Slots.{rising};
ghost use Rattle.model.specs.Cleanup as book;
ghost use Rattle.model.specs.Cleanup.{last_in};
ghost use Rattle.master_cleanup.specs.Staying.{snapshot_removal};
ghost use Rattle.master_part.specs.Acts.{IsLawful};

use crate::judging::{is_removable_snapshot, is_removable_tablet};
use crate::plans::plan_after;
use catalog_tablets::Interval;
use cluster_events::Removal;
use hybrid_time::HybridTime;
use master_part::{MasterPart, snapshot_id, tablet_of};
use row_values::{NoMemory, Records, Slots};
use snapshot_coord::SnapshotRecord;

/// What may be removed at a stamp: hidden tablets by slot, then snapshots by number, with the slots
/// that each removal touches, if the tablets go first.
pub fn removable(master: &MasterPart, stamp: HybridTime) -> Result<Records<Removal>, NoMemory>
    requires lawful { IsLawful master.now.master }
    ensures exact { IfOk result (λ removals. removals ≡ book.removable master.now.master stamp) }
{
    let mut removals = removable_tablets(master, stamp)?;
    let snapshots = removable_snapshots(master, &removals, stamp)?;
    append(&mut removals, snapshots)?;
    Ok(removals)
}

// Others go behind the removals.
fn append(removals: &mut Records<Removal>, others: Records<Removal>) -> Result<(), NoMemory>
    ensures appended { OnOk result (removals.new ≡ removals.old ++ others) }
{
    for removal in others.into_vec() {
        removals.push(removal)?;
    }
    Ok(())
}

// The tablets that may go, by slot. It looks at the count of each slot, and at the last tablet of
// each that is used.
fn removable_tablets(master: &MasterPart, stamp: HybridTime) -> Result<Records<Removal>, NoMemory>
    requires lawful { IsLawful master.now.master }
    ensures exact { IfOk result (λ removals. removals ≡ book.removable_tablets master.now.master stamp) }
{
    let slots = used_slots(master)?;
    removals_in(master, slots.as_slice(), stamp)
}

// The slots that have a tablet, in rising order.
#[tactic(auto, using(crate::proofs::Used::used_are))]
fn used_slots(master: &MasterPart) -> Result<Slots, NoMemory>
    requires lawful { IsLawful master.now.master }
    ensures exact { IfOk result (λ slots. slots ≡ rising (map (λ i. i.slot) master.now.master.activity)) }
{
    master.tablets().used_slots(master.alloc(), master.slots())
}

// Those of the tablets in these slots that may go.
fn removals_in(
    master: &MasterPart,
    slots: &[u32],
    stamp: HybridTime,
) -> Result<Records<Removal>, NoMemory>
    ensures exact { IfOk result (λ removals. removals ≡ book.removals_in slots.now master.now.master stamp) }
{
    let mut removals = Records::new(master.alloc());
    for slot in slots {
        add_removal_in(master, *slot, stamp, &mut removals)?;
    }
    Ok(removals)
}

// The tablet in a slot is added, if there is one that may go.
fn add_removal_in(
    master: &MasterPart,
    slot: u32,
    stamp: HybridTime,
    removals: &mut Records<Removal>,
) -> Result<(), NoMemory>
    ensures added { OnOk result (removals.new ≡ removals.old ++ book.removal_in master.now.master stamp (last_in master.now.master.activity slot None)) }
{
    let Some(interval) = master.tablets().last_in(slot) else {
        return Ok(());
    };
    if is_removable_tablet(master, &interval, stamp) {
        removals.push(removal_of_tablet(master, &interval)?)?;
    }
    Ok(())
}

fn removal_of_tablet(master: &MasterPart, interval: &Interval) -> Result<Removal, NoMemory>
    ensures exact { IfOk result (λ removal. removal ≡ record { target = interval.now.tablet; slots = interval.now.slot ∷ [] }) }
{
    let mut slots = Slots::new(master.alloc());
    slots.push(interval.slot)?;
    Ok(Removal {
        target: tablet_of(interval),
        slots,
    })
}

// The snapshots that may go, by number, once these tablets went.
fn removable_snapshots(
    master: &MasterPart,
    tablets: &Records<Removal>,
    stamp: HybridTime,
) -> Result<Records<Removal>, NoMemory>
    ensures exact { IfOk result (λ removals. removals ≡ book.removable_snapshots master.now.master stamp tablets.now) }
{
    let mut removals = Records::new(master.alloc());
    let snapshots = master.snapshots().records();
    for snapshot in snapshots {
        if is_removable_snapshot(master, snapshot, stamp) {
            removals.push(removal_of_snapshot(master, snapshot, tablets)?)?;
        }
    }
    Ok(removals)
}

fn removal_of_snapshot(
    master: &MasterPart,
    snapshot: &SnapshotRecord,
    tablets: &Records<Removal>,
) -> Result<Removal, NoMemory>
    ensures exact { IfOk result (λ removal. removal ≡ snapshot_removal master.now.master tablets.now snapshot.now) }
{
    Ok(Removal {
        target: snapshot_id(snapshot),
        slots: plan_after(master, snapshot, tablets)?,
    })
}
