//! The slots that the removal of a snapshot touches.
ghost use Rattle.std.specs.Prelude.{◌≡◌, ◌&&◌, not, IfOk, OnOk};
ghost use Rattle.std.specs.List.{list_any};
ghost use Rattle.row_values.specs.Ids.{same};
ghost use Rattle.model.specs.Cleanup as book;
ghost use Rattle.master_cleanup.specs.Staying.{put_if};

use cluster_events::Removal;
use master_part::{MasterPart, put_slot};
use row_values::{NoMemory, Records, Slots};
use snapshot_coord::SnapshotRecord;
use tablet_inbox::Listed;
use yb_ident::Ident;

/// The slots that the removal of a snapshot touches: those of its listed tablets that are present.
pub fn snapshot_plan(master: &MasterPart, snapshot: &SnapshotRecord) -> Result<Slots, NoMemory>
    ensures exact { IfOk result (λ slots. slots ≡ book.snapshot_plan master.now.master snapshot.now) }
{
    let none = Records::new(master.alloc());
    plan_after(master, snapshot, &none)
}

/// The same once these tablets went.
pub fn plan_after(
    master: &MasterPart,
    snapshot: &SnapshotRecord,
    gone: &Records<Removal>,
) -> Result<Slots, NoMemory>
    ensures exact { IfOk result (λ slots. slots ≡ book.slots_where (λ tablet. not (list_any (λ t. same t.target tablet) gone.now)) master.now.master snapshot.now.listed) }
{
    slots_staying(master, snapshot.listed.as_slice(), gone.as_slice())
}

// The slots of the listed tablets that are present and don't go.
fn slots_staying(
    master: &MasterPart,
    listed: &[Listed],
    gone: &[Removal],
) -> Result<Slots, NoMemory>
    ensures exact { IfOk result (λ slots. slots ≡ book.slots_where (λ tablet. not (list_any (λ t. same t.target tablet) gone.now)) master.now.master listed.now) }
{
    let mut slots = Records::new(master.alloc());
    let mut upto = listed.len();
    'listed: while upto > 0 {
        upto -= 1;
        put_staying(master, &listed[upto], gone, &mut slots)?;
    }
    Ok(slots)
}

// The slot of a listed tablet is put to the others if it stays.
fn put_staying(
    master: &MasterPart,
    listed: &Listed,
    gone: &[Removal],
    slots: &mut Slots,
) -> Result<(), NoMemory>
    ensures put { OnOk result (slots.new ≡ put_if (book.is_present master.now.master listed.now.tablet && not (list_any (λ t. same t.target listed.now.tablet) gone.now)) listed.now.slot slots.old) }
{
    if is_present(master, &listed.tablet) && !goes(gone, &listed.tablet) {
        return put_slot(slots, listed.slot);
    }
    Ok(())
}

fn is_present(master: &MasterPart, tablet: &Ident) -> bool
    ensures exact { result ≡ book.is_present master.now.master tablet.now }
{
    master.tablets().last_of(tablet).is_some()
}

// Whether a tablet is among those that go.
fn goes(gone: &[Removal], tablet: &Ident) -> bool
    ensures exact { result ≡ list_any (λ t. same t.target tablet.now) gone.now }
{
    for removal in gone {
        if removal.target == *tablet {
            return true;
        }
    }
    false
}
