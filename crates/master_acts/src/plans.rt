//! The slots that a command touches besides the master.
ghost use Rattle.std.specs.Prelude.{◌≡◌, [], ◌∷◌, IfOk, map};
ghost use Rattle.row_values.specs.Slots.{rising};
ghost use Rattle.model.specs.Looks as book;
ghost use Rattle.model.specs.Looks.{slots_for, least_slots, free_slots, found_namespace, found_table, found_family, found_parent, slots_of_table};
ghost use Rattle.commands.specs.Seen.{command_of};

use crate::fields::slot_of;
use crate::found::found_table;
use catalog_tablets::Interval;
use commands::Command;
use master_part::{MasterPart, put_slot, table_id};
use row_values::{Name, NoMemory, Records, Slots};
use std::alloc::Global;
use yb_ident::Ident;

/// The slots that a command touches besides the master, by what the master has now.
#[tactic(auto, unfolding(model::specs::Looks::plan_of))]
pub fn plan_of(master: &MasterPart, command: &Command) -> Result<Slots, NoMemory>
    ensures exact { IfOk result (λ slots. slots ≡ book.plan_of (command_of command.now) master.now.master) }
{
    match command {
        Command::CreateTable {
            namespace,
            tablets,
            ..
        } => plan_new_table(master, namespace, *tablets),
        Command::AddColumn {
            namespace,
            table,
            ..
        } => plan_table(master, namespace, table),
        Command::DropColumn {
            namespace,
            table,
            ..
        } => plan_table(master, namespace, table),
        Command::DropTable { namespace, table } => plan_table(master, namespace, table),
        Command::Split {
            namespace,
            table,
            code,
        } => plan_split(master, namespace, table, *code),
        Command::CreateNamespace { .. } => Ok(Records::new(master.alloc())),
        Command::DropNamespace { .. } => Ok(Records::new(master.alloc())),
        Command::RenameTable { .. } => Ok(Records::new(master.alloc())),
        Command::CreateSnapshotSchedule { .. } => Ok(Records::new(master.alloc())),
        Command::EditSnapshotSchedule { .. } => Ok(Records::new(master.alloc())),
        Command::DeleteSnapshotSchedule { .. } => Ok(Records::new(master.alloc())),
        Command::TakeSnapshot { .. } => Ok(Records::new(master.alloc())),
        Command::RestoreSnapshotSchedule { .. } => Ok(Records::new(master.alloc())),
        Command::CloneNamespace { .. } => Ok(Records::new(master.alloc())),
        Command::ListSnapshotSchedules => Ok(Records::new(master.alloc())),
        Command::ListSnapshots => Ok(Records::new(master.alloc())),
        Command::ListSnapshotRestorations => Ok(Records::new(master.alloc())),
        Command::ListClones => Ok(Records::new(master.alloc())),
        Command::ListTablets { .. } => Ok(Records::new(master.alloc())),
    }
}

// The least free slots for the tablets of a new table.
fn plan_new_table(master: &MasterPart, namespace: &Name, tablets: u32) -> Result<Slots, NoMemory>
    ensures exact { IfOk result (λ slots. slots ≡ slots_for (found_namespace master.now.master namespace.now) (λ _. least_slots tablets (free_slots master.now.master))) }
{
    if master.catalog().namespace_named(namespace).is_none() {
        return Ok(Records::new(master.alloc()));
    }
    master.least_free(tablets)
}

// The slots of a table's active tablets.
fn plan_table(master: &MasterPart, namespace: &Name, table: &Name) -> Result<Slots, NoMemory>
    ensures exact { IfOk result (λ slots. slots ≡ slots_for (found_table master.now.master namespace.now table.now) (λ t. slots_of_table master.now.master t.id)) }
{
    match found_table(master, namespace, table) {
        Ok(found) => slots_of_table(master, &table_id(found)),
        Err(_) => Ok(Records::new(master.alloc())),
    }
}

fn slots_of_table(master: &MasterPart, table: &Ident) -> Result<Slots, NoMemory>
    ensures exact { IfOk result (λ slots. slots ≡ slots_of_table master.now.master table.now) }
{
    let active = master.tablets().active_in(table)?;
    slots_of(master.alloc(), active.as_slice())
}

// The slot of a tablet that is split, and those of its children.
#[tactic(auto, using(master_part::proofs::Slots::free_all))]
fn plan_split(
    master: &MasterPart,
    namespace: &Name,
    table: &Name,
    code: u16,
) -> Result<Slots, NoMemory>
    ensures exact { IfOk result (λ slots. slots ≡ slots_for (found_family (found_parent master.now.master namespace.now table.now code) master.now.master) (λ f. f.parent.tablet.slot ∷ f.low_slot ∷ f.high_slot ∷ [])) }
{
    let mut slots = Records::new(master.alloc());
    let Ok(found) = found_table(master, namespace, table) else {
        return Ok(slots);
    };
    let Some(tablet) = master.tablets().holding(&table_id(found), code) else {
        return Ok(slots);
    };
    let Some(low_slot) = master.first_free(0) else {
        return Ok(slots);
    };
    let Some(high_slot) = master.first_free(low_slot) else {
        return Ok(slots);
    };
    slots.push(slot_of(&tablet))?;
    slots.push(low_slot)?;
    slots.push(high_slot)?;
    Ok(slots)
}

// The slots of tablets, each once, in rising order.
fn slots_of(alloc: Global, active: &[Interval]) -> Result<Slots, NoMemory>
    ensures exact { IfOk result (λ found. found ≡ rising (map (λ i. i.slot) active.now)) }
{
    let mut found = Records::new(alloc);
    let mut upto = active.len();
    'slots: while upto > 0 {
        upto -= 1;
        put_slot(&mut found, slot_of(&active[upto]))?;
    }
    Ok(found)
}
