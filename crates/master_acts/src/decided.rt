//! What each command comes to. A client's command is planned first, and refused where its plan is not the same any more.
ghost use Rattle.std.specs.Prelude.{◌≡◌, ◌<◌, IfOk};
ghost use Rattle.model.specs.Parts.{Parts};
ghost use Rattle.model.specs.Rules.{CommandAsked};
ghost use Rattle.model.specs.Looks.{plan_of};
ghost use Rattle.model.specs.Changes.{change, planned};
ghost use Rattle.commands.specs.Seen.{command_of};
ghost use Rattle.master_part.specs.Acts.{IsLawful};
ghost use Rattle.master_part.specs.Decisions.{outcome_by, MayDo};

use crate::cloning::decide_clone;
use crate::columns::{decide_add_column, decide_drop_column, decide_rename_table};
use crate::decide::{
    decide_create_namespace, decide_create_schedule, decide_create_table, decide_delete_schedule,
    decide_drop_namespace, decide_drop_table, decide_edit_schedule, decide_split,
};
use crate::lists::{list_clones, list_restorations, list_schedules, list_snapshots, list_tablets};
use crate::operations::{decide_restore, decide_take_snapshot};
use crate::plans::plan_of;
use cluster_events::{Refusal, Reply};
use commands::Command;
use hybrid_time::HybridTime;
use master_part::{Decision, MasterPart, same_slots};
use row_values::{NoMemory, Slots};

/// What a command comes to whose plan was these slots.
#[tactic(auto, using(crate::proofs::Planned::same_is), unfolding(model::specs::Changes::change))]
pub fn decide_change(
    master: &MasterPart,
    command: &Command,
    slots: &Slots,
    stamp: HybridTime,
) -> Result<Decision, NoMemory>
    requires lawful { IsLawful master.now.master }
    requires later { master.now.master.clock < stamp }
    requires asked { CommandAsked (command_of command.now) }
    ensures plan { IfOk result (λ d. (ps : Parts) → ps.master ≡ master.now.master → outcome_by ps.tablet d ≡ change (command_of command.now) slots.now stamp ps) }
    ensures may { IfOk result (λ d. MayDo d stamp master.now.master) }
{
    let kept = plan_of(master, command)?;
    if !same_slots(slots, &kept) {
        return Ok(Decision::Answers(Reply::Refused(Refusal::StalePlan { kept })));
    }
    decide_planned(master, command, slots, stamp)
}

// What a command comes to in the slots of its plan.
#[tactic(auto, using(crate::proofs::Planned::names_apart, crate::proofs::Planned::few_planned), unfolding(model::specs::Looks::plan_of))]
fn decide_planned(
    master: &MasterPart,
    command: &Command,
    slots: &Slots,
    stamp: HybridTime,
) -> Result<Decision, NoMemory>
    requires lawful { IsLawful master.now.master }
    requires later { master.now.master.clock < stamp }
    requires asked { CommandAsked (command_of command.now) }
    requires plan { slots.now ≡ plan_of (command_of command.now) master.now.master }
    ensures plan { IfOk result (λ d. (ps : Parts) → ps.master ≡ master.now.master → outcome_by ps.tablet d ≡ planned (command_of command.now) slots.now stamp ps) }
    ensures may { IfOk result (λ d. MayDo d stamp master.now.master) }
{
    match command {
        Command::CreateNamespace { namespace } => decide_create_namespace(master, namespace),
        Command::DropNamespace { namespace } => decide_drop_namespace(master, namespace),
        Command::CreateTable {
            namespace,
            table,
            tablets,
            columns,
        } => decide_create_table(master, namespace, table, *tablets, columns, slots, stamp),
        Command::AddColumn {
            namespace,
            table,
            name,
            kind,
        } => decide_add_column(master, namespace, table, name, *kind, slots, stamp),
        Command::DropColumn {
            namespace,
            table,
            name,
        } => decide_drop_column(master, namespace, table, name, slots, stamp),
        Command::RenameTable {
            namespace,
            table,
            name,
        } => decide_rename_table(master, namespace, table, name, stamp),
        Command::DropTable { namespace, table } => {
            decide_drop_table(master, namespace, table, slots, stamp)
        }
        Command::Split {
            namespace,
            table,
            code,
        } => decide_split(master, namespace, table, *code, stamp),
        Command::CreateSnapshotSchedule {
            interval,
            retention,
            namespace,
        } => decide_create_schedule(master, *interval, *retention, namespace),
        Command::EditSnapshotSchedule {
            schedule,
            interval,
            retention,
        } => decide_edit_schedule(master, schedule, *interval, *retention),
        Command::DeleteSnapshotSchedule { schedule } => decide_delete_schedule(master, schedule),
        Command::TakeSnapshot { schedule } => decide_take_snapshot(master, schedule, stamp),
        Command::RestoreSnapshotSchedule { schedule, to } => decide_restore(
            master, schedule, *to, stamp,
        ),
        Command::CloneNamespace { source, target, to } => {
            decide_clone(master, source, target, *to, stamp)
        }
        Command::ListSnapshotSchedules => Ok(Decision::Answers(list_schedules(master, stamp)?)),
        Command::ListSnapshots => Ok(Decision::Answers(list_snapshots(master)?)),
        Command::ListSnapshotRestorations => Ok(Decision::Answers(list_restorations(master)?)),
        Command::ListClones => Ok(Decision::Answers(list_clones(master)?)),
        Command::ListTablets { namespace } => Ok(Decision::Answers(list_tablets(
            master, namespace,
        )?)),
    }
}
