//! The course of each command.
ghost use Rattle.std.specs.Prelude.{◌≡◌, ◌<◌, ◌^◌, ℕ, [], ◌∷◌, Some, None, IfOk};
ghost use Rattle.model.specs.Acts as acts;
ghost use Rattle.model_runs.specs.Courses as book;
ghost use Rattle.model_runs.specs.Courses.{ScriptAsked, key_alone, write_into, read_places};
ghost use Rattle.commands.specs.Seen.{command_of, ask_of};
ghost use Rattle.commands.specs.NamedOps.{named_op_of};
ghost use Rattle.commands.specs.Scripts.{script_command_of};
ghost use Rattle.script_courses.specs.SeenCourses.{course_seen, follow_of};

use crate::course::{Course, Follow, Showing, Work};
use crate::times::{asked_at, time_at};
use cluster_events::Act;
use commands::{Ask, Command, NamedItem, NamedOp, ScriptCommand as Line};
use hybrid_time::HybridTime;
use row_values::{Copied, Key, Name, NoMemory, Records, Slots};
use std::alloc::Global;

// The master is told a command that touches no tablet.
fn tell_alone(alloc: Global, command: Command) -> Course
    ensures exact { (reading : ℕ) → course_seen reading result ≡ book.tell_alone (command_of command) }
{
    Course::Perform {
        act: Act::Change {
            command,
            slots: Slots::new(alloc),
        },
    }
}

// The master is told a command under the plan that a look finds.
fn plan_and_tell(command: Command) -> Result<Course, NoMemory>
    ensures exact { IfOk result (λ c. (reading : ℕ) → course_seen reading c ≡ book.plan_and_tell (command_of command)) }
{
    let asked = command.copy()?;
    Ok(Course::LookFor {
        ask: Ask::Plan(asked),
        follow: Follow::Change { command },
        showing: Showing::Reply,
    })
}

fn one_item(alloc: Global, key: Key, op: NamedOp) -> Result<Records<NamedItem>, NoMemory>
    ensures exact { IfOk result (λ batch. batch ≡ record { key = key; op = named_op_of op } ∷ []) }
{
    let mut batch = Records::new(alloc);
    batch.push(NamedItem { key, op })?;
    Ok(batch)
}

// A write looks for the place of its keys.
fn write_rows(namespace: Name, table: Name, batch: Records<NamedItem>) -> Result<Course, NoMemory>
    ensures exact { IfOk result (λ c. (reading : ℕ) → course_seen reading c ≡ book.LookFor (acts.AskKeys namespace table batch None) (write_into batch) book.ShowReply) }
{
    let asked = batch.copy()?;
    Ok(Course::LookFor {
        ask: Ask::Keys {
            namespace,
            table,
            batch: asked,
            at: None,
        },
        follow: Follow::Write { batch },
        showing: Showing::Reply,
    })
}

fn read_row(
    alloc: Global,
    namespace: Name,
    table: Name,
    key: Key,
    at: Option<HybridTime>,
) -> Result<Course, NoMemory>
    ensures exact { IfOk result (λ c. (reading : ℕ) → course_seen reading c ≡ book.LookFor (acts.AskKeys namespace table (key_alone key) at) (read_places (Some key) at) book.ShowRow) }
{
    let batch = one_item(alloc, key.copy()?, NamedOp::Upsert(Records::new(alloc)))?;
    Ok(Course::LookFor {
        ask: Ask::Keys {
            namespace,
            table,
            batch,
            at,
        },
        follow: Follow::ReadKey { key, at },
        showing: Showing::Row,
    })
}

fn read_table(namespace: Name, table: Name, at: &Option<HybridTime>) -> Course
    ensures exact { (reading : ℕ) → course_seen reading result ≡ book.LookFor (acts.AskTable namespace table at.now) (read_places None at.now) book.ShowTable }
{
    Course::LookFor {
        ask: Ask::Table {
            namespace,
            table,
            at: *at,
        },
        follow: Follow::ReadTable { at: *at },
        showing: Showing::Table,
    }
}

// Each of what a look finds is worked on, and the line counts that.
fn count_each(ask: Ask, follow: Follow) -> Course
    ensures exact { (reading : ℕ) → course_seen reading result ≡ book.LookFor (ask_of ask) (follow_of follow) book.ShowCount }
{
    Course::LookFor {
        ask,
        follow,
        showing: Showing::Count,
    }
}

/// The course of a command under the script's reading, in microseconds.
pub fn course_of(alloc: Global, reading: u64, command: Line) -> Result<Course, NoMemory>
    requires reading { reading < 2 ^ 50 }
    requires asked { (slots : ℕ) × ScriptAsked slots (script_command_of command) }
    ensures exact { IfOk result (λ c. course_seen reading c ≡ book.course_of reading (script_command_of command)) }
{
    match command {
        Line::Tick { micros } => Ok(Course::SetReading { micros }),
        Line::Lag { slot, micros } => Ok(Course::SetLag { slot, micros }),
        Line::CreateNamespace { namespace } => {
            Ok(tell_alone(alloc, Command::CreateNamespace { namespace }))
        }
        Line::DropNamespace { namespace } => Ok(tell_alone(
            alloc,
            Command::DropNamespace { namespace },
        )),
        Line::CreateTable {
            namespace,
            table,
            tablets,
            columns,
        } => plan_and_tell(Command::CreateTable {
            namespace,
            table,
            tablets,
            columns,
        }),
        Line::AddColumn {
            namespace,
            table,
            name,
            kind,
        } => plan_and_tell(Command::AddColumn {
            namespace,
            table,
            name,
            kind,
        }),
        Line::DropColumn {
            namespace,
            table,
            name,
        } => plan_and_tell(Command::DropColumn {
            namespace,
            table,
            name,
        }),
        Line::RenameTable {
            namespace,
            table,
            name,
        } => Ok(tell_alone(
            alloc,
            Command::RenameTable {
                namespace,
                table,
                name,
            },
        )),
        Line::DropTable { namespace, table } => {
            plan_and_tell(Command::DropTable { namespace, table })
        }
        Line::Put {
            namespace,
            table,
            key,
            cells,
        } => write_rows(
            namespace,
            table,
            one_item(alloc, key, NamedOp::Upsert(cells))?,
        ),
        Line::Delete {
            namespace,
            table,
            key,
        } => write_rows(namespace, table, one_item(alloc, key, NamedOp::Delete)?),
        Line::Batch {
            namespace,
            table,
            items,
        } => write_rows(namespace, table, items),
        Line::Get {
            namespace,
            table,
            key,
        } => read_row(alloc, namespace, table, key, None),
        Line::GetAt {
            namespace,
            table,
            key,
            at,
        } => read_row(alloc, namespace, table, key, Some(time_at(reading, at))),
        Line::Scan { namespace, table } => Ok(read_table(namespace, table, &None)),
        Line::ScanAt {
            namespace,
            table,
            at,
        } => Ok(read_table(namespace, table, &Some(time_at(reading, at)))),
        Line::Split {
            namespace,
            table,
            code,
        } => plan_and_tell(Command::Split {
            namespace,
            table,
            code,
        }),
        Line::CreateSnapshotSchedule {
            interval,
            retention,
            namespace,
        } => Ok(tell_alone(
            alloc,
            Command::CreateSnapshotSchedule {
                interval,
                retention,
                namespace,
            },
        )),
        Line::EditSnapshotSchedule {
            schedule,
            interval,
            retention,
        } => Ok(tell_alone(
            alloc,
            Command::EditSnapshotSchedule {
                schedule,
                interval,
                retention,
            },
        )),
        Line::DeleteSnapshotSchedule { schedule } => {
            Ok(tell_alone(alloc, Command::DeleteSnapshotSchedule { schedule }))
        }
        Line::TakeSnapshot { schedule } => Ok(tell_alone(
            alloc,
            Command::TakeSnapshot { schedule },
        )),
        Line::RestoreSnapshotSchedule { schedule, to } => {
            let to = time_at(reading, to);
            Ok(tell_alone(alloc, Command::RestoreSnapshotSchedule { schedule, to }))
        }
        Line::CloneNamespace { source, target, to } => {
            let to = asked_at(reading, to);
            Ok(tell_alone(alloc, Command::CloneNamespace { source, target, to }))
        }
        Line::ListSnapshotSchedules => Ok(tell_alone(alloc, Command::ListSnapshotSchedules)),
        Line::ListSnapshots => Ok(tell_alone(alloc, Command::ListSnapshots)),
        Line::ListSnapshotRestorations => Ok(tell_alone(alloc, Command::ListSnapshotRestorations)),
        Line::ListClones => Ok(tell_alone(alloc, Command::ListClones)),
        Line::ListTablets { namespace } => Ok(tell_alone(
            alloc,
            Command::ListTablets { namespace },
        )),
        Line::Cutoff => Ok(count_each(Ask::Present, Follow::CutoffEach)),
        Line::Compact => Ok(count_each(Ask::Present, Follow::CompactEach)),
        Line::Cleanup => Ok(count_each(Ask::Removable, Follow::RemoveEach)),
        Line::Coordinate { count } => Ok(Course::WorkOff {
            work: Work::Coordinate { count },
        }),
        Line::Settle => Ok(Course::WorkOff { work: Work::Settle }),
        Line::RestartMaster => Ok(Course::Perform {
            act: Act::Restart { slot: 0 },
        }),
        Line::RestartTablet { slot } => Ok(Course::Perform {
            act: Act::Restart { slot },
        }),
        Line::Stats { slot } => Ok(Course::Perform {
            act: Act::Stats { slot },
        }),
        Line::History => Ok(Course::ShowEntries),
    }
}
