//! The commands of a script, done one after the other.

ghost use Rattle.std.specs.Prelude.{◌≡◌, ◌≤◌, ◌⊎◌, [], IfErr, OnOk};
ghost use Rattle.std.specs.Io.KnownBytes.{Appends};
ghost use Rattle.row_values.specs.Elements.{AllOf};
ghost use Rattle.model.specs.History.{Legal};
ghost use Rattle.model_runs.specs.Courses.{ScriptAsked};
ghost use Rattle.model_runs.specs.Running.{begun};
ghost use Rattle.commands.specs.Scripts.{script_command_of};
ghost use Rattle.script_io.specs.Causes.{Rose};
ghost use Rattle.script_lang.specs.declared.script.ScriptLine.TheVariants.{Single};
ghost use Rattle.script_asked.specs.Numbered.{numbered_of};
ghost use Rattle.script_runs.specs.Runs.{run_at, numbered, text_between, Ran};
ghost use Rattle.yb_script.specs.Endings.{HaltedBy, IsHalted, IsWhole, IsCut, IsBroken, IsFull, status_of};

use admin_words::Text;
use cluster_core::History;
use script_io::{Sink, write_all};
use script_lang::{NumberedCommand, Script, ScriptCommand, ScriptLine};
use script_runs::{ScriptRun, Stop};
use std::alloc::Global;
use versions::VersionStore;

/// How a run ended: the status that the program ends with, the entries that its events made, and
/// how many commands were done.
#[derive(Drop)]
pub struct Ended<V: VersionStore> {
    pub status: u8,
    pub history: History<V>,
    pub done: u64,
}

/// Why a command is the last.
#[derive(Clone, Copy, Debug, PartialEq, Eq)]
pub enum Halt {
    WriteFault,
    /// An event can't be stamped, or the log that would keep it is full.
    Full,
    NoMemory,
}

/// The command of a line.
fn single(line: ScriptLine) -> NumberedCommand
    ensures same { Single result ≡ line }
{
    let ScriptLine::Single(command) = line;
    command
}

fn parts_of(command: NumberedCommand) -> (u64, ScriptCommand)
    ensures same { numbered result.0 (script_command_of result.1) ≡ command }
{
    let NumberedCommand { line, command } = command;
    (line, command)
}

/// Does a command and writes its line.
fn answer<V: VersionStore, K: Sink>(
    alloc: Global,
    command: NumberedCommand,
    run: &mut ScriptRun<V>,
    sink: &mut K,
) -> Result<(), Halt>
    requires asked { ScriptAsked run.old.slots command.command }
    ensures slots { run.new.slots ≡ run.old.slots }
    ensures ran { OnOk result (Ran command run.old run.new) }
    ensures text { OnOk result (Appends (K.written sink.old) (K.written sink.new) (text_between command run.old run.new)) }
    ensures halted { IfErr result (IsHalted command run.old run.new (K.written sink.old) (K.written sink.new)) }
    ensures cause { IfErr result (HaltedBy (K.faults sink.old) (K.faults sink.new)) }
    ensures faults { K.faults sink.old ≤ K.faults sink.new }
{
    let (line, command) = parts_of(command);
    let mut text = Text::new(alloc);
    match run.perform(line, command, &mut text) {
        Ok(()) => {}
        Err(Stop::Full) => return Err(Halt::Full),
        Err(Stop::NoMemory) => return Err(Halt::NoMemory),
    }
    match write_all(sink, text.as_slice()) {
        Ok(()) => Ok(()),
        Err(_) => Err(Halt::WriteFault),
    }
}

fn status_of(halt: Halt) -> u8
    ensures exact { result ≡ status_of halt }
{
    match halt {
        Halt::WriteFault => 5,
        Halt::Full => 8,
        Halt::NoMemory => 6,
    }
}

/// An end after the first commands.
fn end_of<V: VersionStore>(status: u8, run: ScriptRun<V>, done: u64) -> Ended<V>
    ensures status { result.status ≡ status }
    ensures history { result.history ≡ run.history }
    ensures done { result.done ≡ done }
    ensures legal { Legal run.slots result.history }
{
    Ended {
        status,
        history: run.into_history(),
        done,
    }
}

/// Does the commands of a script, from the empty cluster.
pub fn run_commands<V: VersionStore, K: Sink>(
    alloc: Global,
    script: Script,
    empty: ScriptRun<V>,
    sink: &mut K,
) -> Ended<V>
    requires begun { run_at empty [] 0 ≡ begun }
    requires asked { AllOf (λ c. ScriptAsked empty.slots c.command) (numbered_of script.lines) }
    ensures statuses { (result.status ≡ 0) ⊎ (result.status ≡ 5) ⊎ (result.status ≡ 6) ⊎ (result.status ≡ 8) }
    ensures whole { result.status ≡ 0 → IsWhole empty.slots (numbered_of script.lines) result.history result.done (K.written sink.old) (K.written sink.new) }
    ensures cut { result.status ≡ 5 → IsCut empty.slots (numbered_of script.lines) result.history result.done (K.written sink.old) (K.written sink.new) }
    ensures broken { result.status ≡ 6 → IsBroken empty.slots (numbered_of script.lines) result.history result.done (K.written sink.old) (K.written sink.new) }
    ensures full { result.status ≡ 8 → IsFull empty.slots (numbered_of script.lines) result.history result.done (K.written sink.old) (K.written sink.new) }
    ensures write_fault { result.status ≡ 5 → Rose (K.faults sink.old) (K.faults sink.new) }
    ensures legal { Legal empty.slots result.history }
{
    let mut run = empty;
    let mut done = 0u64;
    let count = script.lines.len();
    for line in script.lines.into_vec() {
        match answer(alloc, single(line), &mut run, sink) {
            Ok(()) => done += 1,
            Err(halt) => return end_of(status_of(halt), run, done),
        }
    }
    end_of(0, run, done)
}
