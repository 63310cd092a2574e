//! The run of a script: words, reading, grammar, and its commands one after the other.

ghost use Rattle.std.specs.Prelude.{◌≡◌, ◌≢◌, ◌≤◌, ◌<◌, ◌⊎◌, [], length};
ghost use Rattle.std.specs.Io.KnownBytes.{Appends};
ghost use Rattle.model.specs.Drawn.{most_slots};
ghost use Rattle.model.specs.History.{Legal};
ghost use Rattle.script_lang.specs.Script.{script_of};
ghost use Rattle.script_io.specs.Causes.{Rose};
ghost use Rattle.script_io.specs.Streams.{IsLonger, AppendsPart};
ghost use Rattle.yb_script.specs.Called.{IsForm, slot_count};
ghost use Rattle.yb_script.specs.Endings.{GoesThrough, IsRun, IsFault, IsWriteFault, IsMemoryFault, IsFullRun, OfTold, fault_line};
ghost use Rattle.yb_script.specs.Lawful.{IsRight};

use crate::called::slots_asked;
use crate::laws::what_is_legal_is_right;
use crate::performing::{Ended, run_commands};
use crate::refusal::fault_line;
use cluster_core::History;
use script_asked::what_a_script_spells_may_be_asked;
use script_io::{ReadRefused, Sink, Source, read_all, write_all};
use script_lang::{Cause, ScriptRefused, read_script};
use script_runs::ScriptRun;
use std::alloc::Global;
use versions::{PlainStore, VersionStore};

/// The most bytes that a script has.
const LIMIT: u64 = 1_048_576;

/// An end before the first command.
fn unbegun<V: VersionStore>(status: u8) -> Ended<V>
    ensures status { result.status ≡ status }
    ensures history { result.history ≡ [] }
    ensures done { result.done ≡ 0 }
{
    Ended {
        status,
        history: History::empty(),
        done: 0,
    }
}

/// Names the first line that is refused, with its cause.
fn refuse<V: VersionStore, K: Sink>(
    alloc: Global,
    line: u64,
    cause: Cause,
    sink: &mut K,
) -> Ended<V>
    ensures statuses { (result.status ≡ 3) ⊎ (result.status ≡ 5) ⊎ (result.status ≡ 6) }
    ensures none { (result.history ≡ []) × (result.done ≡ 0) }
    ensures text { result.status ≡ 3 → Appends (K.written sink.old) (K.written sink.new) (fault_line line cause) }
    ensures part { result.status ≡ 5 → AppendsPart (K.written sink.old) (K.written sink.new) (fault_line line cause) }
    ensures nothing { result.status ≡ 6 → K.written sink.new ≡ K.written sink.old }
    ensures write_fault { result.status ≡ 5 → Rose (K.faults sink.old) (K.faults sink.new) }
{
    let Ok(text) = fault_line(alloc, line, cause) else {
        return unbegun(6);
    };
    match write_all(sink, text.as_slice()) {
        Ok(()) => unbegun(3),
        Err(_) => unbegun(5),
    }
}

/// Runs a script that was read to its end, over so many slots.
fn run_script<V: VersionStore, K: Sink>(
    alloc: Global,
    bytes: &[u8],
    slots: u32,
    sink: &mut K,
) -> Ended<V>
    requires few { slots ≤ most_slots }
    ensures statuses { (result.status ≡ 0) ⊎ (result.status ≡ 3) ⊎ (result.status ≡ 5) ⊎ (result.status ≡ 6) ⊎ (result.status ≡ 8) }
    ensures run { result.status ≡ 0 → IsRun slots (script_of slots bytes.now) result.history result.done (K.written sink.old) (K.written sink.new) }
    ensures fault { result.status ≡ 3 → IsFault (script_of slots bytes.now) result.history result.done (K.written sink.old) (K.written sink.new) }
    ensures cut { result.status ≡ 5 → IsWriteFault slots (script_of slots bytes.now) result.history result.done (K.written sink.old) (K.written sink.new) }
    ensures broken { result.status ≡ 6 → IsMemoryFault slots (script_of slots bytes.now) result.history result.done (K.written sink.old) (K.written sink.new) }
    ensures full { result.status ≡ 8 → IsFullRun slots (script_of slots bytes.now) result.history result.done (K.written sink.old) (K.written sink.new) }
    ensures write_fault { result.status ≡ 5 → Rose (K.faults sink.old) (K.faults sink.new) }
    ensures complete { GoesThrough slots (script_of slots bytes.now) → ¬ Rose (K.faults sink.old) (K.faults sink.new) → (result.status ≡ 0) ⊎ (result.status ≡ 6) }
    ensures legal { Legal slots result.history }
{
    what_a_script_spells_may_be_asked();
    match read_script(alloc, bytes, slots) {
        Ok(script) => {
            let Ok(empty) = ScriptRun::begin(alloc, slots) else {
                return unbegun(6);
            };
            run_commands(alloc, script, empty, sink)
        }
        Err(ScriptRefused::Line { line, cause }) => refuse(alloc, line, cause, sink),
        Err(ScriptRefused::NoMemory) => unbegun(6),
    }
}

/// Reads the source to its end, and runs it as a script over so many slots.
fn run_source<V: VersionStore, S: Source, K: Sink>(
    alloc: Global,
    slots: u32,
    source: &mut S,
    sink: &mut K,
) -> Ended<V>
    requires few { slots ≤ most_slots }
    ensures read_fault { result.status ≡ 4 → Rose (S.faults source.old) (S.faults source.new) }
    ensures write_fault { result.status ≡ 5 → Rose (K.faults sink.old) (K.faults sink.new) }
    ensures too_long { result.status ≡ 7 → IsLonger (S.left source.old) 1048576 }
    ensures short { (result.status ≡ 0) ⊎ (result.status ≡ 3) ⊎ (result.status ≡ 5) ⊎ (result.status ≡ 8) → OfTold (S.left source.old) (λ bytes. length bytes ≤ 1048576) }
    ensures fault { result.status ≡ 3 → OfTold (S.left source.old) (λ bytes. IsFault (script_of slots bytes) result.history result.done (K.written sink.old) (K.written sink.new)) }
    ensures run { result.status ≡ 0 → OfTold (S.left source.old) (λ bytes. IsRun slots (script_of slots bytes) result.history result.done (K.written sink.old) (K.written sink.new)) }
    ensures cut { result.status ≡ 5 → OfTold (S.left source.old) (λ bytes. IsWriteFault slots (script_of slots bytes) result.history result.done (K.written sink.old) (K.written sink.new)) }
    ensures broken { result.status ≡ 6 → OfTold (S.left source.old) (λ bytes. IsMemoryFault slots (script_of slots bytes) result.history result.done (K.written sink.old) (K.written sink.new)) }
    ensures full { result.status ≡ 8 → OfTold (S.left source.old) (λ bytes. IsFullRun slots (script_of slots bytes) result.history result.done (K.written sink.old) (K.written sink.new)) }
    ensures silent { (result.status ≡ 4) ⊎ (result.status ≡ 7) → (K.written sink.new ≡ K.written sink.old) × (result.history ≡ []) × (result.done ≡ 0) }
    ensures statuses { (result.status ≡ 0) ⊎ (result.status ≡ 3) ⊎ (result.status ≡ 4) ⊎ (result.status ≡ 5) ⊎ (result.status ≡ 6) ⊎ (result.status ≡ 7) ⊎ (result.status ≡ 8) }
    ensures long { OfTold (S.left source.old) (λ bytes. 1048576 < length bytes → (result.status ≡ 4) ⊎ (result.status ≡ 6) ⊎ (result.status ≡ 7)) }
    ensures complete { OfTold (S.left source.old) (λ bytes. length bytes ≤ 1048576 → GoesThrough slots (script_of slots bytes) → ¬ Rose (S.faults source.old) (S.faults source.new) → ¬ Rose (K.faults sink.old) (K.faults sink.new) → (result.status ≡ 0) ⊎ (result.status ≡ 6)) }
    ensures legal { Legal slots result.history }
{
    match read_all(alloc, source, LIMIT) {
        Ok(bytes) => run_script(alloc, bytes.as_slice(), slots, sink),
        Err(ReadRefused::ReadFault) => unbegun(4),
        Err(ReadRefused::TooLong { limit: _ }) => unbegun(7),
        Err(ReadRefused::NoMemory) => unbegun(6),
    }
}

/// Runs the script of a source and writes its replies to a sink. The source is read to its end
/// first, then the script is read whole, and then its commands are done.
pub fn run<S: Source, K: Sink>(
    alloc: Global,
    words: &[String],
    source: &mut S,
    sink: &mut K,
) -> Ended<PlainStore>
    // 2 comes exactly where the words are no form.
    ensures no_form { result.status ≡ 2 → ¬ IsForm words.now }
    ensures form { ¬ IsForm words.now → result.status ≡ 2 }
    // 4 and 5 come only where a count of faults rose in this call.
    ensures read_fault { result.status ≡ 4 → Rose (S.faults source.old) (S.faults source.new) }
    ensures write_fault { result.status ≡ 5 → Rose (K.faults sink.old) (K.faults sink.new) }
    // 7 comes where the source gives more than the most bytes of a script; 0, 3, 5 and 8 don't.
    ensures too_long { result.status ≡ 7 → IsLonger (S.left source.old) 1048576 }
    ensures short { (result.status ≡ 0) ⊎ (result.status ≡ 3) ⊎ (result.status ≡ 5) ⊎ (result.status ≡ 8) → OfTold (S.left source.old) (λ bytes. length bytes ≤ 1048576) }
    ensures long { IsForm words.now → OfTold (S.left source.old) (λ bytes. 1048576 < length bytes → (result.status ≡ 4) ⊎ (result.status ≡ 6) ⊎ (result.status ≡ 7)) }
    // 3 comes only where a line is refused: the first one was written, with its cause, and nothing was done.
    ensures fault { result.status ≡ 3 → OfTold (S.left source.old) (λ bytes. IsFault (script_of (slot_count words.now) bytes) result.history result.done (K.written sink.old) (K.written sink.new)) }
    // 0 comes only where no line is refused: the history and the text are those of the commands.
    ensures run { result.status ≡ 0 → OfTold (S.left source.old) (λ bytes. IsRun (slot_count words.now) (script_of (slot_count words.now) bytes) result.history result.done (K.written sink.old) (K.written sink.new)) }
    // 5 comes behind the events of the command whose line was written in part, or where the refused line was.
    ensures cut { result.status ≡ 5 → OfTold (S.left source.old) (λ bytes. IsWriteFault (slot_count words.now) (script_of (slot_count words.now) bytes) result.history result.done (K.written sink.old) (K.written sink.new)) }
    // 6 comes within a command at most: the lines of those before it are written, and no more.
    ensures broken { result.status ≡ 6 → OfTold (S.left source.old) (λ bytes. IsMemoryFault (slot_count words.now) (script_of (slot_count words.now) bytes) result.history result.done (K.written sink.old) (K.written sink.new)) }
    // 8 comes exactly where the book's run stops: the next event can't be stamped, or finds its log full.
    ensures full { result.status ≡ 8 → OfTold (S.left source.old) (λ bytes. IsFullRun (slot_count words.now) (script_of (slot_count words.now) bytes) result.history result.done (K.written sink.old) (K.written sink.new)) }
    // Whatever the status: the history is legal, and all holds of it that the law says.
    ensures right { IsRight (slot_count words.now) result.history }
    // Nothing is written, and nothing done, where the words are no form or the source is not read whole.
    ensures silent { (result.status ≡ 2) ⊎ (result.status ≡ 4) ⊎ (result.status ≡ 7) → (K.written sink.new ≡ K.written sink.old) × (result.history ≡ []) × (result.done ≡ 0) }
    ensures statuses { (result.status ≤ 8) × (result.status ≢ 1) }
    // A script that the book's run goes through is done whole, unless a count of faults rises or memory ends.
    ensures complete { IsForm words.now → OfTold (S.left source.old) (λ bytes. length bytes ≤ 1048576 → GoesThrough (slot_count words.now) (script_of (slot_count words.now) bytes) → ¬ Rose (S.faults source.old) (S.faults source.new) → ¬ Rose (K.faults sink.old) (K.faults sink.new) → (result.status ≡ 0) ⊎ (result.status ≡ 6)) }
{
    what_is_legal_is_right();
    let Some(slots) = slots_asked(words) else {
        return unbegun(2);
    };
    run_source(alloc, slots, source, sink)
}
