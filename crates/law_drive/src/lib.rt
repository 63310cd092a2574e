//! Whatever is interrupted comes to its end: a coordinator always has something to do as long as a record is
//! unfinished; what it does next is accepted, or finds a command not done; and by it all that was accepted is finished,
//! once. It speaks of definitions alone.
#![tactic(auto)]

ghost use Rattle.std.specs.Prelude.{◌≡◌, ℕ, ◌≤◌, ◌<◌, ◌^◌, true, List, [], ◌∷◌, Some};
ghost use Rattle.row_values.specs.Ids.{Id};
ghost use Rattle.row_values.specs.Elements.{In};
ghost use Rattle.model.specs.Records.{SnapshotRecord};
ghost use Rattle.model.specs.Acts.{Act, Change, Restore};
ghost use Rattle.model.specs.Entries.{Entry};
ghost use Rattle.model.specs.History.{Legal, replay};
ghost use Rattle.model.specs.Once.{CloneAsked, RestoreAsked, clones_asked, restores_asked};
ghost use Rattle.model.specs.Windows.{MayRestore};
ghost use Rattle.model.specs.Work.{next_act};
ghost use Rattle.model.specs.Settling.{AlwaysNext, GoesOn, Settles, after_act, after_acts, left, reply_under, settle};
ghost use Rattle.law_drive.specs.Counting.{events_left};
ghost use Rattle.law_drive.specs.Settled.{CloneFinished, RestoreFinished, Served, SettleRuns, SnapshotFinished, settled};

/// After any legal history, whatever restarts lost: as long as a record is unfinished something comes next, and the
/// act that comes next is accepted, or is an ack that finds its command not done.
pub fn something_comes_next()
    ensures always { (slots : ℕ) (history : List Entry) → Legal slots history → AlwaysNext (replay slots history).master }
    ensures goes_on { (slots reading : ℕ) (history : List Entry) (act : Act) → Legal slots history → next_act (replay slots history) ≡ Some act → GoesOn act (reply_under reading act (replay slots history)) }
{}

/// After any legal history the events that are left are at most so many as the book allows, and with each that comes
/// next they are fewer, whatever the reading. So settling ends by itself, within its bound: each of its acts is
/// accepted, or finds a command not done, and no record is unfinished behind them.
pub fn settling_ends()
    ensures bounded { (slots : ℕ) (history : List Entry) → Legal slots history → events_left (replay slots history) ≤ left (replay slots history).master }
    ensures falls { (slots reading : ℕ) (history : List Entry) (act : Act) → Legal slots history → next_act (replay slots history) ≡ Some act → events_left (after_act reading act (replay slots history)) < events_left (replay slots history) }
    ensures settles { (slots reading : ℕ) (history : List Entry) → Legal slots history → Settles reading (replay slots history) }
{}

/// A settle after a legal history, of which no event meets the end of the clock or a full log, where nothing else
/// performs events. Its events make a legal history, which leaves what its acts do. Behind it every snapshot is complete,
/// and none that was kept is left out; and every restore and every clone that was ever accepted is finished, once: a restore made the one
/// restore of its namespace to its time, a clone its one clone.
pub fn accepted_is_finished()
    ensures legal { (slots reading : ℕ) (history : List Entry) → Legal slots history → reading < 2 ^ 50 → SettleRuns slots reading history → Legal slots (settled slots reading history) }
    ensures leaves { (slots reading : ℕ) (history : List Entry) → Legal slots history → reading < 2 ^ 50 → SettleRuns slots reading history → replay slots (settled slots reading history) ≡ after_acts reading (settle reading (replay slots history)) (replay slots history) }
    ensures complete { (slots reading : ℕ) (history : List Entry) (r : SnapshotRecord) → Legal slots history → reading < 2 ^ 50 → SettleRuns slots reading history → In r (replay slots (settled slots reading history)).master.snapshots → r.complete ≡ true }
    ensures snapshots { (slots reading : ℕ) (history : List Entry) (r : SnapshotRecord) → Legal slots history → reading < 2 ^ 50 → SettleRuns slots reading history → In r (replay slots history).master.snapshots → SnapshotFinished slots (settled slots reading history) r.id }
    ensures restores { (slots reading : ℕ) (history : List Entry) (asked : RestoreAsked) → Legal slots history → reading < 2 ^ 50 → SettleRuns slots reading history → In asked (restores_asked slots history) → RestoreFinished slots (settled slots reading history) asked }
    ensures clones { (slots reading : ℕ) (history : List Entry) (asked : CloneAsked) → Legal slots history → reading < 2 ^ 50 → SettleRuns slots reading history → In asked (clones_asked slots history) → CloneFinished slots (settled slots reading history) asked }
{}

/// The service: a restore by a known schedule, of a namespace that no operation uses, is accepted exactly inside the
/// schedule's window, and refused outside of it. An accepted one comes to its end by a settle as above: its record is
/// finished, and from its point on the namespace's tables and rows are as the changes stamped by its time left them.
pub fn a_restore_comes_back()
    ensures service { (slots : ℕ) (e : Entry) (history : List Entry) (schedule : Id) (to : ℕ) → Legal slots (e ∷ history) → e.event.act ≡ Change (Restore schedule to) [] → (may : MayRestore (replay slots history).master schedule) → Served slots e history schedule may.by to }
{}
