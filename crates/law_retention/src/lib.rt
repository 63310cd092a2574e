//! Retention: what a time in the window needs is never taken. The laws speak of definitions alone, and so of no code. No function
//! here does anything.
#![tactic(auto)]

ghost use Rattle.std.specs.Prelude.{ℕ, List};
ghost use Rattle.row_values.specs.Ids.{Id};
ghost use Rattle.model.specs.Activity.{Interval};
ghost use Rattle.model.specs.Acts.{Act};
ghost use Rattle.model.specs.Cleanup.{pruned};
ghost use Rattle.model.specs.Entries.{ActAsked, slots_of};
ghost use Rattle.model.specs.History.{outcome, told};
ghost use Rattle.model.specs.Journal.{Change};
ghost use Rattle.model.specs.Parts.{Master, Parts, start};
ghost use Rattle.model.specs.Records.{SnapshotRecord};
ghost use Rattle.model.specs.Retained.{Retained, RowsFound};
ghost use Rattle.model.specs.Taking.{MarkRaised, TakesNothingNeeded};
ghost use Rattle.law_invariants.specs.Invariant.{Inv, Later, MasterGood};
ghost use Rattle.law_retention.specs.Facts.{Facts, IsTaken};

/// Retention follows from what holds after each entry, and from facts of its own: how far back each
/// tablet's live store and its frozen sets go, that after the last complete snapshot a tablet is active
/// in its last interval alone, and how the times of a namespace's snapshots follow each other; and from
/// what holds of all snapshots that were ever taken.
pub fn retention_follows()
    ensures retained { (ps : Parts) (activity : List Interval) (changes : List Change) (taken : List SnapshotRecord) (since : Id → ℕ) → Inv ps activity changes → Facts ps → IsTaken taken since ps.master → Retained ps activity taken since }
{}

/// Where the invariants and the facts hold, a command that lies in an inbox finds its rows: the frozen set
/// that a restore or a clone takes them from is there, and goes back to the time.
pub fn rows_are_never_gone()
    ensures found { (ps : Parts) (activity : List Interval) (changes : List Change) → Inv ps activity changes → Facts ps → RowsFound ps }
{}

/// The facts hold at the start, and each act keeps them, where what holds after each entry holds before
/// it and after it.
pub fn facts_are_kept()
    ensures start { (slots : ℕ) → Facts (start slots) }
    ensures kept { (act : Act) (slots n : ℕ) (ps : Parts) (activity : List Interval) (changes : List Change) (later_activity : List Interval) (later_changes : List Change) → ActAsked slots act → Later (slots_of act) ps n → Inv ps activity changes → Facts ps → Inv (told act (outcome act n ps) n ps) later_activity later_changes → Facts (told act (outcome act n ps) n ps) }
{}

/// Where the invariants hold before an act and after it, and the facts before it, the act took nothing that a
/// time needs, from the floor of a namespace with a schedule on, and before the act's stamp where the master takes part: no
/// version, no frozen set, no tablet, no record of the catalog. No act is left out.
pub fn acts_take_nothing()
    ensures needed { (act : Act) (slots n : ℕ) (ps : Parts) (activity : List Interval) (changes : List Change) (later_activity : List Interval) (later_changes : List Change) → ActAsked slots act → Later (slots_of act) ps n → Inv ps activity changes → Facts ps → Inv (told act (outcome act n ps) n ps) later_activity later_changes → TakesNothingNeeded act ps (told act (outcome act n ps) n ps) }
{}

/// A prune raises the mark of a namespace's catalog at most to the less of the floor and 900 seconds
/// before its stamp, never lowers it, and leaves the catalog from the mark on as it was.
pub fn prunes_are_bounded()
    ensures mark { (m : Master) (n : ℕ) (changes : List Change) (ns : Id) → MasterGood m changes → MarkRaised m (pruned n m) n ns }
{}
