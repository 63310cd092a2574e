//! The main law: a legal history is right, and what holds after each entry holds of the parts that it leaves. It speaks
//! of definitions alone, and so of no code. Each act has a lemma that it keeps what holds, and a line in the dispatch.
#![tactic(auto)]

ghost use Rattle.std.specs.Prelude.{◌≡◌, ◌⊎◌, ℕ, ◌+◌, ◌≤◌, Some, true, is_some, List, ◌∷◌, ◌++◌};
ghost use Rattle.model.specs.Scripts.{Numbered};
ghost use Rattle.model_runs.specs.Courses.{ScriptAsked};
ghost use Rattle.model_runs.specs.Running.{run_of};
ghost use Rattle.model.specs.Entries.{Entry};
ghost use Rattle.row_values.specs.Elements.{AllOf, In};
ghost use Rattle.row_values.specs.Ids.{Id};
ghost use Rattle.model.specs.Catalog.{TableRecord, owner_of};
ghost use Rattle.model.specs.Journal.{owner_in, source_of};
ghost use Rattle.model.specs.Records.{CloneRecord};
ghost use Rattle.model.specs.History.{Legal, RefusedTicks, held, replay, journal_of, activity_of, scheduled_since, snapshots_taken};
ghost use Rattle.model.specs.Cleanup.{pruned};
ghost use Rattle.model.specs.Retained.{Retained, RowsFound};
ghost use Rattle.model.specs.Taking.{MarkRaised, TakesNothingNeeded};
ghost use Rattle.model.specs.Drawn.{DrawnBelow, DrawnWithin, DrawsInTurn, most_slots, SchemasDrawn, SnapshotsAsTaken};
ghost use Rattle.model.specs.Once.{Once};
ghost use Rattle.model.specs.Entering.{ClocksAfter, EntersAt, EntersOnce, entered};
ghost use Rattle.model.specs.Replies.{Right};
ghost use Rattle.model.specs.Right.{FixedStays};
ghost use Rattle.model.specs.Stands.{Divides, RecordFacts, Stands, VersionsStand};
ghost use Rattle.law_invariants.specs.Invariant.{Inv};

/// A legal history is right: each reply has its cause, by one list of stamped changes. What its restores and clones
/// fixed stays as it was, and no change of their namespaces came too late for them. What holds after each entry
/// holds of the parts that the history leaves. At each time at which the view has a table, the ranges of its tablets
/// that were active then cover the codes, none twice, tablets that were removed since counted in; no range is empty
/// or ends beyond the codes. Each tablet that the master knows is in its slot, and stands for the journal: what is
/// read of its live store from its cutoff on, and of a frozen set up to its time, is the view's row. An active one
/// that awaits no rows has the version of its table's current schema. The catalog has each table of the journal in the
/// namespace in which it was made, and besides those alone that a clone's record has for its target. The states of the
/// records of operations say of the parts what they have to. And a refused entry changes the clocks of the parts that it
/// touches alone; an ack that finds its command not done clears its sent mark besides.
pub fn legal_is_right()
    ensures right { (slots : ℕ) (history : List Entry) → Legal slots history → Right slots history }
    ensures holds { (slots : ℕ) (history : List Entry) → Legal slots history → Inv (replay slots history) (activity_of slots history) (journal_of slots history) }
    ensures stands { (slots : ℕ) (history : List Entry) → Legal slots history → Stands (replay slots history) (journal_of slots history) }
    ensures owned { (slots : ℕ) (history : List Entry) (table ns : Id) → Legal slots history → owner_of (replay slots history).master.catalog.owners table ≡ Some ns → (owner_in (journal_of slots history) table ≡ Some ns) ⊎ ((c : CloneRecord) × (In c (replay slots history).master.clones × ((c.target_id ≡ ns) × (is_some (source_of c.tables table) ≡ true)))) }
    ensures versions { (slots : ℕ) (history : List Entry) → Legal slots history → VersionsStand (replay slots history) }
    ensures facts { (slots : ℕ) (history : List Entry) → Legal slots history → RecordFacts (replay slots history) (journal_of slots history) }
    ensures cover { (slots : ℕ) (history : List Entry) → Legal slots history → Divides (activity_of slots history) (journal_of slots history) }
    ensures fixed { (slots : ℕ) (history : List Entry) → Legal slots history → FixedStays (journal_of slots history) }
    ensures refused { (slots : ℕ) (e : Entry) (earlier : List Entry) → Legal slots (e ∷ earlier) → RefusedTicks e (replay slots earlier) }
{}

/// Each entry of a legal history draws as many identifiers of each kind as its act takes. They are those of the
/// records that the master then has, and of what its clones are to make: the next ones, in order. A command's reply
/// names just what was made. A refused entry draws none. Any history of a cluster of at most `most_slots` slots
/// draws few: at most so many of each kind, for each entry of the master's log. So numbers of identifiers stay below
/// their bound, of which code makes its identifiers. A new column gets one more than the greatest id that was ever
/// given to its table; and the newest schema that the catalog keeps of a table has as its version the changes of
/// columns, and the restores and the clone, that made the table current, counted from 1. Versions and ids of columns are
/// few too: a version is at most the entries of the master's log, and a next column has at most 16 more. Kept snapshots
/// are as they were taken, and in that order, in any history.
pub fn numbers_are_drawn()
    ensures drawn { (slots : ℕ) (history : List Entry) → Legal slots history → DrawsInTurn slots history }
    ensures within { (slots : ℕ) (history : List Entry) → Legal slots history → slots ≤ most_slots → DrawnWithin slots history }
    ensures below { (slots : ℕ) (history : List Entry) → Legal slots history → slots ≤ most_slots → DrawnBelow (replay slots history).master }
    ensures schemas { (slots : ℕ) (history : List Entry) → Legal slots history → SchemasDrawn (replay slots history).master (journal_of slots history) }
    ensures versions { (slots : ℕ) (history : List Entry) (t : TableRecord) → Legal slots history → In t (replay slots history).master.catalog.tables → (t.schema.version ≤ held 0 history) × (t.schema.next ≤ held 0 history + 16) }
    ensures taken { (slots : ℕ) (history : List Entry) → SnapshotsAsTaken slots history }
{}

/// Each record of a snapshot, a restoration or a clone entered the states up to its own, each once and in
/// order. The stamps that it keeps are those at which it did: a snapshot's time, the stamp just before a
/// restoration's point, that of a clone's copies, and the one at which its target became current. A tablet
/// that was given a command has a clock above the stamp at which the record entered the state that gives it. An
/// accepted command to restore or to clone has a record as it was asked; its moves made one restore, or one clone, of
/// the journal, or none yet. The journal has no others. No tablet does a command of an operation twice.
pub fn operations_come_once()
    ensures entered { (slots : ℕ) (history : List Entry) → Legal slots history → EntersOnce (replay slots history) (entered slots history) }
    ensures stamps { (slots : ℕ) (history : List Entry) → Legal slots history → EntersAt (replay slots history) (entered slots history) }
    ensures clocks { (slots : ℕ) (history : List Entry) → Legal slots history → ClocksAfter (replay slots history) (entered slots history) }
    ensures once { (slots : ℕ) (history : List Entry) → Legal slots history → Once slots history }
{}

/// Retention holds of what a legal history leaves: each tablet that was active from the floor of a
/// namespace with a schedule on is present, its rows at each time from the floor on can be had, cutoffs
/// and the catalog's marks pass nothing that is needed, a record in progress finds its tablets, and all
/// snapshots that were ever taken follow each other. A command in an inbox finds the rows that it takes
/// from a frozen set: they are never gone. No act of such a history takes anything that a time needs,
/// from the floor on, before the act's stamp where the master takes part in it; and a prune on what it
/// leaves raises a mark at most to the less of the floor and 900 seconds before its stamp.
pub fn retention_is_kept()
    ensures retained { (slots : ℕ) (history : List Entry) → Legal slots history → Retained (replay slots history) (activity_of slots history) (snapshots_taken slots history) (scheduled_since slots history) }
    ensures found { (slots : ℕ) (history : List Entry) → Legal slots history → RowsFound (replay slots history) }
    ensures needed { (slots : ℕ) (e : Entry) (earlier : List Entry) → Legal slots (e ∷ earlier) → TakesNothingNeeded e.event.act (replay slots earlier) (replay slots (e ∷ earlier)) }
    ensures mark { (slots : ℕ) (history : List Entry) (n : ℕ) (ns : Id) → Legal slots history → MarkRaised (replay slots history).master (pruned n (replay slots history).master) n ns }
{}

/// The history of a script whose commands meet what is asked of them is legal, and right: each reply is that of one
/// list of stamped changes. The same is so of what stood before any of its entries, as of a part of it that was kept.
/// A program whose history is that of the book's run cites this.
pub fn runs_are_right()
    ensures legal { (slots : ℕ) (commands : List Numbered) → AllOf (λ c. ScriptAsked slots c.command) commands → Legal slots (run_of slots commands).history }
    ensures right { (slots : ℕ) (commands : List Numbered) → AllOf (λ c. ScriptAsked slots c.command) commands → Right slots (run_of slots commands).history }
    ensures legal_before { (slots : ℕ) (later earlier : List Entry) → Legal slots (later ++ earlier) → Legal slots earlier }
    ensures right_before { (slots : ℕ) (later earlier : List Entry) → Right slots (later ++ earlier) → Right slots earlier }
{}
