//! A cluster is a machine. What the parts of a cluster show of themselves is plain data (`PartView`): what each keeps, which is the
//! book's master or a tablet, and its log. `core_of` is the book's step on the touched parts alone, whatever code prepares it. So what a
//! driver or a table of locks says of any machine it says of the book's histories. The laws speak of definitions alone, and so of no code.
#![tactic(auto)]

ghost use Rattle.std.specs.Prelude.{◌≡◌, ℕ, List, [], ◌∷◌, map, length};
ghost use Rattle.std.specs.Option.{option_map};
ghost use Rattle.row_values.specs.Stamps as rule;
ghost use Rattle.step_table.specs.declared.known.Entry as logged;
ghost use Rattle.step_table.specs.Lists.{pick};
ghost use Rattle.step_table.specs.Machines.{Lawful, IsStep, IsRight, next, leaves};
ghost use Rattle.model.specs.Acts.{Event};
ghost use Rattle.model.specs.Entries.{Entry, slots_of, touches};
ghost use Rattle.model.specs.History.{entry_of, replay};
ghost use Rattle.law_local.specs.Agreeing.{Agree};
ghost use Rattle.machine_laws.specs.Views.{AnswerView, PartView, clock_of};
ghost use Rattle.machine_laws.specs.Laid.{lay, AreKinds};
ghost use Rattle.machine_laws.specs.Faults.{fault_after};
ghost use Rattle.machine_laws.specs.Past.{IsPast, book_entry, book_onto};
ghost use Rattle.machine_laws.specs.Starts.{IsStart};
ghost use Rattle.machine_laws.specs.Core.{Coding, core_of, May, Fits, stamp_at};

/// What code adds to the book's machine. `coding` says what room a part without room has, which event
/// was prepared and what its parts need, and what is answered where no event is performed.
pub trait ClusterCode {
    type Room;

    type Ready;

    type Refused;

    ghost coding: { Coding Self.Room Self.Ready Self.Refused };
}

/// The eight laws of a machine hold of the cluster, for every act of the book and whatever the code.
pub fn cluster_is_a_machine<C: ClusterCode>()
    ensures lawful { Lawful (core_of C.coding) }
{}

/// The empty cluster's parts have the empty history. Where parts have a legal history as their past, a
/// step of the machine is the book's: its entry is the one that the book makes of the event, and the
/// parts after it have the longer history as their past. It is refused exactly where the book's clock
/// ends or the log is full that would keep the entry. What entries of the machine leave of the parts is
/// the book's replay of them, and the history is legal.
pub fn steps_are_the_books<C: ClusterCode>()
    ensures begun { (slots : ℕ) (parts : List (PartView C.Room)) → IsStart slots parts → IsPast slots [] parts }
    ensures entry { (slots : ℕ) (history : List Entry) (parts : List (PartView C.Room)) (e : logged.Entry Event AnswerView) → IsPast slots history parts → IsStep (core_of C.coding) parts e → book_entry e ≡ entry_of slots e.event history }
    ensures step { (slots : ℕ) (history : List Entry) (parts : List (PartView C.Room)) (e : logged.Entry Event AnswerView) → IsPast slots history parts → IsStep (core_of C.coding) parts e → IsPast slots (book_entry e ∷ history) (next (core_of C.coding) parts e.event e.number) }
    ensures refusal { (slots : ℕ) (history : List Entry) (parts : List (PartView C.Room)) (e : Event) → IsPast slots history parts → May (length parts) e → (core_of C.coding).refusal (pick (touches e.act) parts) e ≡ option_map C.coding.refused (fault_after slots e history) }
    ensures leaves { (slots : ℕ) (history : List Entry) (given : List (PartView C.Room)) (es : List (logged.Entry Event AnswerView)) → IsPast slots history given → IsRight (core_of C.coding) given es → IsPast slots (book_onto es history) (leaves (core_of C.coding) given es) }
{}

/// Who holds the touched parts knows the step. The stamp is that over the clocks of the held parts, in
/// whatever order the act names their slots, and each part is what a legal history leaves of it. What
/// their meanings show is what they show.
pub fn held_parts_say_the_step<C: ClusterCode>()
    ensures stamp { (e : Event) (held : List (PartView C.Room)) → AreKinds (touches e.act) held → length held ≡ length (touches e.act) → rule.stamp_of 0 (map (λ (p : PartView C.Room). clock_of p.kept) held) e.reading ≡ stamp_at held e }
    ensures replayed { (e : Event) (held : List (PartView C.Room)) (fits : Fits held e) → Agree (slots_of e.act) (lay (touches e.act) held) (replay fits.legal.slots fits.legal.history) }
    ensures meant { (slots : List ℕ) (held : List (PartView C.Room)) → lay slots (map (core_of C.coding).meaning held) ≡ lay slots held }
{}
