//! A step depends on its touched parts alone. Who holds these parts, under many locks, may take the step as if he held all: the stamp, the
//! reply and what it leaves are the same. The law speaks of definitions alone, and so of no code.
#![tactic(auto)]

ghost use Rattle.std.specs.Prelude.{◌≡◌, ◌==◌, ◌&&◌, ℕ, true, false, not};
ghost use Rattle.row_values.specs.Slots.{has};
ghost use Rattle.model.specs.Acts.{Act, Event};
ghost use Rattle.model.specs.Parts.{Parts};
ghost use Rattle.model.specs.Entries.{slots_of, stamp_of};
ghost use Rattle.model.specs.History.{outcome, told};
ghost use Rattle.law_local.specs.Agreeing.{Agree};

/// On parts that agree on the slots which an act touches, its event has the same stamp, the act the
/// same outcome, and the touched parts agree after it. No other part changes: neither that of
/// another slot, nor the master's where the act doesn't touch it.
pub fn step_is_local()
    ensures stamp { (event : Event) (p q : Parts) → Agree (slots_of event.act) p q → stamp_of event p ≡ stamp_of event q }
    ensures outcome { (act : Act) (n : ℕ) (p q : Parts) → Agree (slots_of act) p q → outcome act n p ≡ outcome act n q }
    ensures touched { (act : Act) (n : ℕ) (p q : Parts) → Agree (slots_of act) p q → Agree (slots_of act) (told act (outcome act n p) n p) (told act (outcome act n q) n q) }
    ensures others { (act : Act) (n slot : ℕ) (p : Parts) → (has (slots_of act) slot && not (slot == 0)) ≡ false → (told act (outcome act n p) n p).tablet slot ≡ p.tablet slot }
    ensures master { (act : Act) (n : ℕ) (p : Parts) → has (slots_of act) 0 ≡ false → (told act (outcome act n p) n p).master ≡ p.master }
{}
