//! What the law says of the master that a legal history leaves, as the master's code asks it (`IsLawful`). It speaks of
//! definitions alone.
#![tactic(auto)]

ghost use Rattle.std.specs.Prelude.{ℕ, ◌≤◌, List};
ghost use Rattle.model.specs.Drawn.{most_slots};
ghost use Rattle.model.specs.Entries.{Entry};
ghost use Rattle.model.specs.History.{Legal, replay};
ghost use Rattle.master_part.specs.Acts.{IsLawful};

/// A driver that holds the parts of a legal history needs no test before it asks the master what a command comes to: so
/// few identifiers were drawn that those of one more entry are in range, and so are the versions and columns' ids of one
/// more change of each table; the next identifiers have no record yet, no record of a table ends after the master's
/// clock, no complete snapshot is later than it, and each tablet has a slot of the cluster. The tablets that were active
/// at one time have slots of their own, a clone's command draws few identifiers, and records of one table are of one
/// namespace, which owns it. A restoration at its switch finds no record of its namespace's tables that ends after its
/// point, and a clone at its end finds nothing of its target in the catalog. An identifier is that of one record.
pub fn a_legal_master_is_lawful()
    ensures lawful { (slots : ℕ) (history : List Entry) → Legal slots history → slots ≤ most_slots → IsLawful (replay slots history).master }
{}
