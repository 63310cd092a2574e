//! The acceptance of a clone and the moves of its record keep what holds after each entry. Each file of `proofs/` is about one kind of move,
//! or about what several of them share; the crate of the whole law dispatches on them.
#![tactic(auto)]
