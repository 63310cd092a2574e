//! Commands of schedules, snapshots, restores and clones, and the moves of their records, keep what holds after each entry. Each file of
//! `proofs/` is about one command or one kind of move, or about what several of them share; the crate of the whole law dispatches on them.
#![tactic(auto)]
