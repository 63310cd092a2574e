//! Reads, writes, cutoffs, compactions, counts and restarts keep what holds after each entry, and their replies are right. Each file of
//! `proofs/` is about one act; the crate of the whole law dispatches on them.
#![tactic(auto)]
