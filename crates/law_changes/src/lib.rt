//! Commands that change namespaces and tables keep what holds after each entry, and their replies are right. Each file of `proofs/` is
//! about one command, or about what several of them share; the crate of the whole law dispatches on them.
#![tactic(auto)]
