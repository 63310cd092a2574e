//! What a coordinator does keeps what holds after each entry: sends, acks, and what a tablet does of each command. Each file of `proofs/`
//! is about one of them; the crate of the whole law dispatches on them.
#![tactic(auto)]
