//! A split of a tablet keeps what holds after each entry: its parent's activity ends as that of its two children begins, which take
//! the parent's versions in their ranges.
#![tactic(auto)]
