//! What the grammar of a script lets through is what may be asked of a cluster.
#![tactic(auto)]

mod laws;

pub use laws::what_a_script_spells_may_be_asked;
