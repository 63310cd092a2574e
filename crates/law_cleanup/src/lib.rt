//! Cleanup keeps what holds after each entry: tablets and snapshots that retention doesn't need go, and so do the catalog's old records.
#![tactic(auto)]
