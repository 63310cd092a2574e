//! What comes once over a whole history: each event carries on what is told of the records that the master keeps, of the states that they
//! entered, and of the commands that tablets did. The crate of the whole law has the induction over histories.
#![tactic(auto)]
