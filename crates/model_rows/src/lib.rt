//! Worked runs over the book of definitions, computed by the check itself: each states the stamps and
//! replies of a script, and so shows that the definitions say what is meant. It has no function.
#![tactic(auto)]
