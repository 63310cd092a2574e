//! What holds of the parts and the journal after each entry of a legal history, in local facts: of a record of the catalog, of an
//! interval of a tablet's activity, of a tablet. Each is kept by every event, and together they say that each reply is right.
#![tactic(auto)]
