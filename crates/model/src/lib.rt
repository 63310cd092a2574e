//! The book of definitions: what a history of the service is, which histories are legal and which are
//! right. It has no function; the crates of code and of laws cite it. `docs/model.md` tells it in
//! plain words.
#![tactic(auto)]
