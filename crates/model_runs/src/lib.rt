//! What a script's run makes and writes: its entries, the text of each reply, and the lines of a history. It stands over
//! the book of definitions (`model`), which cites none of it, and has no function. `docs/model.md` tells it in plain words.
#![tactic(auto)]
