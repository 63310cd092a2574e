//! A small machine that tries the table of steps and the line of parts: each part is a counter with its
//! log, and an event touches one, two or all of them and adds its entry to the least. The tests stand
//! here, since the table and the line are generic over their machine.
#![tactic(auto)]

mod counter;
mod gate;
mod machine;
mod starts;
#[cfg(test)]
mod tests;
mod turns;

pub use counter::Counter;
pub use gate::Gate;
pub use machine::{Add, Counters, Full};
pub use starts::{begin_line, start, three_counters};
pub use turns::perform_many;
