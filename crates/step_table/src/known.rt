//! Entries, and what a seat at the table knows.
use std::collections::LinkedList;

/// One event that was performed: its number in the one order, from 1 on, and what it answered.
#[derive(Drop)]
pub struct Entry<E, R> {
    pub number: u64,
    pub event: E,
    pub reply: R,
}

/// What a seat knows, for the proof alone: no value of it is made. `seen` has the entries since the
/// table was made, `olds` what was known before a join, and `held` the slots in the order of taking.
pub struct Known<P, E, R> {
    pub given: LinkedList<P>,
    pub seen: LinkedList<Entry<E, R>>,
    pub mine: LinkedList<Entry<E, R>>,
    pub olds: LinkedList<(LinkedList<P>, LinkedList<Entry<E, R>>)>,
    pub findings: LinkedList<u32>,
    pub shares: u64,
    pub splits: u64,
    pub doing: Option<E>,
    pub held: LinkedList<(u32, P)>,
}
