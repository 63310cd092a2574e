use std::alloc::Global;

/// What a line is read with: where memory comes from, and how many slots there are.
#[derive(Clone, Copy)]
pub struct Reading {
    pub alloc: Global,
    pub slots: u32,
}
