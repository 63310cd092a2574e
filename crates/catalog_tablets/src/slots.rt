ghost use Rattle.std.specs.Prelude.{◌≡◌, ◌<◌, ◌+◌, ◌^◌, [], replicate, slice_get, IfOk, nat_lt};
ghost use Rattle.catalog_tablets.specs.Slots.{count_of, raised, lowered};

use row_values::NoMemory;
use std::alloc::Global;
use std::marker::Model;

/// How often each slot is used, of those that are counted: from 0 up to a number. Contracts see the
/// list of the counts.
#[derive(Debug, Drop)]
pub struct SlotCounts {
    counts: Vec<usize>,
}

impl Model for SlotCounts {
    ghost use Rattle.std.specs.Prelude.{ℕ, List};

    ghost Value = { List ℕ };

    ghost view = { λ s. s.counts.items };
}

impl SlotCounts {
    /// Counts of no slot. It takes no memory.
    pub fn none(alloc: Global) -> SlotCounts
        ensures empty { result ≡ [] }
    {
        SlotCounts {
            counts: Vec::new(alloc),
        }
    }

    /// Counts of the slots up to a number, none of which is used.
    pub fn new(alloc: Global, slots: u32) -> Result<SlotCounts, NoMemory>
        ensures unused { IfOk result (λ counts. counts ≡ replicate (slots + 1) 0) }
    {
        let counts = vec![in alloc; 0usize; slots as usize + 1]?;
        Ok(SlotCounts { counts })
    }

    /// How often a slot is used; `None` for one that is not counted.
    pub fn get(&self, slot: u32) -> Option<usize>
        ensures exact { result ≡ slice_get self.now slot }
    {
        self.counts.get(slot as usize).copied()
    }

    /// Whether a slot is counted and used.
    pub fn is_used(&self, slot: u32) -> bool
        ensures exact { result ≡ nat_lt 0 (count_of self.now slot) }
    {
        match self.counts.get(slot as usize) {
            Some(count) => *count > 0,
            None => false,
        }
    }

    /// One use more of a slot.
    pub fn raise(&mut self, slot: u32)
        requires small { count_of self.old slot < 2 ^ 63 }
        ensures counts { self.new ≡ raised slot self.old }
    {
        let slot = slot as usize;
        if slot < self.counts.len() {
            self.counts[slot] += 1;
        }
    }

    /// One use less of a slot.
    pub fn lower(&mut self, slot: u32)
        ensures counts { self.new ≡ lowered slot self.old }
    {
        let slot = slot as usize;
        if slot < self.counts.len() {
            self.counts[slot] = self.counts[slot].saturating_sub(1);
        }
    }
}
