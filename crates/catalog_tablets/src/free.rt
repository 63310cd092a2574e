ghost use Rattle.std.specs.Prelude.{◌≡◌, ◌||◌, not, length, map, IfOk};
ghost use Rattle.row_values.specs.Slots.{has};
ghost use Rattle.model.specs.Parts.{Master};
ghost use Rattle.model.specs.Looks as looks;
ghost use Rattle.catalog_tablets.specs.Slots.{Reserves, is_free};

use crate::slots::SlotCounts;
use crate::tablets::Tablets;
use row_values::{NoMemory, Slots};
use std::alloc::Global;

impl Tablets {
    /// Whether no kept interval has the slot, and it is not reserved. It takes no memory.
    pub fn is_free(&self, slot: u32, reserved: &SlotCounts) -> bool
        ensures exact { result ≡ is_free self.now.activity reserved.now slot }
    {
        !(self.is_used(slot) || reserved.is_used(slot))
    }

    /// How many of so many slots are free. It looks at the count of each, and takes no memory.
    #[tactic(auto, using(crate::proofs::Freeing::counting_next))]
    pub fn count_free(&self, slots: u32, reserved: &SlotCounts) -> u32
        ensures exact { (m : Master) → m.activity ≡ self.now.activity → m.slots ≡ slots → Reserves reserved.now m.clones → result ≡ length (looks.free_slots m) }
    {
        let mut count = 0;
        for before in 0..slots {
            if self.is_free(before + 1, reserved) {
                count += 1;
            }
        }
        count
    }

    /// The free ones of so many slots, in rising order. It looks at the count of each.
    #[tactic(auto, using(crate::proofs::Freeing::counting_next))]
    pub fn free_slots(
        &self,
        alloc: Global,
        slots: u32,
        reserved: &SlotCounts,
    ) -> Result<Slots, NoMemory>
        ensures exact { IfOk result (λ found. (m : Master) → m.activity ≡ self.now.activity → m.slots ≡ slots → Reserves reserved.now m.clones → found ≡ looks.free_slots m) }
    {
        let mut found = Slots::new(alloc);
        for before in 0..slots {
            if self.is_free(before + 1, reserved) {
                found.push(before + 1)?;
            }
        }
        Ok(found)
    }

    /// The least so many of the free slots, where there are so many; else none.
    pub fn least_free(
        &self,
        alloc: Global,
        count: u32,
        slots: u32,
        reserved: &SlotCounts,
    ) -> Result<Slots, NoMemory>
        ensures exact { IfOk result (λ found. (m : Master) → m.activity ≡ self.now.activity → m.slots ≡ slots → Reserves reserved.now m.clones → found ≡ looks.least_slots count (looks.free_slots m)) }
    {
        let mut free = self.free_slots(alloc, slots, reserved)?.into_vec();
        if count as usize <= free.len() {
            free.truncate(count as usize);
        } else {
            free.clear();
        }
        Ok(Slots::from_vec(free))
    }
}
