ghost use Rattle.std.specs.Prelude.{◌≡◌, IfOk};
ghost use Rattle.catalog_tablets.specs.Slots.{used_from};

use crate::tablets::Tablets;
use row_values::{NoMemory, Slots};
use std::alloc::Global;

impl Tablets {
    /// The used ones of so many slots, in rising order. It looks at the count of each.
    #[tactic(auto, using(crate::proofs::Freeing::counting_next))]
    pub fn used_slots(&self, alloc: Global, slots: u32) -> Result<Slots, NoMemory>
        ensures exact { IfOk result (λ found. found ≡ used_from self.now.activity slots 1) }
    {
        let mut found = Slots::new(alloc);
        for before in 0..slots {
            if self.is_used(before + 1) {
                found.push(before + 1)?;
            }
        }
        Ok(found)
    }
}
