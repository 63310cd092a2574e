//! Which slots are free.
ghost use Rattle.std.specs.Prelude.{◌≡◌, [], ◌∷◌, ◌++◌, length, if◌then◌else◌, MatchOption, IfOk, OnOk};
ghost use Rattle.model.specs.Looks.{is_free, free_slots, least_slots};
ghost use Rattle.master_part.specs.Free.{free_above};

use crate::part::MasterPart;
use row_values::{NoMemory, Records, Slots};

impl MasterPart {
    /// Whether a slot has no tablet, and no unfinished clone has reserved it.
    pub fn is_free(&self, slot: u32) -> bool
        ensures exact { result ≡ is_free self.now.master slot }
    {
        !(self.activity.is_used(slot) || self.clones.is_reserved(slot))
    }

    /// How many slots are free.
    #[tactic(auto, using(crate::proofs::Slots::counting_next))]
    pub fn count_free(&self) -> u32
        ensures exact { result ≡ length (free_slots self.now.master) }
    {
        let slots = self.slots;
        let mut count = 0;
        for index in 0..slots {
            if self.is_free(index + 1) {
                count += 1;
            }
        }
        count
    }

    /// The least free slot above one. It takes no memory.
    #[tactic(auto, using(crate::proofs::Slots::counting_next))]
    pub fn first_free(&self, after: u32) -> Option<u32>
        ensures exact { MatchOption result
            (free_above self.now.master after ≡ [])
            (λ slot. free_above self.now.master after ≡ slot ∷ free_above self.now.master slot) }
    {
        let slots = self.slots;
        for index in after..slots {
            if self.is_free(index + 1) {
                return Some(index + 1);
            }
        }
        None
    }

    /// The free slots, in rising order.
    #[tactic(auto, using(crate::proofs::Slots::free_step))]
    pub fn free_slots(&self) -> Result<Slots, NoMemory>
        ensures exact { IfOk result (λ free. free ≡ free_slots self.now.master) }
    {
        let slots = self.slots;
        let mut free = Records::new(self.alloc());
        for index in 0..slots {
            self.put_free(index + 1, &mut free)?;
        }
        Ok(free)
    }

    // Puts a slot behind the others, if it is free.
    fn put_free(&self, slot: u32, free: &mut Slots) -> Result<(), NoMemory>
        ensures put { OnOk result (free.new ≡ (if is_free self.now.master slot then free.old ++ slot ∷ [] else free.old)) }
    {
        if self.is_free(slot) {
            free.push(slot)?;
        }
        Ok(())
    }

    /// The least so many free slots, where there are so many; else none.
    pub fn least_free(&self, count: u32) -> Result<Slots, NoMemory>
        ensures exact { IfOk result (λ slots. slots ≡ least_slots count (free_slots self.now.master)) }
    {
        let mut free = self.free_slots()?.into_vec();
        if count as usize > free.len() {
            return Ok(Records::new(self.alloc()));
        }
        free.truncate(count as usize);
        Ok(Records::from_vec(free))
    }
}
