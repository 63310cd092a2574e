//! The parts that an event touches.
ghost use Rattle.std.specs.Prelude.{◌≡◌, ◌<◌, ◌^◌, length, slice_get, Some};
ghost use Rattle.std.specs.Borrow.{Lends, sem};
ghost use Rattle.step_table.specs.contracts.held.Held.{the_row};
ghost use Rattle.step_table.specs.Helds.{slots_of, parts_of, with_part};

use std::marker::Model;

/// The touched parts with their slots, in rising order of the slots. Its calls take no memory.
#[derive(Drop)]
pub struct Held<P> {
    items: Vec<(u32, P)>,
}

impl<P> Model for Held<P> {
    ghost use Rattle.std.specs.Prelude.{List, ℕ, ◌<◌, ◌^◌, length};

    ghost Value = { List (ℕ × P) };

    ghost view = { λ held. held.items.items };

    ghost invariant = { λ held. length held.items.items < 2 ^ 32 };
}

impl<P> Held<P> {
    pub fn of(items: Vec<(u32, P)>) -> Held<P>
        requires few { length items.items < 2 ^ 32 }
        ensures same { result ≡ items.items }
    {
        Held { items }
    }

    pub fn into_items(self) -> Vec<(u32, P)>
        ensures same { result.items ≡ self }
    {
        let Held { items } = self;
        items
    }

    /// The number of parts.
    pub fn len(&self) -> u32
        ensures count { result ≡ length self.now }
    {
        self.items.len() as u32
    }

    /// The slot of a part.
    pub fn slot(&self, i: u32) -> u32
        requires within { i < length self.now }
        ensures slot { slice_get (slots_of self.now) i ≡ Some result }
    {
        self.items[i as usize].0
    }

    /// A part, to be read.
    pub fn part(&self, i: u32) -> &P
        requires within { i < length self.now }
        ensures part { slice_get (parts_of self.now) i ≡ Some result.now }
    {
        &self.items[i as usize].1
    }

    /// A part, to be written in place. Its slot stays.
    pub fn part_mut(&mut self, i: u32) -> &mut P
        requires within { i < length self.old }
        ensures* writes_back { sem 𝓛 (Lends (the_row P.row) P.row self.entry result (λ part. with_part self.old i part)) }
        ensures part { slice_get (parts_of self.old) i ≡ Some result.now }
    {
        &mut self.items[i as usize].1
    }
}
