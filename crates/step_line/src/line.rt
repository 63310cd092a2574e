//! The parts of a machine, and the events that one thread performs on them.
ghost use Rattle.std.specs.Prelude.{◌≡◌, ◌<◌, map, length, slice_get, Some, IfOk, IfErr, OnErr};
ghost use Rattle.step_table.specs.Histories.{IsNumbered, history_of};
ghost use Rattle.step_line.specs.Lines.{Stepped, Declined, Holds};

use crate::places::placed;
use crate::steps::perform_in;
use row_values::{NoMemory, Records};
use std::alloc::Global;
use std::marker::Model;
use step_table::{Machine, count_entries};

/// The parts of a machine, each in its place, and the number of the last entry. Contracts see what
/// the parts mean.
#[derive(Drop)]
pub struct Line<M: Machine> {
    places: Vec<Option<M::Part>>,
    last: u64,
}

impl<M: Machine> Model for Line<M> {
    ghost use Rattle.std.specs.Prelude.{◌≡◌, map, Some};
    ghost use Rattle.step_table.specs.Machines.{logged};
    ghost use Rattle.step_line.specs.Places.{found, means};
    ghost use Rattle.step_line.specs.Lines.{LineView, Holds};

    ghost Value = { LineView M.Part };

    ghost view = { λ t. record { parts = means M.core.meaning t.places.items } };

    ghost invariant = { λ t. record {
      whole : t.places.items ≡ map Some (found t.places.items);
      last : t.last ≡ logged M.core (means M.core.meaning t.places.items);
      holds : Holds M.core (means M.core.meaning t.places.items);
    } };
}

impl<M: Machine> Line<M> {
    /// A line over these parts. For want of memory they are lost.
    #[tactic(auto, using(crate::proofs::Taken::found_of))]
    pub fn new(parts: Records<M::Part>) -> Result<Line<M>, NoMemory>
        requires legal { M.core.Legal (map M.core.meaning parts) }
        requires numbered { IsNumbered 1 (history_of M.core (map M.core.meaning parts)) }
        ensures parts { IfOk result (λ line. line.parts ≡ map M.core.meaning parts) }
    {
        let last = count_entries::<M>(parts.as_slice());
        let places = placed(parts)?;
        Ok(Line { places, last })
    }

    /// Performs an event: its entry is the machine's at these parts, and ends their history. Where it
    /// is refused, for want of memory or by the machine, the parts mean what they meant.
    pub fn perform(&mut self, event: M::Event) -> Result<M::Reply, M::Refused>
        requires event { M.core.May (length self.old.parts) event }
        ensures ok { IfOk result (λ reply. Stepped M.core event reply self.old.parts self.new.parts) }
        ensures err { IfErr result (λ refused. Declined M.core event refused self.old.parts) }
        ensures kept { OnErr result (self.new.parts ≡ self.old.parts) }
        ensures holds { Holds M.core self.new.parts }
        ensures size { length self.new.parts ≡ length self.old.parts }
    {
        let alloc = *self.places.allocator();
        let reply = perform_in::<M>(alloc, &mut self.places, self.last, event)?;
        self.last += 1;
        Ok(reply)
    }

    /// The number of parts.
    pub fn size(&self) -> u32
        ensures size { result ≡ length self.now.parts }
    {
        self.places.len() as u32
    }

    /// The number of entries in all logs. It is that of the last.
    pub fn len(&self) -> u64
        ensures count { result ≡ length (history_of M.core self.now.parts) }
        ensures numbered { IsNumbered 1 (history_of M.core self.now.parts) }
    {
        self.last
    }

    /// The allocator of the places. No clause speaks of an allocator.
    pub fn allocator(&self) -> Global
        ensures kept { self.now ≡ self.now }
    {
        *self.places.allocator()
    }

    /// The part in this slot.
    pub fn part(&self, slot: u32) -> &M::Part
        requires within { slot < length self.now.parts }
        ensures part { slice_get self.now.parts slot ≡ Some (M.core.meaning result.now) }
    {
        self.places[slot as usize].as_ref().unwrap()
    }
}
