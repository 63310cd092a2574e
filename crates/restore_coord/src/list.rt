ghost use Rattle.std.specs.Prelude.{◌≡◌, ◌≤◌, ◌<◌, true, false, Some, [], ◌∷◌, ◌++◌, length, filter, slice_get, OnOk, IfSome, MatchOption, ⊤};
ghost use Rattle.std.specs.List.{list_any};
ghost use Rattle.std.specs.Option.{option_copied, option_and_then};
ghost use Rattle.row_values.specs.Ids.{same};
ghost use Rattle.model.specs.Records.{RestorationRecord};
ghost use Rattle.model.specs.Records as book;
ghost use Rattle.model.specs.Coordination.{unfinished_restoration, acked_restoration};
ghost use Rattle.restore_coord.specs.View.{acked_if, entered, entered_in};
ghost use Rattle.restore_coord.specs.Seen.{state_of};
ghost use Rattle.model.specs.Operations.{restoration_of};

use crate::record::RestorationRecord;
use crate::state::RestorationState;
use row_values::{NoMemory, Records};
use std::alloc::Global;
use std::marker::Model;
use tablet_inbox::{Listed, set_acked, unacked_at};
use yb_ident::Ident;

/// The records of restorations, in order of number. Contracts see the book's list, and for how many
/// more there is room.
#[derive(Drop)]
pub struct Restorations {
    records: Vec<RestorationRecord>,
}

impl Model for Restorations {
    ghost use Rattle.std.specs.Prelude.{◌-◌, vec_len, vec_capacity};
    ghost use Rattle.restore_coord.specs.View.{RestorationsView};

    ghost Value = { RestorationsView };

    ghost view = { λ s. record { restorations = s.records.items; room = vec_capacity s.records - vec_len s.records } };
}

impl Restorations {
    /// No restorations. It takes no memory.
    pub fn new(alloc: Global) -> Restorations
        ensures empty { result.restorations ≡ [] }
    {
        Restorations {
            records: Vec::new(alloc),
        }
    }

    /// The records, in order of number.
    pub fn records(&self) -> &[RestorationRecord]
        ensures all { result.now ≡ self.now.restorations }
    {
        self.records.as_slice()
    }

    /// The unfinished restoration of a namespace. It takes no memory.
    pub fn of_namespace(&self, namespace: &Ident) -> Option<&RestorationRecord>
        ensures exact { option_copied result ≡ restoration_of self.now.restorations namespace.now }
    {
        for record in &self.records {
            if record.namespace == *namespace && !record.state.is_restored() {
                return Some(record);
            }
        }
        None
    }

    /// The record of a restoration that is unfinished. It takes no memory.
    pub fn unfinished(&self, id: &Ident) -> Option<&RestorationRecord>
        ensures exact { option_copied result ≡ unfinished_restoration self.now.restorations id.now }
    {
        for record in &self.records {
            if record.id == *id && !record.state.is_restored() {
                return Some(record);
            }
        }
        None
    }

    /// The tablet of a slot that an unfinished restoration lists, and that has not said that it did its part.
    pub fn pending(&self, id: &Ident, slot: u32) -> Option<Listed>
        ensures exact { result ≡ option_and_then (λ r. book.unacked_at r.listed slot) (unfinished_restoration self.now.restorations id.now) }
    {
        match self.unfinished(id) {
            Some(record) => unacked_in(record, slot),
            None => None,
        }
    }

    /// The tablet of a slot has said that it did its part. It takes no memory.
    pub fn ack(&mut self, id: &Ident, slot: u32)
        ensures restorations { self.new.restorations ≡ acked_restoration id.now slot self.old.restorations }
        ensures room { self.new.room ≡ self.old.room }
    {
        for record in self.records.iter_mut() {
            ack_record(record, id, slot);
        }
    }

    /// A restoration enters a state, with the tablets that it lists there. It takes no memory.
    pub fn enter(&mut self, id: &Ident, state: RestorationState, listed: Records<Listed>)
        requires once { length (filter (λ r. same r.id id.now) self.old.restorations) ≤ 1 }
        ensures restorations { self.new.restorations ≡ entered_in id.now (state_of state) listed self.old.restorations }
        ensures room { self.new.room ≡ self.old.room }
    {
        let Some(place) = place_of(self.records.as_slice(), id) else {
            return;
        };
        enter_record(&mut self.records[place], state, listed);
    }

    /// Makes room for one more record.
    pub fn prepare(&mut self) -> Result<(), NoMemory>
        ensures restorations { self.new.restorations ≡ self.old.restorations }
        ensures room { OnOk result (1 ≤ self.new.room) }
    {
        self.records.reserve(1)?;
        Ok(())
    }

    /// One restoration more, in the room that was made.
    pub fn add(&mut self, made: RestorationRecord)
        requires room { 1 ≤ self.old.room }
        ensures restorations { self.new.restorations ≡ self.old.restorations ++ made ∷ [] }
    {
        self.records.push(made).unwrap();
    }
}

fn unacked_in(restoration: &RestorationRecord, slot: u32) -> Option<Listed>
    ensures exact { result ≡ book.unacked_at restoration.now.listed slot }
{
    unacked_at(restoration.listed.as_slice(), slot)
}

// The tablet of a slot did its part, if the record is that of a restoration.
fn ack_record(restoration: &mut RestorationRecord, id: &Ident, slot: u32)
    ensures acked { restoration.new ≡ acked_if id.now slot restoration.old }
{
    if restoration.id == *id {
        set_acked(&mut restoration.listed, slot);
    }
}

// The place of a restoration's record.
fn place_of(records: &[RestorationRecord], id: &Ident) -> Option<usize>
    ensures within { IfSome result (λ p. p < length records.now) }
    ensures found { IfSome result (λ p. (r : RestorationRecord) × ((slice_get records.now p ≡ Some r) × (same r.id id.now ≡ true))) }
    ensures none { MatchOption result (list_any (λ r. same r.id id.now) records.now ≡ false) (λ _. ⊤) }
{
    let mut place = 0;
    for record in records {
        if record.id == *id {
            return Some(place);
        }
        place += 1;
    }
    None
}

// A record enters a state, with the tablets that it lists there.
fn enter_record(
    restoration: &mut RestorationRecord,
    state: RestorationState,
    listed: Records<Listed>,
)
    ensures entered { restoration.new ≡ entered (state_of state) listed restoration.old }
{
    restoration.state = state;
    restoration.listed = listed;
}
