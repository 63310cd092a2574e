ghost use Rattle.std.specs.Prelude.{◌≡◌, ◌≤◌, ◌<◌, ◌&&◌, ◌||◌, true, false, Some, [], ◌∷◌, ◌++◌, OnOk, IfSome, MatchOption, ⊤, not, length, filter, slice_get};
ghost use Rattle.std.specs.List.{list_any};
ghost use Rattle.std.specs.Option.{option_copied, option_and_then};
ghost use Rattle.model.specs.Records as book;
ghost use Rattle.model.specs.Coordination.{unfinished_clone, acked_clone};
ghost use Rattle.clone_coord.specs.View.{acked_if, entered, entered_in};
ghost use Rattle.clone_coord.specs.Seen.{state_of};
ghost use Rattle.row_values.specs.Ids.{same};
ghost use Rattle.model.specs.Records.{CloneRecord, is_cloned, is_visible};
ghost use Rattle.model.specs.Operations.{clone_to, clone_with};
ghost use Rattle.model.specs.Looks.{has_target, is_reserved};
ghost use Rattle.model.specs.Changes.{clone_named};

use crate::record::{CloneRecord, TabletPair};
use crate::state::CloneState;
use row_values::{Name, NoMemory, Records};
use std::alloc::Global;
use std::marker::Model;
use tablet_inbox::{Listed, set_acked, unacked_at};
use yb_ident::Ident;

/// The records of clones, in order of number. Contracts see the book's list, and for how many more
/// there is room.
#[derive(Drop)]
pub struct Clones {
    records: Vec<CloneRecord>,
}

impl Model for Clones {
    ghost use Rattle.std.specs.Prelude.{◌-◌, vec_len, vec_capacity};
    ghost use Rattle.clone_coord.specs.View.{ClonesView};

    ghost Value = { ClonesView };

    ghost view = { λ s. record { clones = s.records.items; room = vec_capacity s.records - vec_len s.records } };
}

impl Clones {
    /// No clones. It takes no memory.
    pub fn new(alloc: Global) -> Clones
        ensures empty { result.clones ≡ [] }
    {
        Clones {
            records: Vec::new(alloc),
        }
    }

    /// The records, in order of number.
    pub fn records(&self) -> &[CloneRecord]
        ensures all { result.now ≡ self.now.clones }
    {
        self.records.as_slice()
    }

    /// The unfinished clone that makes a namespace. It takes no memory.
    pub fn to_namespace(&self, namespace: &Ident) -> Option<&CloneRecord>
        ensures exact { option_copied result ≡ clone_to self.now.clones namespace.now }
    {
        for record in &self.records {
            if record.target_id == *namespace && !record.state.is_cloned() {
                return Some(record);
            }
        }
        None
    }

    /// The unfinished clone that makes a namespace, or has it as its source. It takes no memory.
    pub fn with_namespace(&self, namespace: &Ident) -> Option<&CloneRecord>
        ensures exact { option_copied result ≡ clone_with self.now.clones namespace.now }
    {
        for record in &self.records {
            if uses(record, namespace) && !record.state.is_cloned() {
                return Some(record);
            }
        }
        None
    }

    /// The clone that is to make a namespace of this name. It takes no memory.
    pub fn named(&self, name: &Name) -> Option<Ident>
        ensures exact { result ≡ clone_named self.now.clones name.now }
    {
        for record in &self.records {
            if record.target.as_slice() == name.as_slice() && !record.state.is_visible() {
                return Some(record.id);
            }
        }
        None
    }

    /// How many namespaces are to be made by a clone. It takes no memory.
    pub fn count_hidden(&self) -> usize
        ensures count { result ≡ length (filter (λ r. not (is_visible r.state)) self.now.clones) }
    {
        let mut count = 0;
        for record in &self.records {
            if !record.state.is_visible() {
                count += 1;
            }
        }
        count
    }

    /// Whether an unfinished clone has reserved a slot. It takes no memory.
    pub fn is_reserved(&self, slot: u32) -> bool
        ensures exact { result ≡ is_reserved self.now.clones slot }
    {
        for record in &self.records {
            if reserves(record, slot) {
                return true;
            }
        }
        false
    }

    /// The record of a clone that is unfinished. It takes no memory.
    pub fn unfinished(&self, id: &Ident) -> Option<&CloneRecord>
        ensures exact { option_copied result ≡ unfinished_clone self.now.clones id.now }
    {
        for record in &self.records {
            if record.id == *id && !record.state.is_cloned() {
                return Some(record);
            }
        }
        None
    }

    /// The tablet of a slot that an unfinished clone lists, and that has not said that it did its part.
    pub fn pending(&self, id: &Ident, slot: u32) -> Option<Listed>
        ensures exact { result ≡ option_and_then (λ r. book.unacked_at r.listed slot) (unfinished_clone self.now.clones id.now) }
    {
        match self.unfinished(id) {
            Some(record) => unacked_in(record, slot),
            None => None,
        }
    }

    /// The tablet of a slot has said that it did its part. It takes no memory.
    pub fn ack(&mut self, id: &Ident, slot: u32)
        ensures clones { self.new.clones ≡ acked_clone id.now slot self.old.clones }
        ensures room { self.new.room ≡ self.old.room }
    {
        for record in self.records.iter_mut() {
            ack_record(record, id, slot);
        }
    }

    /// A clone enters a state, with the tablets that it lists there. It takes no memory.
    pub fn enter(&mut self, id: &Ident, state: CloneState, listed: Records<Listed>)
        requires once { length (filter (λ r. same r.id id.now) self.old.clones) ≤ 1 }
        ensures clones { self.new.clones ≡ entered_in id.now (state_of state) listed self.old.clones }
        ensures room { self.new.room ≡ self.old.room }
    {
        let Some(place) = place_of(self.records.as_slice(), id) else {
            return;
        };
        enter_record(&mut self.records[place], state, listed);
    }

    /// Makes room for one more record.
    pub fn prepare(&mut self) -> Result<(), NoMemory>
        ensures clones { self.new.clones ≡ self.old.clones }
        ensures room { OnOk result (1 ≤ self.new.room) }
    {
        self.records.reserve(1)?;
        Ok(())
    }

    /// One clone more, in the room that was made.
    pub fn add(&mut self, made: CloneRecord)
        requires room { 1 ≤ self.old.room }
        ensures clones { self.new.clones ≡ self.old.clones ++ made ∷ [] }
    {
        self.records.push(made).unwrap();
    }
}

// Whether a clone makes a namespace, or has it as its source.
fn uses(clone: &CloneRecord, namespace: &Ident) -> bool
    ensures exact { result ≡ (same clone.now.target_id namespace.now || same clone.now.source namespace.now) }
{
    clone.target_id == *namespace || clone.source == *namespace
}

// Whether a clone is unfinished and has reserved a slot.
fn reserves(clone: &CloneRecord, slot: u32) -> bool
    ensures exact { result ≡ (not (is_cloned clone.now.state) && has_target clone.now.tablets slot) }
{
    !clone.state.is_cloned() && has_target(clone.tablets.as_slice(), slot)
}

fn has_target(pairs: &[TabletPair], slot: u32) -> bool
    ensures exact { result ≡ has_target pairs.now slot }
{
    for pair in pairs {
        if pair.slot == slot {
            return true;
        }
    }
    false
}

fn unacked_in(clone: &CloneRecord, slot: u32) -> Option<Listed>
    ensures exact { result ≡ book.unacked_at clone.now.listed slot }
{
    unacked_at(clone.listed.as_slice(), slot)
}

// The tablet of a slot did its part, if the record is that of a clone.
fn ack_record(clone: &mut CloneRecord, id: &Ident, slot: u32)
    ensures acked { clone.new ≡ acked_if id.now slot clone.old }
{
    if clone.id == *id {
        set_acked(&mut clone.listed, slot);
    }
}

// The place of a clone's record.
fn place_of(records: &[CloneRecord], id: &Ident) -> Option<usize>
    ensures within { IfSome result (λ p. p < length records.now) }
    ensures found { IfSome result (λ p. (r : CloneRecord) × ((slice_get records.now p ≡ Some r) × (same r.id id.now ≡ true))) }
    ensures none { MatchOption result (list_any (λ r. same r.id id.now) records.now ≡ false) (λ _. ⊤) }
{
    let mut place = 0;
    for record in records {
        if record.id == *id {
            return Some(place);
        }
        place += 1;
    }
    None
}

// A record enters a state, with the tablets that it lists there.
fn enter_record(clone: &mut CloneRecord, state: CloneState, listed: Records<Listed>)
    ensures entered { clone.new ≡ entered (state_of state) listed clone.old }
{
    clone.state = state;
    clone.listed = listed;
}
