ghost use Rattle.std.specs.Prelude.{◌≡◌, ◌≤◌, true, [], ◌∷◌, ◌++◌, OnOk, map, not, if◌then◌else◌};
ghost use Rattle.std.specs.List.{filter};
ghost use Rattle.std.specs.Option.{option_copied, option_and_then};
ghost use Rattle.row_values.specs.Ids.{same};
ghost use Rattle.model.specs.Records as book;
ghost use Rattle.model.specs.Records.{snapshot_with, unfinished_of};
ghost use Rattle.model.specs.Coordination.{unfinished_snapshot, acked_snapshot};
ghost use Rattle.model.specs.Moves.{anew};
ghost use Rattle.snapshot_coord.specs.View.{completed_in, completed_if, acked_if};

use crate::record::SnapshotRecord;
use row_values::NoMemory;
use std::alloc::Global;
use std::marker::Model;
use tablet_inbox::{Listed, clear_acks, set_acked, unacked_at};
use yb_ident::Ident;

/// The records of snapshots, in order of number. Contracts see the book's list, and for how many more
/// there is room.
#[derive(Drop)]
pub struct Snapshots {
    records: Vec<SnapshotRecord>,
}

impl Model for Snapshots {
    ghost use Rattle.std.specs.Prelude.{◌-◌, vec_len, vec_capacity};
    ghost use Rattle.snapshot_coord.specs.View.{SnapshotsView};

    ghost Value = { SnapshotsView };

    ghost view = { λ s. record { snapshots = s.records.items; room = vec_capacity s.records - vec_len s.records } };
}

impl Snapshots {
    /// No snapshots. It takes no memory.
    pub fn new(alloc: Global) -> Snapshots
        ensures empty { result.snapshots ≡ [] }
    {
        Snapshots {
            records: Vec::new(alloc),
        }
    }

    /// The records, in order of number.
    pub fn records(&self) -> &[SnapshotRecord]
        ensures all { result.now ≡ self.now.snapshots }
    {
        self.records.as_slice()
    }

    /// The record of a snapshot. It takes no memory.
    pub fn find(&self, id: &Ident) -> Option<&SnapshotRecord>
        ensures exact { option_copied result ≡ snapshot_with self.now.snapshots id.now }
    {
        for record in &self.records {
            if record.id == *id {
                return Some(record);
            }
        }
        None
    }

    /// The unfinished snapshot of a namespace. It takes no memory.
    pub fn unfinished_of(&self, namespace: &Ident) -> Option<Ident>
        ensures exact { result ≡ unfinished_of self.now.snapshots namespace.now }
    {
        for record in &self.records {
            if record.namespace == *namespace && !record.complete {
                return Some(record.id);
            }
        }
        None
    }

    /// The record of a snapshot that is unfinished. It takes no memory.
    pub fn unfinished(&self, id: &Ident) -> Option<&SnapshotRecord>
        ensures exact { option_copied result ≡ unfinished_snapshot self.now.snapshots id.now }
    {
        for record in &self.records {
            if record.id == *id && !record.complete {
                return Some(record);
            }
        }
        None
    }

    /// The tablet of a slot that an unfinished snapshot lists, and that has not said that it froze.
    pub fn pending(&self, id: &Ident, slot: u32) -> Option<Listed>
        ensures exact { result ≡ option_and_then (λ r. book.unacked_at r.listed slot) (unfinished_snapshot self.now.snapshots id.now) }
    {
        match self.unfinished(id) {
            Some(record) => unacked_in(record, slot),
            None => None,
        }
    }

    /// The tablet of a slot has said that it froze. It takes no memory.
    pub fn ack(&mut self, id: &Ident, slot: u32)
        ensures snapshots { self.new.snapshots ≡ acked_snapshot id.now slot self.old.snapshots }
        ensures room { self.new.room ≡ self.old.room }
    {
        for record in self.records.iter_mut() {
            ack_record(record, id, slot);
        }
    }

    /// A snapshot is complete. It takes no memory.
    pub fn complete(&mut self, id: &Ident)
        ensures snapshots { self.new.snapshots ≡ completed_in id.now self.old.snapshots }
        ensures room { self.new.room ≡ self.old.room }
    {
        for record in self.records.iter_mut() {
            complete_record(record, id);
        }
    }

    /// The record of a snapshot goes. It takes no memory.
    pub fn remove(&mut self, id: &Ident)
        ensures snapshots { self.new.snapshots ≡ filter (λ r. not (same r.id id.now)) self.old.snapshots }
    {
        forget(&mut self.records, id);
    }

    /// Makes room for one more record.
    pub fn prepare(&mut self) -> Result<(), NoMemory>
        ensures snapshots { self.new.snapshots ≡ self.old.snapshots }
        ensures room { OnOk result (1 ≤ self.new.room) }
    {
        self.records.reserve(1)?;
        Ok(())
    }

    /// One snapshot more, in the room that was made.
    pub fn add(&mut self, made: SnapshotRecord)
        requires room { 1 ≤ self.old.room }
        ensures snapshots { self.new.snapshots ≡ self.old.snapshots ++ made ∷ [] }
    {
        self.records.push(made).unwrap();
    }
}

// The record of a snapshot goes.
fn forget(records: &mut Vec<SnapshotRecord>, id: &Ident)
    ensures items { records.new.items ≡ filter (λ r. not (same r.id id.now)) records.old.items }
{
    records.retain(|record| is_another(record, id));
}

// Whether a record is not that of a snapshot.
fn is_another(snapshot: &SnapshotRecord, id: &Ident) -> bool
    ensures exact { result ≡ not (same snapshot.now.id id.now) }
{
    snapshot.id != *id
}

fn unacked_in(snapshot: &SnapshotRecord, slot: u32) -> Option<Listed>
    ensures exact { result ≡ book.unacked_at snapshot.now.listed slot }
{
    unacked_at(snapshot.listed.as_slice(), slot)
}

// The tablet of a slot froze, if the record is that of a snapshot.
fn ack_record(snapshot: &mut SnapshotRecord, id: &Ident, slot: u32)
    ensures acked { snapshot.new ≡ acked_if id.now slot snapshot.old }
{
    if snapshot.id == *id {
        set_acked(&mut snapshot.listed, slot);
    }
}

// It is complete, if the record is that of a snapshot.
fn complete_record(snapshot: &mut SnapshotRecord, id: &Ident)
    ensures complete { snapshot.new ≡ completed_if id.now snapshot.old }
{
    if snapshot.id == *id {
        snapshot.complete = true;
        clear_acks(&mut snapshot.listed);
    }
}
