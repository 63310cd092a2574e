ghost use Rattle.std.specs.Prelude.{◌≡◌, ◌≤◌, ◌-◌, ◌+◌, nat_eq, true, None, [], ◌∷◌, ◌++◌, map, length, filter, is_some, OnOk, vec_len, vec_capacity, slice_get, Some};
ghost use Rattle.std.specs.Option.{option_copied};
ghost use Rattle.std.specs.List.{list_any};
ghost use Rattle.row_values.specs.Ids.{same};
ghost use Rattle.std.specs.Str.{bytes_eq};
ghost use Rattle.newest_index.specs.Newest.{Indexes, last_place, open_at, changed_at};
ghost use Rattle.model.specs.Times.{is_open, ended};
ghost use Rattle.model.specs.Catalog.{NamespaceRecord, namespace_named, name_of, end_namespace};
ghost use Rattle.catalog_core.specs.Codes.{space_code};
ghost use Rattle.catalog_core.specs.Kept.{is_current_space, space_ended, one_if};

use crate::codes::name_code;
use crate::keeping::{ById, ByName, Keeps, retain};
use crate::keys::keys_agree;
use crate::records::NamespaceRecord;
use hybrid_time::HybridTime;
use newest_index::NewestIndex;
use row_values::{Name, NoMemory};
use std::alloc::Global;
use std::marker::Model;
use yb_ident::Ident;

/// The records of namespaces. Contracts see the book's list, and for how many more there is room.
#[derive(Drop)]
pub struct Namespaces {
    records: Vec<NamespaceRecord>,
    named: NewestIndex<u64>,
    by_id: NewestIndex<Ident>,
    current: usize,
    room: usize,
}

impl Model for Namespaces {
    ghost use Rattle.std.specs.Prelude.{◌≡◌, ◌≤◌, ◌-◌, nat_eq, map, length, filter, vec_len, vec_capacity};
    ghost use Rattle.indexmap.specs.IndexMap.{spare};
    ghost use Rattle.newest_index.specs.Newest.{Indexes, InTurn};
    ghost use Rattle.model.specs.Catalog.{NamespaceRecord};
    ghost use Rattle.catalog_core.specs.Codes.{space_code};
    ghost use Rattle.catalog_core.specs.Kept.{Roomy, space_id, is_current_space, same_space_name, same_space_id, space_over};

    ghost Value = { Roomy NamespaceRecord };

    ghost view = { λ n. record { items = n.records.items; room = n.room } };

    ghost invariant = { λ n. record {
      named : Indexes nat_eq n.named.places n.named.earlier.items (map space_code n.records.items);
      by_id : Indexes ⟦<Ident as PartialEq>⟧.eq n.by_id.places n.by_id.earlier.items (map space_id n.records.items);
      names : InTurn same_space_name space_over n.records.items;
      ids : InTurn same_space_id space_over n.records.items;
      counted : n.current ≡ length (filter is_current_space n.records.items);
      records_room : n.room ≤ vec_capacity n.records - vec_len n.records;
      named_room : n.room ≤ spare n.named.places;
      named_links : n.room ≤ vec_capacity n.named.earlier - vec_len n.named.earlier;
      by_id_room : n.room ≤ spare n.by_id.places;
      by_id_links : n.room ≤ vec_capacity n.by_id.earlier - vec_len n.by_id.earlier;
    } };
}

impl Namespaces {
    /// That of no namespace, which takes no memory.
    pub fn new(alloc: Global) -> Namespaces
        ensures { result ≡ record { items = []; room = 0 } }
    {
        Namespaces {
            records: Vec::new(alloc),
            named: NewestIndex::new(alloc),
            by_id: NewestIndex::new(alloc),
            current: 0,
            room: 0,
        }
    }

    /// The current namespace of a name.
    pub fn namespace_named(&self, name: &Name) -> Option<Ident>
        ensures { result ≡ namespace_named self.now.items name.now }
    {
        let place = place_named(&self.records, &self.named, name);
        match current_at(&self.records, place) {
            Some(record) => Some(record.id),
            None => None,
        }
    }

    /// The name of a current namespace.
    pub fn name_of(&self, id: &Ident) -> Option<&Name>
        ensures { option_copied result ≡ name_of self.now.items id.now }
    {
        keys_agree();
        let place = self.by_id.newest(id);
        match current_at(&self.records, place) {
            Some(record) => Some(&record.name),
            None => None,
        }
    }

    /// How many namespaces are current.
    pub fn count(&self) -> usize
        ensures { result ≡ length (filter (λ r. is_open r.to) self.now.items) }
    {
        self.current
    }

    /// The records, the oldest first.
    pub fn records(&self) -> &[NamespaceRecord]
        ensures { result.now ≡ self.now.items }
    {
        self.records.as_slice()
    }

    /// Whether a record of a namespace is kept.
    pub fn has_records(&self, namespace: &Ident) -> bool
        ensures exact { result ≡ list_any (λ r. same r.id namespace.now) self.now.items }
    {
        keys_agree();
        self.by_id.newest(namespace).is_some()
    }

    /// Makes room for so many more records.
    pub fn prepare(&mut self, count: usize) -> Result<(), NoMemory>
        ensures kept { self.new.items ≡ self.old.items }
        ensures room { OnOk result (count ≤ self.new.room) }
        ensures no_less { self.old.room ≤ self.new.room }
    {
        if count > self.room {
            self.records.reserve(count)?;
            self.named.prepare_for(count)?;
            self.by_id.prepare_for(count)?;
            self.room = count;
        }
        Ok(())
    }

    /// Takes in a record that is current, in the room that was made.
    pub fn add(&mut self, namespace: NamespaceRecord)
        requires room { 1 ≤ self.old.room }
        requires current { namespace.to ≡ None }
        requires free { namespace_named self.old.items namespace.name ≡ None }
        requires fresh { name_of self.old.items namespace.id ≡ None }
        ensures items { self.new.items ≡ self.old.items ++ namespace ∷ [] }
        ensures room { self.new.room ≡ self.old.room - 1 }
    {
        keys_agree();
        self.room -= 1;
        self.current += 1;
        self.named.note(name_code(0, &namespace.name));
        self.by_id.note(namespace.id);
        self.records.push(namespace).unwrap();
    }

    /// The current record of a namespace ends, if there is one. It takes no memory.
    pub fn end(&mut self, id: &Ident, at: HybridTime)
        ensures items { self.new.items ≡ end_namespace id.now at self.old.items }
        ensures room { self.new.room ≡ self.old.room }
    {
        keys_agree();
        let place = self.by_id.newest(id);
        self.current -= end_place(&mut self.records, place, at);
    }

    /// The records that don't stay go, and those that are left are looked up anew, in the room that
    /// was made for as many as there are. What is current has to stay.
    pub fn keep<T: Keeps<NamespaceRecord>>(&mut self, test: &T)
        requires room { length self.old.items ≤ self.old.room }
        requires current { (r : NamespaceRecord) → is_open r.to ≡ true → T.stays test.now r ≡ true }
        ensures items { self.new.items ≡ filter (λ r. T.stays test.now r) self.old.items }
    {
        self.room = 0;
        retain(&mut self.records, test);
        self.named.index_anew(self.records.as_slice(), &ByName);
        self.by_id.index_anew(self.records.as_slice(), &ById);
    }
}

// The record of a place, if it is current.
fn current_at(records: &Vec<NamespaceRecord>, place: Option<usize>) -> Option<&NamespaceRecord>
    ensures { option_copied result ≡ open_at is_current_space records.now.items place }
{
    match place {
        None => None,
        Some(place) => match records.get(place) {
            None => None,
            Some(record) => {
                if record.to.is_none() {
                    Some(record)
                } else {
                    None
                }
            }
        },
    }
}

// Whether the record of a place has the name.
fn has_name(records: &Vec<NamespaceRecord>, at: usize, name: &Name) -> bool
    ensures { (r : NamespaceRecord) → slice_get records.now.items at ≡ Some r → result ≡ bytes_eq r.name name.now }
{
    match records.get(at) {
        Some(record) => record.name.as_slice() == name.as_slice(),
        None => false,
    }
}

// The place of the last record of a name. Records whose names have the same number are walked back.
fn place_named(
    records: &Vec<NamespaceRecord>,
    named: &NewestIndex<u64>,
    name: &Name,
) -> Option<usize>
    requires indexed { Indexes nat_eq named.now.places named.now.earlier.items (map space_code records.now.items) }
    ensures last { result ≡ last_place (λ r. bytes_eq r.name name.now) records.now.items }
{
    let mut upto = records.len();
    let mut next = named.newest(&name_code(0, name));
    'records: while let Some(at) = next {
        if has_name(records, at, name) {
            return Some(at);
        }
        next = named.earlier(at);
        upto = at;
    }
    None
}

// The record of a place ends, if it is current; how many did.
fn end_place(records: &mut Vec<NamespaceRecord>, place: Option<usize>, at: HybridTime) -> usize
    ensures items { records.new.items ≡ changed_at (space_ended at) records.old.items place }
    ensures ended { result ≡ one_if (is_some (open_at is_current_space records.old.items place)) }
    ensures room { vec_capacity records.new - vec_len records.new ≡ vec_capacity records.old - vec_len records.old }
{
    if let Some(place) = place {
        if place < records.len() {
            return end_record(&mut records[place], at);
        }
    }
    0
}

fn end_record(namespace: &mut NamespaceRecord, at: HybridTime) -> usize
    ensures written { namespace.new ≡ space_ended at namespace.old }
    ensures ended { result ≡ one_if (is_open namespace.old.to) }
{
    if namespace.to.is_none() {
        namespace.to = Some(at);
        1
    } else {
        0
    }
}
