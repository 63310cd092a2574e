ghost use Rattle.std.specs.Prelude.{ℕ, ◌≡◌, ◌≤◌, ◌<◌, ◌-◌, ◌+◌, ◌^◌, if◌then◌else◌, nat_eq, true, None, [], ◌∷◌, ◌++◌, map, length, filter, IfOk, OnOk, vec_len, vec_capacity, slice_get, Some};
ghost use Rattle.std.specs.Option.{option_copied};
ghost use Rattle.indexmap.specs.IndexMap.{spare};
ghost use Rattle.newest_index.specs.Newest.{Indexes, last_place, open_at, record_of, if_open, changed_at, InTurn};
ghost use Rattle.row_values.specs.Ids.{Id, same};
ghost use Rattle.std.specs.List.{list_any};
ghost use Rattle.model.specs.Catalog.{TableRecord, current_named, current_table, current_tables, table_named, tables_at, latest, end_table, end_tables};
ghost use Rattle.model.specs.Times.{is_open};
ghost use Rattle.model.specs.Restored.{tables_back, replace, record_at};
ghost use Rattle.catalog_core.specs.Begins.{BeginsAll, Clears, IsHome};
ghost use Rattle.catalog_core.specs.Codes.{table_code, code_in};
ghost use Rattle.catalog_core.specs.Kept.{is_current_table, is_begun, table_id, table_space, same_table_name, same_table_id, table_over, table_closed, stood_at, is_sought, begun_by, over_or_open, ends_by, ends_in, namespace_of, is_named, one_if, count_in, is_free_for};

use crate::codes::name_code;
use crate::keeping::{ById, ByName, BySpace, Keeps, retain};
use crate::keys::keys_agree;
use crate::records::TableRecord;
use crate::standing::put_standing;
use hybrid_time::HybridTime;
use indexmap::IndexMap;
use newest_index::{Changes, NewestIndex, change};
use row_values::{Name, NoMemory};
use std::alloc::Global;
use std::marker::Model;
use table_schema::Schema;
use yb_ident::Ident;

/// The records of tables. Contracts see the book's list, and for how many more there is room.
#[derive(Drop)]
pub struct Tables {
    records: Vec<TableRecord>,
    named: NewestIndex<u64>,
    by_id: NewestIndex<Ident>,
    by_space: NewestIndex<Ident>,
    counts: IndexMap<Ident, usize>,
    room: usize,
}

impl Model for Tables {
    ghost use Rattle.std.specs.Prelude.{◌≡◌, ◌≤◌, ◌-◌, nat_eq, map, length, vec_len, vec_capacity};
    ghost use Rattle.indexmap.specs.IndexMap.{spare};
    ghost use Rattle.newest_index.specs.Newest.{Indexes, InTurn};
    ghost use Rattle.row_values.specs.Ids.{Id};
    ghost use Rattle.model.specs.Catalog.{TableRecord, current_tables};
    ghost use Rattle.catalog_core.specs.Codes.{table_code};
    ghost use Rattle.catalog_core.specs.Kept.{Roomy, table_id, table_space, same_table_name, same_table_id, table_over, count_in};

    ghost Value = { Roomy TableRecord };

    ghost view = { λ t. record { items = t.records.items; room = t.room } };

    ghost invariant = { λ t. record {
      named : Indexes nat_eq t.named.places t.named.earlier.items (map table_code t.records.items);
      by_id : Indexes ⟦<Ident as PartialEq>⟧.eq t.by_id.places t.by_id.earlier.items (map table_id t.records.items);
      by_space : Indexes ⟦<Ident as PartialEq>⟧.eq t.by_space.places t.by_space.earlier.items (map table_space t.records.items);
      names : InTurn same_table_name table_over t.records.items;
      ids : InTurn same_table_id table_over t.records.items;
      counted : (ns : Id) → count_in ⟦<Ident as PartialEq>⟧.eq t.counts ns ≡ length (current_tables t.records.items ns);
      records_room : t.room ≤ vec_capacity t.records - vec_len t.records;
      named_room : t.room ≤ spare t.named.places;
      named_links : t.room ≤ vec_capacity t.named.earlier - vec_len t.named.earlier;
      by_id_room : t.room ≤ spare t.by_id.places;
      by_id_links : t.room ≤ vec_capacity t.by_id.earlier - vec_len t.by_id.earlier;
      by_space_room : t.room ≤ spare t.by_space.places;
      by_space_links : t.room ≤ vec_capacity t.by_space.earlier - vec_len t.by_space.earlier;
      counts_room : t.room ≤ spare t.counts;
    } };
}

impl Tables {
    /// That of no table, which takes no memory.
    pub fn new(alloc: Global) -> Tables
        ensures { result ≡ record { items = []; room = 0 } }
    {
        Tables {
            records: Vec::new(alloc),
            named: NewestIndex::new(alloc),
            by_id: NewestIndex::new(alloc),
            by_space: NewestIndex::new(alloc),
            counts: IndexMap::new(alloc),
            room: 0,
        }
    }

    /// The current table of a name.
    pub fn current_named(&self, namespace: &Ident, name: &Name) -> Option<&TableRecord>
        ensures { option_copied result ≡ current_named self.now.items namespace.now name.now }
    {
        keys_agree();
        let place = place_named(&self.records, &self.named, namespace, name, &None);
        current_at(&self.records, place)
    }

    /// The table that had a name at a time. It passes the records of the name that began later, and no other.
    pub fn table_named(&self, namespace: &Ident, name: &Name, x: HybridTime) -> Option<&TableRecord>
        ensures { option_copied result ≡ table_named self.now.items namespace.now name.now x }
    {
        keys_agree();
        let place = place_named(&self.records, &self.named, namespace, name, &Some(x));
        held_at(&self.records, place, x)
    }

    /// The current record of a table.
    pub fn current_table(&self, id: &Ident) -> Option<&TableRecord>
        ensures { option_copied result ≡ current_table self.now.items id.now }
    {
        keys_agree();
        let place = self.by_id.newest(id);
        current_at(&self.records, place)
    }

    /// The record that a table had at a time. It passes the table's records that began later, and no
    /// other.
    pub fn record_at(&self, id: &Ident, x: HybridTime) -> Option<&TableRecord>
        ensures { option_copied result ≡ record_at self.now.items id.now x }
    {
        keys_agree();
        let place = place_begun(&self.records, &self.by_id, id, x);
        held_at(&self.records, place, x)
    }

    /// The schema of the newest kept record of a table.
    pub fn latest(&self, id: &Ident) -> Option<&Schema>
        ensures { option_copied result ≡ latest self.now.items id.now }
    {
        keys_agree();
        let place = self.by_id.newest(id);
        match record_at(&self.records, place) {
            Some(record) => Some(&record.schema),
            None => None,
        }
    }

    /// How many tables of a namespace are current.
    pub fn count(&self, namespace: &Ident) -> usize
        ensures { result ≡ length (current_tables self.now.items namespace.now) }
    {
        match self.counts.get(namespace) {
            Some(count) => *count,
            None => 0,
        }
    }

    /// Whether no record ends after a time. It goes through all records.
    pub fn ends_by(&self, at: HybridTime) -> bool
        ensures { result ≡ ends_by at self.now.items }
    {
        for table in &self.records {
            if !is_over_or_open(table, at) {
                return false;
            }
        }
        true
    }

    /// The records, the oldest first.
    pub fn records(&self) -> &[TableRecord]
        ensures { result.now ≡ self.now.items }
    {
        self.records.as_slice()
    }

    /// The tables of a namespace that held at a time, in order of id. It goes over the records of
    /// that namespace alone.
    pub fn tables_at(
        &self,
        alloc: Global,
        namespace: &Ident,
        x: HybridTime,
    ) -> Result<Vec<TableRecord>, NoMemory>
        ensures exact { IfOk result (λ found. found.items ≡ tables_at self.now.items namespace.now x) }
    {
        standing_at(alloc, &self.records, &self.by_space, namespace, x)
    }

    /// Whether a record of a namespace is kept.
    pub fn has_records(&self, namespace: &Ident) -> bool
        ensures exact { result ≡ list_any (λ r. same r.namespace namespace.now) self.now.items }
    {
        keys_agree();
        self.by_space.newest(namespace).is_some()
    }

    /// Makes room for so many more records.
    pub fn prepare(&mut self, count: usize) -> Result<(), NoMemory>
        ensures kept { self.new.items ≡ self.old.items }
        ensures room { OnOk result (count ≤ self.new.room) }
        ensures no_less { self.old.room ≤ self.new.room }
    {
        if count > self.room {
            self.records.reserve(count)?;
            self.named.prepare_for(count)?;
            self.by_id.prepare_for(count)?;
            self.by_space.prepare_for(count)?;
            self.counts.reserve(count)?;
            self.room = count;
        }
        Ok(())
    }

    /// Takes in a record that is current, in the room that was made. No record of its name, and none
    /// of its identifier, ends after it begins.
    pub fn add(&mut self, table: TableRecord)
        requires room { 1 ≤ self.old.room }
        requires current { table.to ≡ None }
        requires past { Clears self.old.items table }
        requires free { current_named self.old.items table.namespace table.name ≡ None }
        requires fresh { current_table self.old.items table.id ≡ None }
        ensures items { self.new.items ≡ self.old.items ++ table ∷ [] }
        ensures room { self.new.room ≡ self.old.room - 1 }
    {
        keys_agree();
        self.room -= 1;
        self.named.note(code_in(&table.namespace, &table.name));
        self.by_id.note(table.id);
        self.by_space.note(table.namespace);
        raise_count(&mut self.counts, table.namespace);
        self.records.push(table).unwrap();
    }

    /// The current record of a table ends, if there is one. It takes no memory.
    pub fn end(&mut self, id: &Ident, at: HybridTime)
        ensures items { self.new.items ≡ end_table id.now at self.old.items }
        ensures room { self.new.room ≡ self.old.room }
    {
        keys_agree();
        let place = self.by_id.newest(id);
        let namespace = end_place(&mut self.records, place, at);
        lower_count(&mut self.counts, namespace);
    }

    /// The current records of a namespace end. It goes over the records of that namespace alone, and
    /// takes no memory.
    pub fn end_in(&mut self, namespace: &Ident, at: HybridTime)
        ensures items { self.new.items ≡ end_tables namespace.now at self.old.items }
        ensures room { self.new.room ≡ self.old.room }
    {
        keys_agree();
        change(&self.by_space, namespace, &mut self.records, &Closes { at });
        clear_count(&mut self.counts, namespace);
    }

    /// Of the records of one name, and of one identifier, each was over when the next began.
    pub fn follow_in_turn(&self)
        ensures names { InTurn same_table_name table_over self.now.items }
        ensures ids { InTurn same_table_id table_over self.now.items }
    {
        let _count = self.records.len();
    }

    /// A table goes on under another name or schema, in the room that was made: its current record
    /// ends where this one begins. No other record ends later.
    pub fn replace(&mut self, table: TableRecord)
        requires room { 1 ≤ self.old.room }
        requires current { table.to ≡ None }
        requires past { ends_by table.from self.old.items ≡ true }
        requires free { is_free_for table.id (current_named self.old.items table.namespace table.name) ≡ true }
        ensures items { self.new.items ≡ end_table table.id table.from self.old.items ++ table ∷ [] }
        ensures room { self.new.room ≡ self.old.room - 1 }
    {
        keys_agree();
        self.follow_in_turn();
        self.end(&table.id, table.from);
        self.add(table);
    }

    /// Takes in records that are current, each behind those before it, in the room that was made.
    pub fn add_all(&mut self, tables: Vec<TableRecord>)
        requires room { length tables.items ≤ self.old.room }
        requires begin { BeginsAll self.old.items tables.items }
        ensures items { self.new.items ≡ self.old.items ++ tables.items }
        ensures room { self.new.room ≡ self.old.room - length tables.items }
    {
        for table in tables {
            self.add(table);
        }
    }

    /// The current tables of a namespace give way to those that it had at a time, in the room that
    /// was made. Records of one table are of one namespace, and none of this namespace ends after the
    /// point.
    pub fn restore(&mut self, namespace: &Ident, back: Vec<TableRecord>, point: HybridTime)
        requires room { length back.items ≤ self.old.room }
        requires past { ends_in namespace.now point self.old.items ≡ true }
        requires home { IsHome self.old.items }
        requires back { (to : ℕ) × (back.items ≡ tables_back self.old.items namespace.now to point) }
        ensures items { self.new.items ≡ replace namespace.now back.items point self.old.items }
        ensures room { self.new.room ≡ self.old.room - length back.items }
    {
        keys_agree();
        self.follow_in_turn();
        self.end_in(namespace, point);
        self.add_all(back);
    }

    /// The records that don't stay go, and those that are left are looked up anew, in the room that
    /// was made for as many as there are. What is current has to stay.
    pub fn keep<T: Keeps<TableRecord>>(&mut self, test: &T)
        requires room { length self.old.items ≤ self.old.room }
        requires current { (r : TableRecord) → is_open r.to ≡ true → T.stays test.now r ≡ true }
        ensures items { self.new.items ≡ filter (λ r. T.stays test.now r) self.old.items }
    {
        self.room = 0;
        retain(&mut self.records, test);
        self.named.index_anew(self.records.as_slice(), &ByName);
        self.by_id.index_anew(self.records.as_slice(), &ById);
        self.by_space.index_anew(self.records.as_slice(), &BySpace);
    }
}

// The record of a place.
fn record_at(records: &Vec<TableRecord>, place: Option<usize>) -> Option<&TableRecord>
    ensures { option_copied result ≡ record_of records.now.items place }
{
    match place {
        None => None,
        Some(place) => records.get(place),
    }
}

// The record of a place, if it is current.
fn current_at(records: &Vec<TableRecord>, place: Option<usize>) -> Option<&TableRecord>
    ensures { option_copied result ≡ open_at is_current_table records.now.items place }
{
    match place {
        None => None,
        Some(place) => match records.get(place) {
            None => None,
            Some(record) => {
                if record.to.is_none() {
                    Some(record)
                } else {
                    None
                }
            }
        },
    }
}

// The record of a place, if it had not ended by a time.
fn held_at(records: &Vec<TableRecord>, place: Option<usize>, x: HybridTime) -> Option<&TableRecord>
    ensures { option_copied result ≡ open_at (stood_at x) records.now.items place }
{
    match place {
        None => None,
        Some(place) => match records.get(place) {
            None => None,
            Some(record) => {
                if is_before_end(record, x) {
                    Some(record)
                } else {
                    None
                }
            }
        },
    }
}

fn is_before_end(table: &TableRecord, x: HybridTime) -> bool
    ensures { result ≡ stood_at x table.now }
{
    match table.to {
        None => true,
        Some(to) => x.number() < to.number(),
    }
}

fn is_over_or_open(table: &TableRecord, at: HybridTime) -> bool
    ensures { result ≡ over_or_open at table.now.to }
{
    match table.to {
        None => true,
        Some(to) => to.number() <= at.number(),
    }
}

fn has_begun(table: &TableRecord, begun: &Option<HybridTime>) -> bool
    ensures { result ≡ begun_by begun.now table.now.from }
{
    match begun {
        None => true,
        Some(x) => table.from.number() <= x.number(),
    }
}

// Whether the record of a place has the name, and began by a time if one is given.
fn is_sought(
    records: &Vec<TableRecord>,
    at: usize,
    namespace: &Ident,
    name: &Name,
    begun: &Option<HybridTime>,
) -> bool
    ensures { (r : TableRecord) → slice_get records.now.items at ≡ Some r → result ≡ is_sought namespace.now name.now begun.now r }
{
    match records.get(at) {
        Some(record) => {
            has_begun(record, begun)
                && record.namespace == *namespace
                && record.name.as_slice() == name.as_slice()
        }
        None => false,
    }
}

// The number by which the name of a table is looked up.
pub fn code_in(namespace: &Ident, name: &Name) -> u64
    ensures code { result ≡ code_in namespace.now name.now }
{
    name_code(namespace.number % (1 << 32), name)
}

// The place of the last record of a name that began by a time, if one is given. Records whose names have the same number
// are walked back.
fn place_named(
    records: &Vec<TableRecord>,
    named: &NewestIndex<u64>,
    namespace: &Ident,
    name: &Name,
    begun: &Option<HybridTime>,
) -> Option<usize>
    requires indexed { Indexes nat_eq named.now.places named.now.earlier.items (map table_code records.now.items) }
    ensures last { result ≡ last_place (is_sought namespace.now name.now begun.now) records.now.items }
{
    keys_agree();
    let mut upto = records.len();
    let mut next = named.newest(&code_in(namespace, name));
    'records: while let Some(at) = next {
        if is_sought(records, at, namespace, name, begun) {
            return Some(at);
        }
        next = named.earlier(at);
        upto = at;
    }
    None
}

// The place of the last record of a table that began by a time.
fn place_begun(
    records: &Vec<TableRecord>,
    by_id: &NewestIndex<Ident>,
    id: &Ident,
    x: HybridTime,
) -> Option<usize>
    requires indexed { Indexes ⟦<Ident as PartialEq>⟧.eq by_id.now.places by_id.now.earlier.items (map table_id records.now.items) }
    ensures last { result ≡ last_place (is_begun id.now x) records.now.items }
{
    keys_agree();
    let mut upto = records.len();
    let mut next = by_id.newest(id);
    'records: while let Some(at) = next {
        if at >= upto {
            return None;
        }
        if records[at].from.number() <= x.number() {
            return Some(at);
        }
        next = by_id.earlier(at);
        upto = at;
    }
    None
}

// The record of a place ends, if it is current; the namespace of one that did.
fn end_place(records: &mut Vec<TableRecord>, place: Option<usize>, at: HybridTime) -> Option<Ident>
    ensures items { records.new.items ≡ changed_at (table_closed at) records.old.items place }
    ensures ended { result ≡ namespace_of (open_at is_current_table records.old.items place) }
    ensures room { vec_capacity records.new - vec_len records.new ≡ vec_capacity records.old - vec_len records.old }
{
    if let Some(place) = place {
        if place < records.len() {
            return end_record(&mut records[place], at);
        }
    }
    None
}

fn end_record(table: &mut TableRecord, at: HybridTime) -> Option<Ident>
    ensures written { table.new ≡ table_closed at table.old }
    ensures ended { result ≡ namespace_of (if_open is_current_table (Some table.old)) }
{
    if table.to.is_none() {
        table.to = Some(at);
        Some(table.namespace)
    } else {
        None
    }
}

// What becomes of a current record that ends.
#[derive(Drop)]
struct Closes {
    at: HybridTime,
}

impl Changes<TableRecord> for Closes {
    ghost changed = { λ w r. table_closed w.at r };

    fn change(&self, item: &mut TableRecord) {
        end_record(item, self.at);
    }
}

// The tables of a namespace that held at a time, in order of id: its records are walked back.
fn standing_at(
    alloc: Global,
    records: &Vec<TableRecord>,
    by_space: &NewestIndex<Ident>,
    namespace: &Ident,
    x: HybridTime,
) -> Result<Vec<TableRecord>, NoMemory>
    requires indexed { Indexes ⟦<Ident as PartialEq>⟧.eq by_space.now.places by_space.now.earlier.items (map table_space records.now.items) }
    ensures exact { IfOk result (λ found. found.items ≡ tables_at records.now.items namespace.now x) }
{
    keys_agree();
    let mut upto = records.len();
    let mut next = by_space.newest(namespace);
    let mut found = Vec::new(alloc);
    'records: while let Some(at) = next {
        if at >= upto {
            return Ok(found);
        }
        put_standing(&mut found, &records[at], namespace, x)?;
        next = by_space.earlier(at);
        upto = at;
    }
    Ok(found)
}

// One more for a namespace.
fn raise_count(counts: &mut IndexMap<Ident, usize>, namespace: Ident)
    requires room { 1 ≤ spare counts.old }
    requires small { count_in ⟦<Ident as PartialEq>⟧.eq counts.old namespace < 2 ^ 63 }
    ensures counted { (ns : Id) → count_in ⟦<Ident as PartialEq>⟧.eq counts.new ns ≡ count_in ⟦<Ident as PartialEq>⟧.eq counts.old ns + one_if (same namespace ns) }
    ensures room { spare counts.old ≤ spare counts.new + 1 }
{
    keys_agree();
    let count = counts.get(&namespace).copied().unwrap_or(0);
    counts.insert(namespace, count + 1).unwrap();
}

// One less for a namespace, if there is one.
fn lower_count(counts: &mut IndexMap<Ident, usize>, namespace: Option<Ident>)
    ensures counted { (ns : Id) → count_in ⟦<Ident as PartialEq>⟧.eq counts.new ns ≡ count_in ⟦<Ident as PartialEq>⟧.eq counts.old ns - one_if (is_named namespace ns) }
    ensures room { spare counts.old ≤ spare counts.new }
{
    keys_agree();
    let Some(namespace) = namespace else {
        return;
    };
    let Some(count) = counts.get_mut(&namespace) else {
        return;
    };
    *count = count.saturating_sub(1);
}

// None for a namespace.
fn clear_count(counts: &mut IndexMap<Ident, usize>, namespace: &Ident)
    ensures counted { (ns : Id) → count_in ⟦<Ident as PartialEq>⟧.eq counts.new ns ≡ (if same namespace.now ns then 0 else count_in ⟦<Ident as PartialEq>⟧.eq counts.old ns) }
    ensures room { spare counts.old ≤ spare counts.new }
{
    keys_agree();
    let Some(count) = counts.get_mut(namespace) else {
        return;
    };
    *count = 0;
}
