ghost use Rattle.std.specs.Prelude.{ℕ, ◌≡◌, ◌≤◌, ◌-◌, ◌+◌, ◌&&◌, [], ◌∷◌, ◌++◌, Some, None, OnOk, IfOk, is_some, map, if◌then◌else◌};
ghost use Rattle.std.specs.List.{filter};
ghost use Rattle.row_values.specs.Ids.{same};
ghost use Rattle.row_values.specs.Slots.{has};
ghost use Rattle.model.specs.Times.{ended};
ghost use Rattle.model.specs.Parts.{Master};
ghost use Rattle.model.specs.Activity as book;
ghost use Rattle.model.specs.Looks as looks;
ghost use Rattle.model.specs.Cleanup.{last_in};
ghost use Rattle.model.specs.RowActs.{table_in};
ghost use Rattle.model.specs.Activity.{Interval};
ghost use Rattle.catalog_tablets.specs.View.{slot_of};

use crate::agree::keys_agree;
use crate::interval::Interval;
use crate::slots::SlotCounts;
use crate::steps::{ActiveAt, ActiveBetween, Ends, Holds, Last, Leaves, Open, Routes};
use hybrid_time::HybridTime;
use kept_records::{Kept, Tests, change, change_all, first, gather, passing, select, take_out};
use newest_index::NewestIndex;
use row_values::NoMemory;
use std::alloc::Global;
use std::marker::Model;
use yb_ident::Ident;

/// The activity of all tablets. Contracts see the book's list of intervals, and for how many more
/// there is room.
#[derive(Drop)]
pub struct Tablets {
    intervals: Vec<Kept<Interval>>,
    by_tablet: NewestIndex<Ident>,
    by_table: NewestIndex<Ident>,
    by_slot: NewestIndex<u32>,
    in_slots: SlotCounts,
    room: usize,
}

impl Model for Tablets {
    ghost use Rattle.std.specs.Prelude.{◌≤◌, ◌-◌, map, vec_len, vec_capacity};
    ghost use Rattle.indexmap.specs.IndexMap.{spare};
    ghost use Rattle.newest_index.specs.Newest.{Indexes};
    ghost use Rattle.kept_records.specs.Gathered.{present_of, kept_key};
    ghost use Rattle.catalog_tablets.specs.View.{TabletsView, tablet_of, table_of, slot_of};
    ghost use Rattle.catalog_tablets.specs.Slots.{Counts, number_in};

    ghost Value = { TabletsView };

    ghost view = { λ t. record { activity = present_of t.intervals.items; room = t.room } };

    ghost invariant = { λ t. record {
      by_tablet : Indexes ⟦<Ident as PartialEq>⟧.eq t.by_tablet.places t.by_tablet.earlier.items (map (kept_key tablet_of) t.intervals.items);
      by_table : Indexes ⟦<Ident as PartialEq>⟧.eq t.by_table.places t.by_table.earlier.items (map (kept_key table_of) t.intervals.items);
      by_slot : Indexes ⟦<u32 as PartialEq>⟧.eq t.by_slot.places t.by_slot.earlier.items (map (kept_key slot_of) t.intervals.items);
      counted : Counts t.in_slots (number_in (present_of t.intervals.items));
      list_room : t.room ≤ vec_capacity t.intervals - vec_len t.intervals;
      tablet_room : t.room ≤ spare t.by_tablet.places;
      tablet_links : t.room ≤ vec_capacity t.by_tablet.earlier - vec_len t.by_tablet.earlier;
      table_room : t.room ≤ spare t.by_table.places;
      table_links : t.room ≤ vec_capacity t.by_table.earlier - vec_len t.by_table.earlier;
      slot_room : t.room ≤ spare t.by_slot.places;
      slot_links : t.room ≤ vec_capacity t.by_slot.earlier - vec_len t.by_slot.earlier;
    } };
}

impl Tablets {
    /// No tablets. It takes no memory.
    pub fn new(alloc: Global) -> Tablets
        ensures empty { result ≡ record { activity = []; room = 0 } }
    {
        Tablets {
            intervals: Vec::new(alloc),
            by_tablet: NewestIndex::new(alloc),
            by_table: NewestIndex::new(alloc),
            by_slot: NewestIndex::new(alloc),
            in_slots: SlotCounts::none(alloc),
            room: 0,
        }
    }

    /// No tablets, of a cluster with so many slots: how often each of them is used is counted.
    pub fn for_slots(alloc: Global, slots: u32) -> Result<Tablets, NoMemory>
        ensures empty { IfOk result (λ t. t ≡ record { activity = []; room = 0 }) }
    {
        let in_slots = SlotCounts::new(alloc, slots)?;
        Ok(Tablets {
            intervals: Vec::new(alloc),
            by_tablet: NewestIndex::new(alloc),
            by_table: NewestIndex::new(alloc),
            by_slot: NewestIndex::new(alloc),
            in_slots,
            room: 0,
        })
    }

    /// The interval of the table's tablet that held a code at a time; `None` exactly where no kept
    /// one does. It takes no memory, and goes over the intervals of that table alone.
    pub fn route(&self, table: &Ident, code: u16, x: HybridTime) -> Option<Interval>
        ensures exact { result ≡ book.route self.now.activity table.now code x }
    {
        keys_agree();
        gather(
            &self.by_table,
            table,
            self.intervals.as_slice(),
            &Routes { code, x },
            None,
        )
    }

    /// The table's active tablet that holds a code. It takes no memory, and goes over the intervals
    /// of that table alone.
    pub fn holding(&self, table: &Ident, code: u16) -> Option<Interval>
        ensures exact { (m : Master) → m.activity ≡ self.now.activity → result ≡ looks.holding m table.now code }
    {
        keys_agree();
        gather(
            &self.by_table,
            table,
            self.intervals.as_slice(),
            &Holds { code },
            None,
        )
    }

    /// The last interval of a tablet; `None` exactly where it is not known. It takes no memory.
    pub fn last_of(&self, tablet: &Ident) -> Option<Interval>
        ensures exact { result ≡ book.last_of self.now.activity tablet.now }
    {
        keys_agree();
        gather(
            &self.by_tablet,
            tablet,
            self.intervals.as_slice(),
            &Last,
            None,
        )
    }

    /// The last interval in a slot: that of the tablet that it has. It takes no memory.
    pub fn last_in(&self, slot: u32) -> Option<Interval>
        ensures exact { result ≡ last_in self.now.activity slot None }
    {
        keys_agree();
        gather(&self.by_slot, &slot, self.intervals.as_slice(), &Last, None)
    }

    /// The table of a slot's tablet: that of the first interval that is kept in the slot. It takes no
    /// memory, and goes over the intervals of that slot alone.
    pub fn table_in(&self, slot: u32) -> Option<Ident>
        ensures exact { result ≡ table_in self.now.activity slot }
    {
        keys_agree();
        match first(&self.by_slot, &slot, self.intervals.as_slice()) {
            Some(interval) => Some(interval.table),
            None => None,
        }
    }

    /// Whether a kept interval is in a slot. It takes no memory, and is a look at a count where the
    /// slot is counted.
    pub fn is_used(&self, slot: u32) -> bool
        ensures exact { result ≡ has (map slot_of self.now.activity) slot }
    {
        match self.in_slots.get(slot) {
            Some(count) => count > 0,
            None => self.last_in(slot).is_some(),
        }
    }

    /// The intervals that pass a test, in the order in which they began. It goes over all of them.
    pub fn passing<T: Tests<Interval>>(&self, test: &T) -> Result<Vec<Interval>, NoMemory>
        ensures exact { IfOk result (λ found. found.items ≡ filter (λ i. T.passes test.now i) self.now.activity) }
    {
        let alloc = *self.intervals.allocator();
        passing(alloc, self.intervals.as_slice(), test)
    }

    /// The table's tablets that are active, in the order in which they began.
    pub fn active_in(&self, table: &Ident) -> Result<Vec<Interval>, NoMemory>
        ensures exact { IfOk result (λ found. (m : Master) → m.activity ≡ self.now.activity → found.items ≡ looks.active_in m table.now) }
    {
        keys_agree();
        let alloc = *self.intervals.allocator();
        select(
            alloc,
            &self.by_table,
            table,
            self.intervals.as_slice(),
            &Open,
        )
    }

    /// The table's intervals that held at a time, in the order in which they began.
    pub fn active_at(&self, table: &Ident, x: HybridTime) -> Result<Vec<Interval>, NoMemory>
        ensures exact { IfOk result (λ found. found.items ≡ filter (λ i. same i.table table.now && book.active_at x i) self.now.activity) }
    {
        keys_agree();
        let alloc = *self.intervals.allocator();
        select(
            alloc,
            &self.by_table,
            table,
            self.intervals.as_slice(),
            &ActiveAt { x },
        )
    }

    /// The table's intervals that held at some time from `a` to `b`, both counted, in the order in
    /// which they began.
    pub fn active_between(
        &self,
        table: &Ident,
        a: HybridTime,
        b: HybridTime,
    ) -> Result<Vec<Interval>, NoMemory>
        ensures exact { IfOk result (λ found. found.items ≡ filter (λ i. same i.table table.now && book.active_between a b i) self.now.activity) }
    {
        keys_agree();
        let alloc = *self.intervals.allocator();
        select(
            alloc,
            &self.by_table,
            table,
            self.intervals.as_slice(),
            &ActiveBetween { a, b },
        )
    }

    /// Makes room for so many more intervals.
    pub fn prepare(&mut self, count: usize) -> Result<(), NoMemory>
        ensures activity { self.new.activity ≡ self.old.activity }
        ensures room { OnOk result (count ≤ self.new.room) }
    {
        if count <= self.room {
            return Ok(());
        }
        self.room = 0;
        self.intervals.reserve(count)?;
        self.by_tablet.prepare_for(count)?;
        self.by_table.prepare_for(count)?;
        self.by_slot.prepare_for(count)?;
        self.room = count;
        Ok(())
    }

    /// An interval begins, in the room that was made.
    pub fn begin(&mut self, interval: Interval)
        requires room { 1 ≤ self.old.room }
        ensures activity { self.new.activity ≡ self.old.activity ++ interval ∷ [] }
        ensures room { self.new.room ≡ self.old.room - 1 }
    {
        self.room -= 1;
        self.by_tablet.note(interval.tablet);
        self.by_table.note(interval.table);
        self.by_slot.note(interval.slot);
        self.in_slots.raise(interval.slot);
        self.intervals
            .push(Kept {
                item: interval,
                present: true,
            })
            .unwrap();
    }

    /// The open interval of a tablet ends. It takes no memory.
    pub fn end_tablet(&mut self, tablet: &Ident, at: HybridTime)
        ensures activity { self.new.activity ≡ book.end_tablet tablet.now at self.old.activity }
        ensures room { self.new.room ≡ self.old.room }
    {
        keys_agree();
        change(&self.by_tablet, tablet, &mut self.intervals, &Ends { at });
    }

    /// The open intervals of a table's tablets end. It takes no memory.
    pub fn end_table_tablets(&mut self, table: &Ident, at: HybridTime)
        ensures activity { self.new.activity ≡ book.end_table_tablets table.now at self.old.activity }
        ensures room { self.new.room ≡ self.old.room }
    {
        keys_agree();
        change(&self.by_table, table, &mut self.intervals, &Ends { at });
    }

    /// The open intervals that pass a test end. It goes over all of them, and takes no memory.
    pub fn end_passing<T: Tests<Interval>>(&mut self, test: &T, at: HybridTime)
        ensures activity { self.new.activity ≡ map {A = Interval} (λ i. record i { to = if T.passes test.now i then ended at i.to else i.to }) self.old.activity }
        ensures room { self.new.room ≡ self.old.room }
    {
        change_all(&mut self.intervals, test, &Ends { at });
    }

    /// Nothing is known of a tablet any more. It takes no memory.
    pub fn forget(&mut self, tablet: &Ident)
        ensures activity { self.new.activity ≡ book.forget tablet.now self.old.activity }
        ensures room { self.new.room ≡ self.old.room }
    {
        keys_agree();
        let none = SlotCounts::none(*self.intervals.allocator());
        let counts = std::mem::replace(&mut self.in_slots, none);
        self.in_slots = gather(
            &self.by_tablet,
            tablet,
            self.intervals.as_slice(),
            &Leaves,
            counts,
        );
        take_out(&self.by_tablet, tablet, &mut self.intervals);
    }
}
