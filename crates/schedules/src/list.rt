ghost use Rattle.std.specs.Prelude.{◌≡◌, ◌≤◌, ◌-◌, ◌+◌, [], ◌∷◌, ◌++◌, ◌==◌, None, Some, true, map, is_some, IfOk, OnOk, OnErr, MatchResult};
ghost use Rattle.row_values.specs.Ids.{Id, same};
ghost use Rattle.model.specs.Records as book;
ghost use Rattle.model.specs.Schedules as rules;
ghost use Rattle.model.specs.Changes.{count_schedules, most_schedules};
ghost use Rattle.model.specs.Changed.{with_periods, without_schedule};
ghost use Rattle.model.specs.Lists.{set_last};
ghost use Rattle.schedules.specs.Periods.{IsPeriod};
ghost use Rattle.schedules.specs.Seen.{create_refusal, refusal_of, EditRefusedAs};

use crate::agree::keys_agree;
use crate::schedule::{Schedule, is_period};
use crate::steps::{Any, Edits, LeastLow, Taken};
use hybrid_time::HybridTime;
use kept_records::{Kept, change, count, first, gather, passing, take_out};
use newest_index::NewestIndex;
use row_values::NoMemory;
use std::alloc::Global;
use std::marker::Model;
use yb_ident::Ident;

// How many schedules a namespace may have.
const MOST: usize = 8;

/// The schedules of a cluster, in the order in which they were made. Contracts see the book's list,
/// and for how many more there is room.
#[derive(Drop)]
pub struct ScheduleList {
    schedules: Vec<Kept<Schedule>>,
    by_id: NewestIndex<Ident>,
    by_namespace: NewestIndex<Ident>,
    room: usize,
}

impl Model for ScheduleList {
    ghost use Rattle.std.specs.Prelude.{◌≤◌, ◌-◌, map, vec_len, vec_capacity};
    ghost use Rattle.indexmap.specs.IndexMap.{spare};
    ghost use Rattle.newest_index.specs.Newest.{Indexes};
    ghost use Rattle.kept_records.specs.Gathered.{present_of, kept_key};
    ghost use Rattle.schedules.specs.Seen.{SchedulesView, id_of, space_of};

    ghost Value = { SchedulesView };

    ghost view = { λ l. record { schedules = present_of l.schedules.items; room = l.room } };

    ghost invariant = { λ l. record {
      by_id : Indexes ⟦<Ident as PartialEq>⟧.eq l.by_id.places l.by_id.earlier.items (map (kept_key id_of) l.schedules.items);
      by_namespace : Indexes ⟦<Ident as PartialEq>⟧.eq l.by_namespace.places l.by_namespace.earlier.items (map (kept_key space_of) l.schedules.items);
      list_room : l.room ≤ vec_capacity l.schedules - vec_len l.schedules;
      id_room : l.room ≤ spare l.by_id.places;
      id_links : l.room ≤ vec_capacity l.by_id.earlier - vec_len l.by_id.earlier;
      namespace_room : l.room ≤ spare l.by_namespace.places;
      namespace_links : l.room ≤ vec_capacity l.by_namespace.earlier - vec_len l.by_namespace.earlier;
    } };
}

/// Why a schedule is not made.
#[derive(Clone, Copy, Debug, PartialEq, Eq)]
pub enum CreateRefused {
    /// The namespace has so many.
    TooMany { limit: u32 },
    /// No schedule may have these periods.
    BadPeriod { interval: u64, retention: u64 },
}

/// Why a schedule is not edited.
#[derive(Clone, Copy, Debug, PartialEq, Eq)]
pub enum EditRefused {
    /// There is none of the identifier.
    UnknownSchedule,
    /// No schedule may have these periods.
    BadPeriod { interval: u64, retention: u64 },
}

/// There is no schedule of an identifier.
#[derive(Clone, Copy, Debug, PartialEq, Eq)]
pub struct UnknownSchedule;

impl ScheduleList {
    /// No schedules. It takes no memory.
    pub fn new(alloc: Global) -> ScheduleList
        ensures empty { result ≡ record { schedules = []; room = 0 } }
    {
        ScheduleList {
            schedules: Vec::new(alloc),
            by_id: NewestIndex::new(alloc),
            by_namespace: NewestIndex::new(alloc),
            room: 0,
        }
    }

    /// The schedules, in the order in which they were made.
    pub fn all(&self) -> Result<Vec<Schedule>, NoMemory>
        ensures exact { IfOk result (λ found. found.items ≡ self.now.schedules) }
    {
        passing(*self.schedules.allocator(), self.schedules.as_slice(), &Any)
    }

    /// The schedule of an identifier. It takes no memory.
    pub fn schedule_with(&self, id: &Ident) -> Option<Schedule>
        ensures exact { result ≡ book.schedule_with self.now.schedules id.now }
    {
        keys_agree();
        first(&self.by_id, id, self.schedules.as_slice())
    }

    /// The schedule of a namespace that was made first. It takes no memory.
    pub fn schedule_of(&self, namespace: &Ident) -> Option<Schedule>
        ensures exact { result ≡ book.schedule_of self.now.schedules namespace.now }
    {
        keys_agree();
        first(&self.by_namespace, namespace, self.schedules.as_slice())
    }

    /// Whether a namespace has as many schedules as it may have. It takes no memory.
    fn is_full(&self, namespace: &Ident) -> bool
        ensures exact { result ≡ (count_schedules self.now.schedules namespace.now == most_schedules) }
    {
        keys_agree();
        count(
            &self.by_namespace,
            namespace,
            self.schedules.as_slice(),
            MOST + 1,
        ) == MOST
    }

    /// The least low end of the windows of a namespace's schedules, where it has one. It takes no
    /// memory.
    pub fn least_low(&self, namespace: &Ident, now: HybridTime) -> Option<HybridTime>
        ensures exact { result ≡ rules.least_low self.now.schedules namespace.now now }
    {
        keys_agree();
        gather(
            &self.by_namespace,
            namespace,
            self.schedules.as_slice(),
            &LeastLow { now },
            None,
        )
    }

    /// Why a namespace gets no schedule of these periods; or it may have it. It takes no memory.
    pub fn judge_create(
        &self,
        namespace: &Ident,
        interval: u64,
        retention: u64,
    ) -> Result<(), CreateRefused>
        ensures exact { MatchResult result
            (λ _. create_refusal self.now.schedules namespace.now interval retention ≡ None)
            (λ why. create_refusal self.now.schedules namespace.now interval retention ≡ Some (refusal_of why)) }
    {
        if self.is_full(namespace) {
            return Err(CreateRefused::TooMany { limit: 8 });
        }
        if !is_period(interval, retention) {
            return Err(CreateRefused::BadPeriod {
                interval,
                retention,
            });
        }
        Ok(())
    }

    /// Why the schedule of an identifier does not get these periods; or it may have them. It takes
    /// no memory.
    pub fn judge_edit(
        &self,
        id: &Ident,
        interval: u64,
        retention: u64,
    ) -> Result<Schedule, EditRefused>
        ensures found { IfOk result (λ s. book.schedule_with self.now.schedules id.now ≡ Some s) }
        ensures judged { MatchResult result
            (λ _. rules.is_period interval retention ≡ true)
            (EditRefusedAs self.now.schedules id.now interval retention) }
    {
        let Some(schedule) = self.schedule_with(id) else {
            return Err(EditRefused::UnknownSchedule);
        };
        if !is_period(interval, retention) {
            return Err(EditRefused::BadPeriod {
                interval,
                retention,
            });
        }
        Ok(schedule)
    }

    /// Makes room for one more schedule.
    pub fn prepare(&mut self) -> Result<(), NoMemory>
        ensures schedules { self.new.schedules ≡ self.old.schedules }
        ensures room { OnOk result (1 ≤ self.new.room) }
    {
        if self.room >= 1 {
            return Ok(());
        }
        self.schedules.reserve(1)?;
        self.by_id.prepare_for(1)?;
        self.by_namespace.prepare_for(1)?;
        self.room = 1;
        Ok(())
    }

    /// One schedule more, in the room that was made.
    pub fn add(&mut self, schedule: Schedule)
        requires room { 1 ≤ self.old.room }
        ensures schedules { self.new.schedules ≡ self.old.schedules ++ schedule ∷ [] }
        ensures room { self.new.room ≡ self.old.room - 1 }
    {
        self.room -= 1;
        self.by_id.note(schedule.id);
        self.by_namespace.note(schedule.namespace);
        self.schedules
            .push(Kept {
                item: schedule,
                present: true,
            })
            .unwrap();
    }

    /// The schedule of an identifier has other periods from a stamp on, if there is one. It takes no
    /// memory.
    pub fn set_periods(&mut self, id: &Ident, interval: u64, retention: u64, now: HybridTime)
        requires period { IsPeriod interval retention }
        ensures schedules { self.new.schedules ≡ with_periods id.now interval retention now self.old.schedules }
        ensures room { self.new.room ≡ self.old.room }
    {
        keys_agree();
        let edits = Edits::new(interval, retention, now);
        change(&self.by_id, id, &mut self.schedules, &edits);
    }

    /// Gives the schedule of an identifier other periods from a stamp on, or refuses them and
    /// changes nothing. It takes no memory.
    pub fn edit(
        &mut self,
        id: &Ident,
        interval: u64,
        retention: u64,
        now: HybridTime,
    ) -> Result<(), EditRefused>
        ensures edited { OnOk result (self.new.schedules ≡ with_periods id.now interval retention now self.old.schedules) }
        ensures refused { MatchResult result (λ _. is_some (book.schedule_with self.old.schedules id.now) ≡ true) (EditRefusedAs self.old.schedules id.now interval retention) }
        ensures kept { OnErr result (self.new ≡ self.old) }
    {
        self.judge_edit(id, interval, retention)?;
        self.set_periods(id, interval, retention, now);
        Ok(())
    }

    /// A snapshot of the schedule of an identifier was taken at a stamp. It takes no memory.
    pub fn set_last(&mut self, id: &Ident, at: HybridTime)
        ensures schedules { self.new.schedules ≡ set_last id.now at self.old.schedules }
        ensures room { self.new.room ≡ self.old.room }
    {
        keys_agree();
        change(&self.by_id, id, &mut self.schedules, &Taken { at });
    }

    /// The schedule of an identifier goes, if there is one. It takes no memory.
    pub fn remove(&mut self, id: &Ident)
        ensures schedules { self.new.schedules ≡ without_schedule id.now self.old.schedules }
        ensures room { self.new.room ≡ self.old.room }
    {
        keys_agree();
        take_out(&self.by_id, id, &mut self.schedules);
    }

    /// Deletes the schedule of an identifier, and gives it. Where there is none, nothing changes. It
    /// takes no memory.
    pub fn delete(&mut self, id: &Ident) -> Result<Schedule, UnknownSchedule>
        ensures found { MatchResult result
            (λ s. book.schedule_with self.old.schedules id.now ≡ Some s)
            (λ _. book.schedule_with self.old.schedules id.now ≡ None) }
        ensures deleted { OnOk result (self.new.schedules ≡ without_schedule id.now self.old.schedules) }
        ensures kept { OnErr result (self.new ≡ self.old) }
    {
        let Some(schedule) = self.schedule_with(id) else {
            return Err(UnknownSchedule);
        };
        self.remove(id);
        Ok(schedule)
    }
}
