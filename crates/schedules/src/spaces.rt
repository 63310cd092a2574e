ghost use Rattle.std.specs.Prelude.{◌≡◌, ◌≤◌, ◌-◌, [], ◌∷◌, ◌++◌, OnOk, Some, map, if◌then◌else◌};
ghost use Rattle.row_values.specs.Ids.{same};
ghost use Rattle.model.specs.Records as book;
ghost use Rattle.model.specs.Records.{ScheduledNamespace};
ghost use Rattle.model.specs.Schedules as rules;
ghost use Rattle.model.specs.Changed.{begin_scheduled, still_scheduled};
ghost use Rattle.model.specs.Lists.{set_last_of};

use crate::agree::keys_agree;
use crate::list::ScheduleList;
use crate::scheduled::ScheduledNamespace;
use crate::steps::{Completed, HasSchedule, Taken};
use hybrid_time::HybridTime;
use kept_records::{Kept, change, first, keep_all};
use newest_index::NewestIndex;
use row_values::NoMemory;
use std::alloc::Global;
use std::marker::Model;
use yb_ident::Ident;

/// The namespaces that have schedules, in the order in which they got their first. Contracts see the
/// book's list, and for how many more there is room.
#[derive(Drop)]
pub struct ScheduledNamespaces {
    scheduled: Vec<Kept<ScheduledNamespace>>,
    by_namespace: NewestIndex<Ident>,
    room: usize,
}

impl Model for ScheduledNamespaces {
    ghost use Rattle.std.specs.Prelude.{◌≤◌, ◌-◌, map, vec_len, vec_capacity};
    ghost use Rattle.indexmap.specs.IndexMap.{spare};
    ghost use Rattle.newest_index.specs.Newest.{Indexes};
    ghost use Rattle.kept_records.specs.Gathered.{present_of, kept_key};
    ghost use Rattle.schedules.specs.Seen.{ScheduledView, scheduled_space};

    ghost Value = { ScheduledView };

    ghost view = { λ l. record { scheduled = present_of l.scheduled.items; room = l.room } };

    ghost invariant = { λ l. record {
      by_namespace : Indexes ⟦<Ident as PartialEq>⟧.eq l.by_namespace.places l.by_namespace.earlier.items (map (kept_key scheduled_space) l.scheduled.items);
      list_room : l.room ≤ vec_capacity l.scheduled - vec_len l.scheduled;
      namespace_room : l.room ≤ spare l.by_namespace.places;
      namespace_links : l.room ≤ vec_capacity l.by_namespace.earlier - vec_len l.by_namespace.earlier;
    } };
}

impl ScheduledNamespaces {
    /// None. It takes no memory.
    pub fn new(alloc: Global) -> ScheduledNamespaces
        ensures empty { result ≡ record { scheduled = []; room = 0 } }
    {
        ScheduledNamespaces {
            scheduled: Vec::new(alloc),
            by_namespace: NewestIndex::new(alloc),
            room: 0,
        }
    }

    /// What is known of a namespace that has schedules. It takes no memory.
    pub fn scheduled_in(&self, namespace: &Ident) -> Option<ScheduledNamespace>
        ensures exact { result ≡ book.scheduled_in self.now.scheduled namespace.now }
    {
        keys_agree();
        first(&self.by_namespace, namespace, self.scheduled.as_slice())
    }

    /// The time of a namespace's snapshot before the next one. It takes no memory.
    pub fn after_in(&self, namespace: &Ident) -> HybridTime
        ensures exact { result ≡ rules.after_in self.now.scheduled namespace.now }
    {
        match self.scheduled_in(namespace) {
            Some(scheduled) => scheduled.after(),
            None => HybridTime { value: 0 },
        }
    }

    /// Makes room for one more.
    pub fn prepare(&mut self) -> Result<(), NoMemory>
        ensures scheduled { self.new.scheduled ≡ self.old.scheduled }
        ensures room { OnOk result (1 ≤ self.new.room) }
    {
        if self.room >= 1 {
            return Ok(());
        }
        self.scheduled.reserve(1)?;
        self.by_namespace.prepare_for(1)?;
        self.room = 1;
        Ok(())
    }

    // One more, in the room that was made.
    fn add(&mut self, scheduled: ScheduledNamespace)
        requires room { 1 ≤ self.old.room }
        ensures scheduled { self.new.scheduled ≡ self.old.scheduled ++ scheduled ∷ [] }
        ensures room { self.new.room ≡ self.old.room - 1 }
    {
        self.room -= 1;
        self.by_namespace.note(scheduled.namespace);
        self.scheduled
            .push(Kept {
                item: scheduled,
                present: true,
            })
            .unwrap();
    }

    /// A namespace is scheduled from a stamp on, unless it already is, in the room that was made.
    pub fn begin(&mut self, namespace: Ident, at: HybridTime)
        requires room { 1 ≤ self.old.room }
        ensures scheduled { self.new.scheduled ≡ begin_scheduled (book.scheduled_in self.old.scheduled namespace) namespace at self.old.scheduled }
        ensures room { self.old.room - 1 ≤ self.new.room }
    {
        if self.scheduled_in(&namespace).is_none() {
            self.add(ScheduledNamespace {
                namespace,
                since: at,
                last: None,
                complete: None,
            });
        }
    }

    /// The namespaces that have none of these schedules are no longer scheduled. It goes over all,
    /// and takes no memory.
    pub fn keep_scheduled(&mut self, schedules: &ScheduleList)
        ensures scheduled { self.new.scheduled ≡ still_scheduled schedules.now.schedules self.old.scheduled }
        ensures room { self.new.room ≡ self.old.room }
    {
        keep_all(&mut self.scheduled, &HasSchedule { schedules });
    }

    /// A snapshot of a namespace was taken at a stamp. It takes no memory.
    pub fn set_last(&mut self, namespace: &Ident, at: HybridTime)
        ensures scheduled { self.new.scheduled ≡ set_last_of namespace.now at self.old.scheduled }
        ensures room { self.new.room ≡ self.old.room }
    {
        keys_agree();
        change(
            &self.by_namespace,
            namespace,
            &mut self.scheduled,
            &Taken { at },
        );
    }

    /// A snapshot of a namespace, of this time, is complete. It takes no memory.
    pub fn set_complete(&mut self, namespace: &Ident, at: HybridTime)
        ensures scheduled { self.new.scheduled ≡ map {A = ScheduledNamespace} (λ k. record k { complete = if same k.namespace namespace.now then Some at else k.complete }) self.old.scheduled }
        ensures room { self.new.room ≡ self.old.room }
    {
        keys_agree();
        change(
            &self.by_namespace,
            namespace,
            &mut self.scheduled,
            &Completed { at },
        );
    }
}
