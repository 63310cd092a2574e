ghost use Rattle.std.specs.Prelude.{◌≡◌, ◌∷◌, [], ◌≤◌, length, reverse, None, option_map, IfOk, IfErr, OnOk, OnErr};
ghost use Rattle.model.specs.Entries.{Asked};
ghost use Rattle.model.specs.Drawn.{most_slots};
ghost use Rattle.model.specs.History.{Legal, entry_of, replay, journal_of, activity_of};
ghost use Rattle.model.specs.Replies.{Right};
ghost use Rattle.model.specs.Work.{next_act};
ghost use Rattle.model.specs.Stands.{Divides, RecordFacts, Stands};
ghost use Rattle.step_table.specs.Histories.{history_of};
ghost use Rattle.machine_laws.specs.Laid.{parts_of};
ghost use Rattle.machine_laws.specs.Faults.{fault_after};
ghost use Rattle.machine_laws.specs.Past.{IsPast, book};
ghost use Rattle.machine_laws.specs.Core.{core_of};
ghost use Rattle.cluster_events.specs.SeenActs.{act_of};
ghost use Rattle.cluster_core.specs.Causes.{RefusedBy};
ghost use Rattle.cluster_core.specs.Coding.{coding};

use crate::answer::Answer;
use crate::entries::Entries;
use crate::fault::StepRefused;
use crate::history::History;
use crate::machine::ClusterMachine;
use crate::next_acts::next_in;
use crate::start::first_line;
use cluster_events::{Act, Event};
use law::legal_is_right;
use row_values::NoMemory;
use std::alloc::Global;
use std::marker::Model;
use step_line::Line;
use versions::VersionStore;

/// The parts of a cluster, and the history that their logs hold. Contracts see the history, with the
/// newest entry first, and the parts that it left.
#[derive(Drop)]
pub struct Cluster<V: VersionStore> {
    line: Line<ClusterMachine<V>>,
    slots: u32,
}

impl<V: VersionStore> Model for Cluster<V> {
    ghost use Rattle.step_table.specs.Histories.{history_of};
    ghost use Rattle.machine_laws.specs.Past.{IsPast, book};
    ghost use Rattle.machine_laws.specs.Core.{core_of};
    ghost use Rattle.cluster_core.specs.Coding.{coding};
    ghost use Rattle.cluster_core.specs.Views.{ClusterView};

    ghost Value = { ClusterView };

    ghost view = { λ c. record { slots = c.slots; history = book (history_of (core_of coding) c.line.parts); parts = c.line.parts } };

    ghost invariant = { λ c. IsPast c.slots (book (history_of (core_of coding) c.line.parts)) c.line.parts };
}

impl<V: VersionStore> Cluster<V> {
    /// The empty cluster with this count of slots for tablets, at most 1,024.
    pub fn new(alloc: Global, slots: u32) -> Result<Cluster<V>, NoMemory>
        requires few { slots ≤ most_slots }
        ensures slots { IfOk result (λ c. c.slots ≡ slots) }
        ensures empty { IfOk result (λ c. c.history ≡ []) }
        ensures parts { IfOk result (λ c. parts_of c.parts ≡ replay slots []) }
    {
        let line = first_line(alloc, slots)?;
        Ok(Cluster { line, slots })
    }

    /// Performs an event: the history has one entry more, which is the book's, and stays legal; the parts
    /// are its replay. Where it is not performed, the history and the parts are as they were. A legal
    /// history is right: each reply has its cause in the journal, for which the parts and their records
    /// stand, and the ranges of a table's tablets cover the codes, none twice.
    pub fn step(&mut self, event: Event) -> Result<Answer, StepRefused>
        requires asked { Asked self.old.slots event }
        ensures slots { self.new.slots ≡ self.old.slots }
        ensures entry { OnOk result (self.new.history ≡ entry_of self.old.slots event self.old.history ∷ self.old.history) }
        ensures stamp { IfOk result (λ answer. answer.stamp ≡ (entry_of self.old.slots event self.old.history).stamp) }
        ensures reply { IfOk result (λ answer. answer.reply ≡ (entry_of self.old.slots event self.old.history).reply) }
        ensures no_fault { OnOk result (fault_after self.old.slots event self.old.history ≡ None) }
        ensures cause { IfErr result (λ why. RefusedBy (fault_after self.old.slots event self.old.history) why) }
        ensures kept { OnErr result (self.new.history ≡ self.old.history) }
        ensures same { OnErr result (self.new.parts ≡ self.old.parts) }
        ensures legal { Legal self.new.slots self.new.history }
        ensures parts { parts_of self.new.parts ≡ replay self.new.slots self.new.history }
        ensures right { Right self.new.slots self.new.history }
        ensures stands { Stands (parts_of self.new.parts) (journal_of self.new.slots self.new.history) }
        ensures facts { RecordFacts (parts_of self.new.parts) (journal_of self.new.slots self.new.history) }
        ensures cover { Divides (activity_of self.new.slots self.new.history) (journal_of self.new.slots self.new.history) }
    {
        legal_is_right();
        step_in(&mut self.line, self.slots, event)
    }

    /// The act of a coordinator's next event, as the master and the inboxes tell it: the first unfinished
    /// operation that no snapshot holds up goes on. `None` where nothing is to be done. It takes no memory.
    pub fn next_act(&self) -> Option<Act>
        ensures exact { option_map act_of result ≡ next_act (replay self.now.slots self.now.history) }
    {
        next_in(&self.line)
    }

    /// The number of entries.
    pub fn len(&self) -> u64
        ensures count { result ≡ length self.now.history }
    {
        self.line.len()
    }

    /// The history in order of number. It takes memory for a place an entry.
    pub fn entries(&self) -> Result<Entries<'_>, NoMemory>
        ensures exact { IfOk result (λ entries. entries ≡ reverse self.now.history) }
    {
        Entries::of(&self.line)
    }

    /// The history alone.
    pub fn into_history(self) -> History<V>
        ensures same { result ≡ self.history }
    {
        let Cluster { line, slots: _ } = self;
        History::of(line)
    }

    /// That the history is legal, and the parts are its replay. It does nothing.
    pub fn is_past(&self)
        ensures legal { Legal self.now.slots self.now.history }
        ensures parts { parts_of self.now.parts ≡ replay self.now.slots self.now.history }
    {
        let _ = &self.slots;
    }
}

/// One step, over the line of a past.
fn step_in<V: VersionStore>(
    line: &mut Line<ClusterMachine<V>>,
    slots: u32,
    event: Event,
) -> Result<Answer, StepRefused>
    requires past { IsPast slots (book (history_of (core_of coding) line.old.parts)) line.old.parts }
    requires asked { Asked slots event }
    ensures past { IsPast slots (book (history_of (core_of coding) line.new.parts)) line.new.parts }
    ensures entry { OnOk result (book (history_of (core_of coding) line.new.parts) ≡ entry_of slots event (book (history_of (core_of coding) line.old.parts)) ∷ book (history_of (core_of coding) line.old.parts)) }
    ensures stamp { IfOk result (λ answer. answer.stamp ≡ (entry_of slots event (book (history_of (core_of coding) line.old.parts))).stamp) }
    ensures reply { IfOk result (λ answer. answer.reply ≡ (entry_of slots event (book (history_of (core_of coding) line.old.parts))).reply) }
    ensures no_fault { OnOk result (fault_after slots event (book (history_of (core_of coding) line.old.parts)) ≡ None) }
    ensures same { OnErr result (line.new.parts ≡ line.old.parts) }
    ensures cause { IfErr result (λ why. RefusedBy (fault_after slots event (book (history_of (core_of coding) line.old.parts))) why) }
{
    match line.perform(event) {
        Ok(answer) => Ok(answer),
        Err(why) => Err(why),
    }
}
