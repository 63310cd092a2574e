ghost use Rattle.std.specs.Prelude.{◌≡◌, ◌≤◌, ◌<◌, ◌^◌, ◌+◌, [], ◌∷◌, ◌++◌, map, length, replicate, get_or, option_map, Some, Err, IfOk, OnOk, OnErr};
ghost use Rattle.row_values.specs.Elements.{AllOf};
ghost use Rattle.model.specs.Drawn.{most_slots};
ghost use Rattle.model.specs.Entries.{touches, Asked, ActAsked};
ghost use Rattle.model.specs.History.{Legal, entry_of, replay};
ghost use Rattle.model.specs.Settling.{coordinated, event_of, settle};
ghost use Rattle.model.specs.Work.{next_act};
ghost use Rattle.model_runs.specs.Courses.{Course, LookFor, ShowEntries, WorkOff, ScriptAsked};
ghost use Rattle.model_runs.specs.Running.{begun, reading_for, with_event, performed, performed_all, taken, newest_reply, reply_line, course_text};
ghost use Rattle.model_runs.specs.HistoryTexts.{history_text};
ghost use Rattle.commands.specs.Seen.{ask_of};
ghost use Rattle.commands.specs.Scripts.{script_command_of};
ghost use Rattle.cluster_events.specs.SeenActs.{act_of};
ghost use Rattle.script_courses.specs.SeenCourses.{course_seen, follow_of, showing_of, work_seen};
ghost use Rattle.admin_words.specs.Growing.{Begins};
ghost use Rattle.script_runs.specs.declared.stop.Stop.TheVariants as stop;
ghost use Rattle.script_runs.specs.Runs.{run_at, entry_under, numbered, text_between, Came, Wrote, IsEntry, Ran, RanFull, RanInPart};
ghost use Rattle.script_runs.specs.Asking.{IsAskedCourse};
ghost use Rattle.script_runs.specs.Shown.{IsGrown, last_of};

use crate::lone::lone_slot;
use crate::shown::{reply_in, tell_entries, tell_line, tell_look_line, tell_work_line};
use crate::stop::Stop;
use admin_words::Text;
use cluster_core::{Answer, Cluster, History};
use cluster_events::{Act, Event};
use commands::{Ask, ScriptCommand};
use row_values::{NoMemory, Records};
use script_courses::{Course, Follow, Showing, Work, acts_after, columns_placed, course_of};
use std::alloc::Global;
use std::marker::Model;
use versions::VersionStore;

/// A script's run: the cluster, the script's reading, and how far the reading of each slot lags behind
/// it, in microseconds. Contracts see its state, in which the book's run is `run_at`.
#[derive(Drop)]
pub struct ScriptRun<V: VersionStore> {
    cluster: Cluster<V>,
    reading: u64,
    lags: Records<u64>,
}

impl<V: VersionStore> Model for ScriptRun<V> {
    ghost use Rattle.script_runs.specs.Runs.{RunState, IsRunning};

    ghost Value = { RunState };

    ghost view = { λ r. record { slots = r.cluster.slots; reading = r.reading; lags = r.lags; history = r.cluster.history } };

    ghost invariant = { λ r. IsRunning (record { slots = r.cluster.slots; reading = r.reading; lags = r.lags; history = r.cluster.history }) };
}

/// No slot's reading lags, the master's among them.
fn no_lags(alloc: Global, slots: u32) -> Result<Records<u64>, NoMemory>
    ensures exact { IfOk result (λ lags. lags ≡ replicate (slots + 1) 0) }
{
    let lags = vec![in alloc; 0u64; slots as usize + 1]?;
    Ok(Records::from_vec(lags))
}

impl<V: VersionStore> ScriptRun<V> {
    /// Before the first command: an empty cluster with this count of slots for tablets, at the reading 0.
    pub fn begin(alloc: Global, slots: u32) -> Result<ScriptRun<V>, NoMemory>
        requires few { slots ≤ most_slots }
        ensures slots { IfOk result (λ run. run.slots ≡ slots) }
        ensures begun { IfOk result (λ run. run_at run [] 0 ≡ begun) }
    {
        let cluster = Cluster::new(alloc, slots)?;
        let lags = no_lags(alloc, slots)?;
        Ok(ScriptRun {
            cluster,
            reading: 0,
            lags,
        })
    }

    /// Does the command of a line, and puts what the line writes at the end of a text. Where it stops the
    /// cluster has what was performed of it, and a part of the line may stand behind the text.
    pub fn perform(
        &mut self,
        line: u64,
        command: ScriptCommand,
        text: &mut Text,
    ) -> Result<(), Stop>
        requires asked { ScriptAsked self.old.slots (script_command_of command) }
        ensures slots { self.new.slots ≡ self.old.slots }
        ensures ran { OnOk result (Ran (numbered line (script_command_of command)) self.old self.new) }
        ensures text { OnOk result (text.new ≡ text.old ++ text_between (numbered line (script_command_of command)) self.old self.new) }
        ensures full { result ≡ Err stop.Full → RanFull (numbered line (script_command_of command)) self.old self.new }
        ensures part { OnErr result (RanInPart (numbered line (script_command_of command)) self.old self.new) }
        ensures begins { OnErr result (Begins text.old text.new) }
    {
        let alloc = self.lags.allocator();
        let course = course_of(alloc, self.reading, command)?;
        self.take(line, course, text)
    }

    /// The history alone.
    pub fn into_history(self) -> History<V>
        ensures history { result ≡ self.history }
        ensures legal { Legal self.slots self.history }
    {
        let ScriptRun {
            cluster,
            reading: _,
            lags: _,
        } = self;
        cluster.into_history()
    }

    /// Takes a course.
    fn take(&mut self, line: u64, course: Course, text: &mut Text) -> Result<(), Stop>
        requires course { IsAskedCourse self.old.slots self.old.reading (course_seen self.old.reading course) }
        ensures slots { self.new.slots ≡ self.old.slots }
        ensures came { Came result (taken self.old.slots (course_seen self.old.reading course)) self.old self.new }
        ensures wrote { Wrote result text.old text.new (course_text (course_seen self.old.reading course) line self.old.history self.new.history) }
    {
        match course {
            Course::SetReading { micros } => {
                self.reading = micros;
                Ok(())
            }
            Course::SetLag { slot, micros } => {
                self.lags.set(slot as usize, micros);
                Ok(())
            }
            Course::Perform { act } => self.tell(line, act, text),
            Course::LookFor {
                ask,
                follow,
                showing,
            } => self.look(line, ask, follow, showing, text),
            Course::WorkOff { work } => self.work_off(line, work, text),
            Course::ShowEntries => self.show_entries(text),
        }
    }

    /// Tells every entry so far.
    fn show_entries(&self, text: &mut Text) -> Result<(), Stop>
        ensures came { Came result (taken self.now.slots ShowEntries) self.now self.now }
        ensures wrote { Wrote result text.old text.new (history_text self.now.history) }
    {
        let entries = self.cluster.entries()?;
        tell_entries(text, &entries)?;
        Ok(())
    }

    /// Performs an act, and tells its reply.
    fn tell(&mut self, line: u64, act: Act, text: &mut Text) -> Result<(), Stop>
        requires asked { ActAsked self.old.slots (act_of act) }
        ensures slots { self.new.slots ≡ self.old.slots }
        ensures came { Came result (performed self.old.slots (act_of act)) self.old self.new }
        ensures wrote { Wrote result text.old text.new (reply_line line (newest_reply self.new.history)) }
    {
        let answer = self.perform_act(act)?;
        tell_line(text, line, &answer)?;
        Ok(())
    }

    /// Looks, performs the acts that follow what was found, and tells what came of it.
    fn look(
        &mut self,
        line: u64,
        ask: Ask,
        follow: Follow,
        showing: Showing,
        text: &mut Text,
    ) -> Result<(), Stop>
        requires course { IsAskedCourse self.old.slots self.old.reading (LookFor (ask_of ask) (follow_of follow) (showing_of showing)) }
        ensures slots { self.new.slots ≡ self.old.slots }
        ensures came { Came result (taken self.old.slots (LookFor (ask_of ask) (follow_of follow) (showing_of showing))) self.old self.new }
        ensures wrote { Wrote result text.old text.new (course_text (LookFor (ask_of ask) (follow_of follow) (showing_of showing)) line self.old.history self.new.history) }
    {
        let alloc = self.lags.allocator();
        let look = self.perform_act(Act::Look(ask))?;
        let acts = acts_after(alloc, follow, reply_in(&look))?;
        let count = acts.len() as u64;
        let newest = self.perform_all(acts)?;
        let columns = columns_placed(reply_in(&look));
        tell_look_line(text, line, showing, columns, last_of(&newest, &look), count)?;
        Ok(())
    }

    /// Performs acts of a coordinator, and tells how many these were.
    fn work_off(&mut self, line: u64, work: Work, text: &mut Text) -> Result<(), Stop>
        ensures slots { self.new.slots ≡ self.old.slots }
        ensures came { Came result (taken self.old.slots (WorkOff (work_seen self.old.reading work))) self.old self.new }
        ensures wrote { Wrote result text.old text.new (course_text (WorkOff (work_seen self.old.reading work)) line self.old.history self.new.history) }
    {
        let before = self.len();
        self.perform_work(work)?;
        tell_work_line(text, line, self.len() - before)?;
        Ok(())
    }

    /// Performs acts of a coordinator, under the script's reading.
    fn perform_work(&mut self, work: Work) -> Result<(), Stop>
        ensures slots { self.new.slots ≡ self.old.slots }
        ensures came { Came result (taken self.old.slots (WorkOff (work_seen self.old.reading work))) self.old self.new }
        ensures later { length self.old.history ≤ length self.new.history }
    {
        match work {
            Work::Coordinate { count } => self.coordinate(count),
            Work::Settle => self.settle(),
        }
    }

    /// Performs the acts that come next, at most so many.
    fn coordinate(&mut self, most: u64) -> Result<(), Stop>
        ensures slots { self.new.slots ≡ self.old.slots }
        ensures came { Came result (taken self.old.slots (WorkOff (coordinated most self.old.reading))) self.old self.new }
        ensures later { length self.old.history ≤ length self.new.history }
    {
        let mut left = most;
        'acts: while left > 0 {
            let Some(act) = self.next_act() else {
                return Ok(());
            };
            self.perform_next(act)?;
            left -= 1;
        }
        Ok(())
    }

    /// Performs the acts that come next, until none comes.
    fn settle(&mut self) -> Result<(), Stop>
        ensures slots { self.new.slots ≡ self.old.slots }
        ensures came { Came result (taken self.old.slots (WorkOff (settle self.old.reading))) self.old self.new }
        ensures later { length self.old.history ≤ length self.new.history }
    {
        self.is_legal();
        'acts: while let Some(act) = self.next_act() {
            self.perform_next(act)?;
        }
        Ok(())
    }

    /// What a coordinator does next.
    fn next_act(&self) -> Option<Act>
        ensures exact { option_map act_of result ≡ next_act (replay self.now.slots self.now.history) }
        ensures legal { Legal self.now.slots self.now.history }
    {
        self.cluster.next_act()
    }

    /// Performs the act that comes next. No lag matters to a coordinator.
    fn perform_next(&mut self, act: Act) -> Result<(), Stop>
        requires next { next_act (replay self.old.slots self.old.history) ≡ Some (act_of act) }
        ensures slots { self.new.slots ≡ self.old.slots }
        ensures reading { self.new.reading ≡ self.old.reading }
        ensures came { Came result (with_event self.old.slots (event_of self.old.reading (act_of act))) self.old self.new }
        ensures kept { OnErr result (self.new ≡ self.old) }
        ensures entry { OnOk result (self.new.history ≡ entry_of self.old.slots (event_of self.old.reading (act_of act)) self.old.history ∷ self.old.history) }
    {
        let event = Event {
            caller: 0,
            reading: self.reading,
            act,
        };
        self.step(event)?;
        Ok(())
    }

    /// That the history is legal. It does nothing.
    fn is_legal(&self)
        ensures legal { Legal self.now.slots self.now.history }
    {
        self.cluster.is_past();
    }

    /// The number of entries.
    fn len(&self) -> u64
        ensures count { result ≡ length self.now.history }
    {
        self.cluster.len()
    }

    /// Performs acts, one after the other, and gives the newest answer.
    fn perform_all(&mut self, acts: Vec<Act>) -> Result<Option<Answer>, Stop>
        requires asked { AllOf (ActAsked self.old.slots) (map act_of acts.items) }
        ensures slots { self.new.slots ≡ self.old.slots }
        ensures came { Came result (performed_all self.old.slots (map act_of acts.items)) self.old self.new }
        ensures grown { IfOk result (λ newest. IsGrown newest (length acts.items) self.old.history self.new.history) }
    {
        let mut newest = None;
        for act in acts {
            newest = Some(self.perform_act(act)?);
        }
        Ok(newest)
    }

    /// Performs one act. Where it stops, nothing has changed.
    fn perform_act(&mut self, act: Act) -> Result<Answer, Stop>
        requires asked { ActAsked self.old.slots (act_of act) }
        ensures slots { self.new.slots ≡ self.old.slots }
        ensures came { Came result (performed self.old.slots (act_of act)) self.old self.new }
        ensures kept { OnErr result (self.new ≡ self.old) }
        ensures entry { IfOk result (IsEntry (entry_under (act_of act) self.old) self.old self.new) }
        ensures legal { Legal self.new.slots self.new.history }
    {
        let reading = self.reading_for(&act);
        self.step(Event {
            caller: 0,
            reading,
            act,
        })
    }

    /// Performs an event. Where it stops, nothing has changed.
    fn step(&mut self, event: Event) -> Result<Answer, Stop>
        requires asked { Asked self.old.slots event }
        ensures slots { self.new.slots ≡ self.old.slots }
        ensures reading { self.new.reading ≡ self.old.reading }
        ensures came { Came result (with_event self.old.slots event) self.old self.new }
        ensures kept { OnErr result (self.new ≡ self.old) }
        ensures entry { IfOk result (IsEntry (entry_of self.old.slots event self.old.history) self.old self.new) }
        ensures legal { Legal self.new.slots self.new.history }
    {
        let answer = self.cluster.step(event)?;
        Ok(answer)
    }

    /// How far the readings of a slot lag behind the script's.
    fn lag(&self, slot: u32) -> u64
        ensures lag { result ≡ get_or self.now.lags slot 0 }
    {
        match self.lags.get(slot as u64) {
            Some(lag) => *lag,
            None => 0,
        }
    }

    /// The reading of an act's event: where it touches one slot alone, that slot's lag comes off.
    fn reading_for(&self, act: &Act) -> u64
        ensures reading { result ≡ reading_for (touches (act_of act.now)) (run_at self.now [] 0) }
        ensures bound { result < 2 ^ 50 }
    {
        match lone_slot(act) {
            Some(slot) => self.reading.saturating_sub(self.lag(slot)),
            None => self.reading,
        }
    }
}

/// The newest answer, or that of the look where no act followed.
fn last_of<'a>(newest: &'a Option<Answer>, look: &'a Answer) -> &'a Answer
    ensures answer { result.now ≡ last_of newest.now look.now }
{
    match newest {
        Some(answer) => answer,
        None => look,
    }
}
