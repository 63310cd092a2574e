ghost use Rattle.std.specs.Prelude.{◌≡◌, ◌++◌, codes, OnOk, OnErr};
ghost use Rattle.std.specs.Fmt.{decimal};
ghost use Rattle.row_values.specs.Ids.{id_text};
ghost use Rattle.model_runs.specs.Texts.{word, state_text, point_word, end_word, schedule_text, snapshot_text, restoration_text, clone_text, tablet_text, id_word, number_word, range_word, slots_word};
ghost use Rattle.cluster_events.specs.SeenStates.{state_of};
ghost use Rattle.admin_words.specs.Growing.{Begins};

use crate::text::Text;
use crate::told::Told;
use cluster_events::{
    At, CloneLine, Removal, RestorationLine, ScheduleLine, SnapshotLine, State, TabletLine,
    TabletPlace,
};
use hybrid_time::HybridTime;
use row_values::{Name, NoMemory};
use yb_ident::Ident;

#[tactic(auto, using(std::proofs::lemmas::List::append_assoc))]
impl Text {
    /// A state, in capitals.
    pub fn state(&mut self, state: State) -> Result<(), NoMemory>
        ensures added { OnOk result (self.new ≡ self.old ++ state_text (state_of state)) }
        ensures kept { OnErr result (Begins self.old self.new) }
    {
        match state {
            State::Creating => self.add(b"CREATING"),
            State::Complete => self.add(b"COMPLETE"),
            State::Fencing => self.add(b"FENCING"),
            State::Snapshot => self.add(b"SNAPSHOT"),
            State::Switching => self.add(b"SWITCHING"),
            State::Restoring => self.add(b"RESTORING"),
            State::Releasing => self.add(b"RELEASING"),
            State::Restored => self.add(b"RESTORED"),
            State::Accepted => self.add(b"ACCEPTED"),
            State::Copying => self.add(b"COPYING"),
        }
    }

    /// A state behind a space.
    pub fn state_word(&mut self, state: State) -> Result<(), NoMemory>
        ensures added { OnOk result (self.new ≡ self.old ++ word (state_text (state_of state))) }
        ensures kept { OnErr result (Begins self.old self.new) }
    {
        self.add(b" ")?;
        self.state(state)
    }

    // A record's identifier, that of its schedule, and its state.
    fn record(&mut self, id: Ident, schedule: Ident, state: State) -> Result<(), NoMemory>
        ensures added { OnOk result (self.new ≡ self.old ++ (id_text id ++ id_word schedule ++ word (state_text (state_of state)))) }
        ensures kept { OnErr result (Begins self.old self.new) }
    {
        self.id(id)?;
        self.id_word(schedule)?;
        self.state_word(state)
    }

    // The line of a schedule, without the low end of its window.
    fn periods(
        &mut self,
        id: Ident,
        namespace: &Name,
        interval: u64,
        retention: u64,
    ) -> Result<(), NoMemory>
        ensures added { OnOk result (self.new ≡ self.old ++ (id_text id ++ word namespace.now ++ codes " interval" ++ number_word interval ++ codes " retention" ++ number_word retention)) }
        ensures kept { OnErr result (Begins self.old self.new) }
    {
        self.id(id)?;
        self.word(namespace.as_slice())?;
        self.add(b" interval")?;
        self.number_word(interval)?;
        self.add(b" retention")?;
        self.number_word(retention)
    }

    // The line of a schedule.
    fn schedule(
        &mut self,
        id: Ident,
        namespace: &Name,
        interval: u64,
        retention: u64,
        low: HybridTime,
    ) -> Result<(), NoMemory>
        ensures added { OnOk result (self.new ≡ self.old ++ schedule_text (record { id = id; namespace = namespace.now; interval = interval; retention = retention; low = low })) }
        ensures kept { OnErr result (Begins self.old self.new) }
    {
        self.periods(id, namespace, interval, retention)?;
        self.add(b" low")?;
        self.time_word(low)
    }

    // The line of a snapshot.
    fn snapshot(
        &mut self,
        id: Ident,
        schedule: Ident,
        state: State,
        after: HybridTime,
        at: HybridTime,
    ) -> Result<(), NoMemory>
        ensures added { OnOk result (self.new ≡ self.old ++ snapshot_text (record { id = id; schedule = schedule; state = state_of state; after = after; at = at })) }
        ensures kept { OnErr result (Begins self.old self.new) }
    {
        self.record(id, schedule, state)?;
        self.add(b" after")?;
        self.time_word(after)?;
        self.add(b" at")?;
        self.time_word(at)
    }

    // The line of a restoration.
    fn restoration(
        &mut self,
        id: Ident,
        schedule: Ident,
        state: State,
        to: HybridTime,
        point: Option<HybridTime>,
    ) -> Result<(), NoMemory>
        ensures added { OnOk result (self.new ≡ self.old ++ restoration_text (record { id = id; schedule = schedule; state = state_of state; to = to; point = point })) }
        ensures kept { OnErr result (Begins self.old self.new) }
    {
        self.record(id, schedule, state)?;
        self.add(b" to")?;
        self.time_word(to)?;
        self.add(b" at")?;
        self.point_word(point)
    }

    // The line of a clone.
    fn clone_line(
        &mut self,
        id: Ident,
        source: &Name,
        target: &Name,
        state: State,
        to: HybridTime,
    ) -> Result<(), NoMemory>
        ensures added { OnOk result (self.new ≡ self.old ++ clone_text (record { id = id; source = source.now; target = target.now; state = state_of state; to = to })) }
        ensures kept { OnErr result (Begins self.old self.new) }
    {
        self.id(id)?;
        self.word(source.as_slice())?;
        self.word(target.as_slice())?;
        self.state_word(state)?;
        self.of_time(b" to", to)
    }

    // The line of a tablet, without its end.
    fn tablet(
        &mut self,
        tablet: Ident,
        table: Ident,
        slot: u32,
        low: u32,
        high: u32,
    ) -> Result<(), NoMemory>
        ensures added { OnOk result (self.new ≡ self.old ++ (id_text tablet ++ id_word table ++ codes " slot" ++ number_word slot ++ range_word low high)) }
        ensures kept { OnErr result (Begins self.old self.new) }
    {
        self.id(tablet)?;
        self.id_word(table)?;
        self.of_number(b" slot", slot)?;
        self.range_word(low, high)
    }

    // A place and its range.
    fn place(&mut self, slot: u32, tablet: Ident, low: u32, high: u32) -> Result<(), NoMemory>
        ensures added { OnOk result (self.new ≡ self.old ++ (decimal slot ++ id_word tablet ++ range_word low high)) }
        ensures kept { OnErr result (Begins self.old self.new) }
    {
        self.number(slot)?;
        self.id_word(tablet)?;
        self.range_word(low, high)
    }

    // A time behind a space, or ` -` where there is none yet.
    fn point_word(&mut self, point: Option<HybridTime>) -> Result<(), NoMemory>
        ensures added { OnOk result (self.new ≡ self.old ++ point_word point) }
        ensures kept { OnErr result (Begins self.old self.new) }
    {
        match point {
            None => self.add(b" -"),
            Some(point) => self.time_word(point),
        }
    }

    // Whether a tablet is active, or since when it is hidden.
    fn end_word(&mut self, ended: Option<HybridTime>) -> Result<(), NoMemory>
        ensures added { OnOk result (self.new ≡ self.old ++ end_word ended) }
        ensures kept { OnErr result (Begins self.old self.new) }
    {
        match ended {
            None => self.add(b" active"),
            Some(ended) => {
                self.add(b" hidden")?;
                self.time_word(ended)
            }
        }
    }
}

#[tactic(auto, using(std::proofs::lemmas::List::append_assoc))]
impl Told for ScheduleLine {
    ghost told = { schedule_text };

    fn tell(&self, text: &mut Text) -> Result<(), NoMemory> {
        text.schedule(
            self.id,
            &self.namespace,
            self.interval,
            self.retention,
            self.low,
        )
    }
}

#[tactic(auto, using(std::proofs::lemmas::List::append_assoc))]
impl Told for SnapshotLine {
    ghost told = { snapshot_text };

    fn tell(&self, text: &mut Text) -> Result<(), NoMemory> {
        text.snapshot(self.id, self.schedule, self.state, self.after, self.at)
    }
}

#[tactic(auto, using(std::proofs::lemmas::List::append_assoc))]
impl Told for RestorationLine {
    ghost told = { restoration_text };

    fn tell(&self, text: &mut Text) -> Result<(), NoMemory> {
        text.restoration(self.id, self.schedule, self.state, self.to, self.point)
    }
}

#[tactic(auto, using(std::proofs::lemmas::List::append_assoc))]
impl Told for CloneLine {
    ghost told = { clone_text };

    fn tell(&self, text: &mut Text) -> Result<(), NoMemory> {
        text.clone_line(self.id, &self.source, &self.target, self.state, self.to)
    }
}

#[tactic(auto, using(std::proofs::lemmas::List::append_assoc))]
impl Told for TabletLine {
    ghost told = { tablet_text };

    fn tell(&self, text: &mut Text) -> Result<(), NoMemory> {
        text.tablet(
            self.tablet,
            self.table,
            self.slot,
            self.range.low,
            self.range.high,
        )?;
        text.end_word(self.ended)
    }
}

#[tactic(auto, using(std::proofs::lemmas::List::append_assoc))]
impl Told for Removal {
    ghost told = { λ r. id_text r.target ++ slots_word r.slots };

    fn tell(&self, text: &mut Text) -> Result<(), NoMemory> {
        text.id(self.target)?;
        text.slots_word(self.slots.as_slice())
    }
}

#[tactic(auto, using(std::proofs::lemmas::List::append_assoc))]
impl Told for TabletPlace {
    ghost told = { λ p. decimal p.slot ++ id_word p.tablet ++ range_word p.low p.high };

    fn tell(&self, text: &mut Text) -> Result<(), NoMemory> {
        text.place(self.slot, self.tablet, self.range.low, self.range.high)
    }
}

#[tactic(auto, using(std::proofs::lemmas::List::append_assoc))]
impl Told for At {
    ghost told = { λ p. decimal p.slot ++ codes "/" ++ id_text p.tablet };

    fn tell(&self, text: &mut Text) -> Result<(), NoMemory> {
        text.number(self.slot)?;
        text.add(b"/")?;
        text.id(self.tablet)
    }
}
