//! The table and its passes.
ghost use Rattle.std.specs.Prelude.{◌≡◌, ◌+◌, ◌<◌, ◌≤◌, ◌^◌, ◌++◌, ◌∷◌, [], map, length, Some, IfOk, IfErr, IsOk, OnOk, OnErr, ℕ};
ghost use mathlib.Core.List.{IsPrefix};
ghost use Rattle.step_table.specs.Lists.{Every};
ghost use Rattle.step_table.specs.Machines.{leaves, IsRight};
ghost use Rattle.step_table.specs.Histories.{history_of, merged, IsNumbered, IsAtNumber, Follows};
ghost use Rattle.step_table.specs.Passes.{first_pass, rest_of, share_of, EntryAdded, Refuses};
ghost use Rattle.step_table.specs.Tries.{FoundBy, OthersShare, TouchedBy, TryRefuses};

use crate::known::Known;
use crate::machine::{Machine, MachineRule};
use crate::perform::{perform_as, try_perform_as};
use crate::refused::TryRefused;
use crate::rows::{empty, fill, nones, unload, words_of};
use crate::steps::{Place, cut, glue};
use atomic_table::{Refused, Table};
use row_values::{NoMemory, Records};
use std::alloc::Global;
use std::marker::{Brand, Model};
use std::snapshot::Snapshot;
use std::sync::Wait;

/// A table of locks over the parts of a machine. Contracts see it as which table it is, and as what
/// the parts meant that it was made over. Where it is dropped, the parts are lost.
#[derive(Drop)]
pub struct StepTable<M: Machine> {
    table: Table<
        Option<M::Part>,
        Known<M::Part, M::Event, M::Reply>,
        Snapshot<Records<M::Part>>,
        MachineRule<M>,
        Global,
    >,
    // The room of the given list, so that `close` takes no memory.
    room: Vec<M::Part>,
}

impl<M: Machine> Model for StepTable<M> {
    ghost use Rattle.std.specs.Prelude.{◌≡◌, ◌<◌, ◌≤◌, ◌^◌, suc, [], map, length, vec_capacity};
    ghost use Rattle.step_table.specs.Passes.{TableView};

    ghost Value = { TableView M.Part };

    ghost view = { λ t. record { id = t.table.shared.table_id; given = map M.core.meaning t.table.shared.key.value } };

    ghost invariant = { λ t. (t.table.shared.table_id.words ≡ suc t.table.shared.table_id.slots) × (t.table.shared.table_id.slots ≡ length t.table.shared.key.value) × (t.table.shared.table_id.slots < 2 ^ 32) × (t.room.items ≡ []) × (t.table.shared.table_id.slots ≤ vec_capacity t.room) };
}

/// What a thread performs events with. It has no more bytes than its number of shares.
#[derive(Drop)]
pub struct Pass<M: Machine> {
    seat: Place<M>,
    shares: u32,
}

impl<M: Machine> Model for Pass<M> {
    ghost use Rattle.std.specs.Prelude.{◌≡◌, ◌≢◌, ◌≤◌, []};
    ghost use Rattle.step_table.specs.Passes.{PassView, told};
    ghost use Rattle.step_table.specs.Plays.{Knows};

    ghost Value = { PassView M.Part M.Event M.Reply };

    ghost view = { λ p. told M.core p.seat.table_id p.seat.me.0 };

    ghost invariant = { λ p. (p.seat.me.0.shares ≡ p.shares) × (p.shares ≢ 0) × (p.shares ≤ 4096) × (p.seat.me.0.held ≡ []) × (p.seat.me.1 ≡ []) × Knows M.core p.seat.me.0 };
}

impl<M: Machine> StepTable<M> {
    /// A table over these parts, and the pass with all 4,096 shares. For want of memory the parts
    /// come back.
    pub fn new(parts: Records<M::Part>) -> Result<(StepTable<M>, Pass<M>), Records<M::Part>>
        requires legal { M.core.Legal (map M.core.meaning parts) }
        requires numbered { IsNumbered 1 (history_of M.core (map M.core.meaning parts)) }
        ensures over_the_parts { IfOk result (λ made. made.0.given ≡ map M.core.meaning parts) }
        ensures all_shares { IfOk result (λ made. made.1 ≡ first_pass M.core made.0) }
        ensures parts_back { IfErr result (λ back. back ≡ parts) }
    {
        let alloc = parts.allocator();
        let about = Snapshot::of(&parts);
        let Ok(words) = words_of::<M>(alloc, parts.as_slice()) else {
            return Err(parts);
        };
        let Ok(mut slots) = nones(alloc, words.len() - 1) else {
            return Err(parts);
        };
        let mut room = parts.into_vec();
        fill(&mut room, &mut slots);
        match Table::new(alloc, words.as_slice(), slots, &about) {
            Ok((table, seat)) => {
                let pass = Pass { seat, shares: 4096 };
                let made = StepTable { table, room };
                Ok((made, pass))
            }
            Err(Refused { slots }) => {
                empty(slots, &mut room);
                Err(Records::from_vec(room))
            }
        }
    }

    /// Performs an event. It may wait for the lock of a slot that the event touches.
    pub fn perform<R: Wait>(
        &self,
        rt: &R,
        pass: &mut Pass<M>,
        event: M::Event,
    ) -> Result<M::Reply, M::Refused>
        requires own_pass { pass.old.table ≡ self.now.id }
        requires event { M.core.May (length self.now.given) event }
        ensures same_table { pass.new.table ≡ pass.old.table }
        ensures same_given { pass.new.given ≡ pass.old.given }
        ensures same_shares { pass.new.shares ≡ pass.old.shares }
        ensures same_splits { pass.new.splits ≡ pass.old.splits }
        ensures findings_grow { IsPrefix pass.old.findings pass.new.findings }
        ensures entry_added { IfOk result (λ reply. EntryAdded event reply pass.old pass.new) }
        ensures no_entry { OnErr result (pass.new.made ≡ pass.old.made) }
        ensures seen_grows { OnErr result (IsPrefix pass.old.seen pass.new.seen) }
        ensures refused_on_what_was_seen { IfErr result (λ refused. Refuses M.core event refused pass.new) }
        ensures right_history { Follows M.core pass.new.given pass.new.seen }
        ensures entries_at_their_numbers { Every (IsAtNumber pass.new.seen) pass.new.made }
    {
        let alloc = *self.room.allocator();
        let seat = &mut pass.seat;
        perform_as::<M, Brand, R>(rt, alloc, &self.table.shared, seat, event)
    }

    /// Performs an event, if no lock of a slot that it touches is found taken. It waits for nobody.
    pub fn try_perform(
        &self,
        pass: &mut Pass<M>,
        event: M::Event,
    ) -> Result<M::Reply, TryRefused<M::Refused>>
        requires own_pass { pass.old.table ≡ self.now.id }
        requires event { M.core.May (length self.now.given) event }
        ensures same_table { pass.new.table ≡ pass.old.table }
        ensures same_given { pass.new.given ≡ pass.old.given }
        ensures same_shares { pass.new.shares ≡ pass.old.shares }
        ensures same_splits { pass.new.splits ≡ pass.old.splits }
        ensures entry_added { IfOk result (λ reply. EntryAdded event reply pass.old pass.new) }
        ensures found_none { OnOk result (pass.new.findings ≡ pass.old.findings) }
        ensures no_entry { OnErr result (pass.new.made ≡ pass.old.made) }
        ensures seen_grows { OnErr result (IsPrefix pass.old.seen pass.new.seen) }
        ensures taken_is_found { IfErr result (FoundBy pass.old pass.new) }
        ensures taken_is_touched { IfErr result (TouchedBy M.core event) }
        ensures never_taken_with_all_shares { IfErr result (OthersShare pass.old) }
        ensures refused_on_what_was_seen { IfErr result (TryRefuses M.core event pass.new) }
        ensures right_history { Follows M.core pass.new.given pass.new.seen }
        ensures entries_at_their_numbers { Every (IsAtNumber pass.new.seen) pass.new.made }
    {
        let alloc = *self.room.allocator();
        let place = &mut pass.seat;
        try_perform_as::<M, Brand>(alloc, &self.table.shared, place, event)
    }

    /// Gives one share to a new pass. A pass takes no memory here, so that the answer is always Ok.
    pub fn split_pass(&self, pass: &mut Pass<M>) -> Result<Pass<M>, NoMemory>
        requires own_pass { pass.old.table ≡ self.now.id }
        requires two_shares { 2 ≤ pass.old.shares }
        ensures always { IsOk result }
        ensures rest { OnOk result (pass.new ≡ rest_of pass.old) }
        ensures share { IfOk result (λ share. share ≡ share_of pass.old) }
    {
        pass.shares -= 1;
        let seat = cut(&self.table.shared, &mut pass.seat);
        Ok(Pass { seat, shares: 1 })
    }

    /// Adds the other pass's entries, findings, shares and splits. It takes no memory.
    pub fn join_pass(&self, pass: &mut Pass<M>, other: Pass<M>)
        requires own_pass { pass.old.table ≡ self.now.id }
        requires own_other { other.table ≡ self.now.id }
        ensures same_table { pass.new.table ≡ pass.old.table }
        ensures same_given { (pass.new.given ≡ pass.old.given) × (pass.new.given ≡ other.given) }
        ensures entries_merged { pass.new.made ≡ merged pass.old.made other.made }
        ensures findings_behind { pass.new.findings ≡ pass.old.findings ++ other.findings }
        ensures shares_added { pass.new.shares ≡ pass.old.shares + other.shares }
        ensures splits_added { pass.new.splits ≡ pass.old.splits + other.splits }
        ensures sees_what_it_saw { IsPrefix pass.old.seen pass.new.seen }
        ensures sees_what_the_other_saw { IsPrefix other.seen pass.new.seen }
        ensures right_history { Follows M.core pass.new.given pass.new.seen }
        ensures entries_at_their_numbers { Every (IsAtNumber pass.new.seen) pass.new.made }
    {
        let Pass { seat, shares } = other;
        pass.shares += shares;
        glue(&self.table.shared, &mut pass.seat, seat);
    }

    /// The parts, in the room of the list that the table was made with.
    pub fn close(self, pass: Pass<M>) -> Records<M::Part>
        requires own_pass { pass.table ≡ self.id }
        requires all_shares { pass.shares ≡ 4096 }
        ensures same_given { pass.given ≡ self.given }
        ensures every_entry_once { history_of M.core (map M.core.meaning result) ≡ history_of M.core self.given ++ pass.made }
        ensures numbered { IsNumbered 1 (history_of M.core (map M.core.meaning result)) }
        ensures right_history { IsRight M.core self.given pass.made }
        ensures left_by_their_history { map M.core.meaning result ≡ leaves M.core self.given pass.made }
        ensures legal { M.core.Legal (map M.core.meaning result) }
        ensures seen { IsPrefix pass.seen (history_of M.core (map M.core.meaning result)) }
    {
        let StepTable { table, mut room } = self;
        let Pass { seat, shares: _ } = pass;
        let closed = table.close_with(seat);
        unload(closed, &mut room);
        Records::from_vec(room)
    }
}

impl<M: Machine> Pass<M> {
    /// The number of the pass's shares, from 1 to 4,096.
    pub fn shares(&self) -> u32
        ensures shares { result ≡ self.now.shares }
        ensures within { (1 ≤ result) × (result ≤ 4096) }
    {
        self.shares
    }
}
