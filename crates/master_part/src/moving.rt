//! What the master's part does where the record of a restoration moves.
ghost use Rattle.std.specs.Prelude.{◌≡◌, ◌≤◌, ◌<◌, ◌+◌, length, filter};
ghost use Rattle.row_values.specs.Ids.{id_bound, same};
ghost use Rattle.model.specs.Parts.{Moves};
ghost use Rattle.std.specs.Option.{option_copied};
ghost use Rattle.model.specs.Records.{unsent};
ghost use Rattle.model.specs.Coordination.{unfinished_restoration};
ghost use Rattle.model.specs.Lists.{new_snapshot, with_snapshot};
ghost use Rattle.model.specs.History.{master_effect};
ghost use Rattle.restore_coord.specs.Seen.{state_of};
ghost use Rattle.restore_coord.specs.View.{entered_in};
ghost use Rattle.master_part.specs.Going.{IsRestoration, OfRestoration, MakesSnapshot, Enters};

use crate::fields::{restoration_id, restoration_namespace, restoration_schedule, snapshot_id};
use crate::part::MasterPart;
use crate::sending::forget_all_sent;
use hybrid_time::HybridTime;
use restore_coord::{RestorationRecord, RestorationState};
use row_values::Records;
use snapshot_coord::SnapshotRecord;
use tablet_inbox::Listed;
use yb_ident::Ident;

impl MasterPart {
    /// A restoration whose tablets are fenced makes its own snapshot, in the room that was made.
    pub fn snapshot_restoration(
        &mut self,
        operation: &Ident,
        made: SnapshotRecord,
        stamp: HybridTime,
    )
        requires room { 1 ≤ self.old.snapshot_room }
        requires restoration { IsRestoration operation.now self.old.master }
        requires may { OfRestoration operation.now self.old.master (λ r. MakesSnapshot made r stamp self.old.master) }
        ensures master { self.new.master ≡ master_effect (Moves operation.now) stamp self.old.master }
    {
        let Some(found) = self.moving_restoration(operation) else {
            self.clock = stamp;
            return;
        };
        let id = restoration_id(found);
        let namespace = restoration_namespace(found);
        let schedule = restoration_schedule(found);
        let state = RestorationState::Snapshotting {
            point: stamp.plus_one(),
            own: snapshot_id(&made),
        };
        let listed = Records::new(self.alloc());
        self.begin_snapshot(&namespace, &schedule, made, stamp);
        self.enter_restoration(&id, state, listed, stamp);
    }

    /// A restoration enters a state, with the tablets that it lists there, and nothing else becomes of the master.
    pub fn move_restoration(
        &mut self,
        operation: &Ident,
        state: RestorationState,
        listed: Records<Listed>,
        stamp: HybridTime,
    )
        requires restoration { IsRestoration operation.now self.old.master }
        requires may { OfRestoration operation.now self.old.master (λ r. Enters state listed r stamp self.old.master) }
        ensures master { self.new.master ≡ master_effect (Moves operation.now) stamp self.old.master }
    {
        let Some(found) = self.moving_restoration(operation) else {
            self.clock = stamp;
            return;
        };
        let id = restoration_id(found);
        self.enter_restoration(&id, state, listed, stamp);
    }

    // The unfinished restoration of an identifier.
    pub(crate) fn moving_restoration(&self, operation: &Ident) -> Option<&RestorationRecord>
        ensures exact { option_copied result ≡ unfinished_restoration self.now.master.restorations operation.now }
    {
        self.restorations.unfinished(operation)
    }

    // A snapshot of a namespace by a schedule begins, in the room that was made.
    pub(crate) fn begin_snapshot(
        &mut self,
        namespace: &Ident,
        schedule: &Ident,
        made: SnapshotRecord,
        stamp: HybridTime,
    )
        requires room { 1 ≤ self.old.snapshot_room }
        requires few { self.old.master.drawn.snapshots + 1 < id_bound }
        requires made { new_snapshot self.old.master namespace.now schedule.now stamp ≡ made }
        ensures master { self.new.master ≡ with_snapshot namespace.now schedule.now stamp self.old.master }
    {
        self.schedules.set_last(schedule, stamp);
        self.scheduled.set_last(namespace, stamp);
        self.drawn.snapshots += 1;
        self.snapshots.add(made);
    }

    // The record of a restoration enters a state, and its sent marks go.
    pub(crate) fn enter_restoration(
        &mut self,
        id: &Ident,
        state: RestorationState,
        listed: Records<Listed>,
        stamp: HybridTime,
    )
        requires once { length (filter (λ r. same r.id id.now) self.old.master.restorations) ≤ 1 }
        ensures master { self.new.master ≡ record self.old.master {
          clock = stamp;
          restorations = entered_in id.now (state_of state) listed self.old.master.restorations;
          sent = unsent id.now self.old.master.sent;
        } }
    {
        self.clock = stamp;
        self.restorations.enter(id, state, listed);
        forget_all_sent(&mut self.sent, id);
    }
}
