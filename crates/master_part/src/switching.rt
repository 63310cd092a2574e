//! What the master's part does at the switch of a restoration: from its point on the catalog of its namespace and the
//! active tablets are those of the restored time.
ghost use Rattle.std.specs.Prelude.{ℕ, ◌≡◌, ◌≤◌, true, OnOk, length};
ghost use Rattle.row_values.specs.Ids.{Restoration};
ghost use Rattle.model.specs.Parts.{Moves};
ghost use Rattle.model.specs.Records.{RestorationRecord, Switching};
ghost use Rattle.model.specs.Moves.{moved_of, restoration_goes, switched};
ghost use Rattle.model.specs.Restored.{tables_back};
ghost use Rattle.model.specs.History.{master_effect};
ghost use Rattle.catalog_core.specs.Begins.{IsHome};
ghost use Rattle.catalog_core.specs.Kept.{ends_in};
ghost use Rattle.master_part.specs.Going.{IsRestoration, OfRestoration, SwitchesBy, Brings};

use crate::fields::{restoration_namespace, restoration_state};
use crate::part::MasterPart;
use crate::sending::forget_all_sent;
use crate::switch::Switch;
use catalog_tablets::restore_tablets;
use hybrid_time::HybridTime;
use restore_coord::RestorationState;
use row_values::NoMemory;
use yb_ident::Ident;

impl MasterPart {
    /// Makes room for what a switch brings back.
    pub fn prepare_switch(&mut self, switch: &Switch) -> Result<(), NoMemory>
        ensures master { self.new.master ≡ self.old.master }
        ensures room { OnOk result (length switch.now.tables ≤ self.new.catalog_room) }
        ensures places { OnOk result (length switch.now.active ≤ self.new.activity_room) }
    {
        self.catalog.prepare(switch.tables.len() as usize)?;
        self.activity.prepare(switch.active.len() as usize)?;
        Ok(())
    }

    /// A restoration switches, in the room that was made.
    #[tactic(auto, using(crate::proofs::ByKind::moves_restoration))]
    pub fn switch_restoration(&mut self, operation: &Ident, switch: Switch, stamp: HybridTime)
        requires room { length switch.tables ≤ self.old.catalog_room }
        requires places { length switch.active ≤ self.old.activity_room }
        requires restoration { IsRestoration operation.now self.old.master }
        requires fits { OfRestoration operation.now self.old.master (λ r. SwitchesBy r.state switch r self.old.master) }
        ensures master { self.new.master ≡ master_effect (Moves operation.now) stamp self.old.master }
    {
        self.switch_unfinished(operation, switch, stamp);
    }

    // An unfinished restoration switches, if there is one.
    fn switch_unfinished(&mut self, operation: &Ident, switch: Switch, stamp: HybridTime)
        requires room { length switch.tables ≤ self.old.catalog_room }
        requires places { length switch.active ≤ self.old.activity_room }
        requires restoration { IsRestoration operation.now self.old.master }
        requires fits { OfRestoration operation.now self.old.master (λ r. SwitchesBy r.state switch r self.old.master) }
        ensures master { self.new.master ≡ moved_of Restoration operation.now stamp self.old.master }
    {
        let Some(found) = self.restorations.unfinished(operation) else {
            self.clock = stamp;
            return;
        };
        let namespace = restoration_namespace(found);
        match restoration_state(found) {
            RestorationState::Switching { point, serving } => {
                self.switch_at(operation, namespace, point, serving, switch, stamp)
            }
            _ => unreachable!(),
        }
    }

    // The restoration of the namespace switches at a point.
    fn switch_at(
        &mut self,
        operation: &Ident,
        namespace: Ident,
        point: HybridTime,
        serving: Ident,
        switch: Switch,
        stamp: HybridTime,
    )
        requires room { length switch.tables ≤ self.old.catalog_room }
        requires places { length switch.active ≤ self.old.activity_room }
        requires restoration { IsRestoration operation.now self.old.master }
        requires past { ends_in namespace point self.old.master.catalog.tables ≡ true }
        requires home { IsHome self.old.master.catalog.tables }
        requires back { (to : ℕ) × (switch.tables ≡ tables_back self.old.master.catalog.tables namespace to point) }
        ensures master { (r : RestorationRecord) → r.id ≡ operation.now → r.namespace ≡ namespace → Brings switch r point serving self.old.master → self.new.master ≡ restoration_goes (Switching point serving) r stamp self.old.master (switched r point self.old.master) }
    {
        self.clock = stamp;
        let Switch {
            tables,
            active,
            listed,
        } = switch;
        restore_tablets(
            &self.catalog,
            &mut self.activity,
            namespace,
            active.as_slice(),
            point,
        );
        self.catalog
            .restore_tables(&namespace, tables.into_vec(), point);
        self.restorations.enter(
            operation,
            RestorationState::Restoring { point, serving },
            listed,
        );
        forget_all_sent(&mut self.sent, operation);
    }
}
