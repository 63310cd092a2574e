//! What the master's part is told, of any kind.
ghost use Rattle.std.specs.Prelude.{◌≡◌, OnOk};
ghost use Rattle.model.specs.History.{master_effect};
ghost use Rattle.master_part.specs.Acts.{act_of, May, HasRoom};

use crate::act::MasterAct;
use crate::part::MasterPart;
use hybrid_time::HybridTime;
use row_values::NoMemory;

impl MasterPart {
    /// Makes room for what it is told.
    pub fn prepare(&mut self, act: &MasterAct) -> Result<(), NoMemory>
        ensures master { self.new.master ≡ self.old.master }
        ensures room { OnOk result (HasRoom act.now self.new) }
    {
        match act {
            MasterAct::Ticks => Ok(()),
            MasterAct::MakesNamespace { .. } => self.prepare_namespace(),
            MasterAct::DropsNamespace { .. } => Ok(()),
            MasterAct::MakesTable { slots, .. } => self.prepare_table(slots.len() as usize),
            MasterAct::AddsColumn { .. } => self.prepare_change(),
            MasterAct::DropsColumn { .. } => self.prepare_change(),
            MasterAct::RenamesTable { .. } => self.prepare_change(),
            MasterAct::DropsTable { .. } => Ok(()),
            MasterAct::SplitsTablet { .. } => self.prepare_split(),
            MasterAct::MakesSchedule { .. } => self.prepare_schedule(),
            MasterAct::EditsSchedule { .. } => Ok(()),
            MasterAct::DeletesSchedule { .. } => Ok(()),
            MasterAct::TakesSnapshot { .. } => self.prepare_snapshot(),
            MasterAct::BeginsRestoration { .. } => self.prepare_restoration(),
            MasterAct::Sends { .. } => self.prepare_send(),
            MasterAct::Acks { .. } => Ok(()),
            MasterAct::Unsends { .. } => Ok(()),
            MasterAct::CompletesSnapshot { .. } => Ok(()),
            MasterAct::SnapshotsRestoration { .. } => self.prepare_snapshot(),
            MasterAct::MovesRestoration { .. } => Ok(()),
            MasterAct::SwitchesRestoration { switch, .. } => self.prepare_switch(switch),
            MasterAct::BeginsClone { made, .. } => self.prepare_clone(made),
            MasterAct::SnapshotsClone { .. } => self.prepare_snapshot(),
            MasterAct::MovesClone { .. } => Ok(()),
            MasterAct::ShowsClone {
                operation,
                tables,
                ..
            } => self.prepare_target(operation, tables.len() as usize),
            MasterAct::Removes { .. } => Ok(()),
            MasterAct::Prunes { .. } => self.prepare_prune(),
            MasterAct::Restarts => Ok(()),
        }
    }

    /// Does what it is told, in the room that was made. It takes no memory.
    pub fn apply(&mut self, act: MasterAct, stamp: HybridTime)
        requires may { May act stamp self.old.master }
        requires room { HasRoom act self.old }
        ensures master { self.new.master ≡ master_effect (act_of act) stamp self.old.master }
    {
        match act {
            MasterAct::Ticks => self.tick(stamp),
            MasterAct::MakesNamespace { name } => self.make_namespace(name, stamp),
            MasterAct::DropsNamespace { namespace } => self.drop_namespace(&namespace, stamp),
            MasterAct::MakesTable {
                namespace,
                name,
                columns: _columns,
                schema,
                slots,
            } => self.make_table(namespace, name, schema, slots.as_slice(), stamp),
            MasterAct::AddsColumn {
                table: _table,
                name: _name,
                kind: _kind,
                made,
            } => self.change_table(made, stamp),
            MasterAct::DropsColumn {
                table: _table,
                column: _column,
                made,
            } => self.change_table(made, stamp),
            MasterAct::RenamesTable {
                table: _table,
                name: _name,
                made,
            } => self.change_table(made, stamp),
            MasterAct::DropsTable { table } => self.drop_table(&table, stamp),
            MasterAct::SplitsTablet {
                parent,
                code,
                low_slot,
                high_slot,
            } => self.split_tablet(&parent, code, low_slot, high_slot, stamp),
            MasterAct::MakesSchedule {
                namespace,
                interval,
                retention,
            } => self.make_schedule(namespace, interval, retention, stamp),
            MasterAct::EditsSchedule {
                schedule,
                interval,
                retention,
            } => self.edit_schedule(&schedule, interval, retention, stamp),
            MasterAct::DeletesSchedule { schedule } => self.delete_schedule(&schedule, stamp),
            MasterAct::TakesSnapshot { schedule, made } => {
                self.take_snapshot(&schedule, made, stamp)
            }
            MasterAct::BeginsRestoration {
                schedule,
                to: _to,
                made,
            } => self.begin_restoration(&schedule, made, stamp),
            MasterAct::Sends { operation, slot } => self.send(operation, slot, stamp),
            MasterAct::Acks { operation, slot } => self.ack(&operation, slot, stamp),
            MasterAct::Unsends { operation, slot } => self.unsend(&operation, slot, stamp),
            MasterAct::CompletesSnapshot { operation } => self.complete_snapshot(&operation, stamp),
            MasterAct::SnapshotsRestoration { operation, made } => {
                self.snapshot_restoration(&operation, made, stamp)
            }
            MasterAct::MovesRestoration {
                operation,
                state,
                listed,
            } => self.move_restoration(&operation, state, listed, stamp),
            MasterAct::SwitchesRestoration { operation, switch } => {
                self.switch_restoration(&operation, switch, stamp)
            }
            MasterAct::BeginsClone {
                namespace: _namespace,
                source: _source,
                target: _target,
                to: _to,
                made,
            } => self.begin_clone(made, stamp),
            MasterAct::SnapshotsClone { operation, made } => {
                self.snapshot_clone(&operation, made, stamp)
            }
            MasterAct::MovesClone {
                operation,
                state,
                listed,
            } => self.move_clone(&operation, state, listed, stamp),
            MasterAct::ShowsClone {
                operation,
                name,
                tables,
                listed,
            } => self.show_clone(&operation, name, tables, listed, stamp),
            MasterAct::Removes { target } => self.remove(&target, stamp),
            MasterAct::Prunes { cuts } => self.prune(&cuts, stamp),
            MasterAct::Restarts => self.restart(stamp),
        }
    }
}
