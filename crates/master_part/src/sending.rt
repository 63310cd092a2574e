//! What the master's part does of an operation's commands: each is sent to a listed tablet, which does it and has the
//! master note that it did.
ghost use Rattle.std.specs.Prelude.{◌≡◌, ◌==◌, ◌&&◌, ◌≤◌, not, OnOk};
ghost use Rattle.row_values.specs.Ids.{Snapshot, same};
ghost use Rattle.model.specs.Parts.{Sends, Acks, Unsends, Moves};
ghost use Rattle.model.specs.Records as book;
ghost use Rattle.model.specs.Records.{unsent, unsent_at};
ghost use Rattle.yb_ident.specs.Seen as kinds;
ghost use Rattle.model.specs.Coordination.{acked_by};
ghost use Rattle.model.specs.Moves.{moved_of};
ghost use Rattle.model.specs.History.{master_effect};

use crate::fields::{kind_of, snapshot_id, snapshot_namespace, snapshot_time};
use crate::part::MasterPart;
use crate::sent::Sent;
use hybrid_time::HybridTime;
use row_values::NoMemory;
use yb_ident::{Ident, Kind};

impl MasterPart {
    /// Makes room for one more sent mark.
    pub fn prepare_send(&mut self) -> Result<(), NoMemory>
        ensures master { self.new.master ≡ self.old.master }
        ensures room { OnOk result (1 ≤ self.new.sent_room) }
    {
        self.sent.reserve(1)?;
        Ok(())
    }

    /// A command of an operation went to the tablet of a slot: it is marked as sent, once, in the room that was made.
    pub fn send(&mut self, operation: Ident, slot: u32, stamp: HybridTime)
        requires room { 1 ≤ self.old.sent_room }
        ensures master { self.new.master ≡ master_effect (Sends operation slot) stamp self.old.master }
    {
        self.clock = stamp;
        if !is_sent(self.sent.as_slice(), &operation, slot) {
            self.sent.push(Sent { operation, slot }).unwrap();
        }
    }

    /// Whether a command of an operation was sent to the tablet of a slot.
    pub fn is_sent(&self, operation: &Ident, slot: u32) -> bool
        ensures exact { result ≡ book.is_sent self.now.master.sent operation.now slot }
    {
        is_sent(self.sent.as_slice(), operation, slot)
    }

    /// The tablet of a slot did its command of an operation.
    #[tactic(auto, using(crate::proofs::ByKind::acked_by_kind))]
    pub fn ack(&mut self, operation: &Ident, slot: u32, stamp: HybridTime)
        ensures master { self.new.master ≡ master_effect (Acks operation.now slot) stamp self.old.master }
    {
        self.ack_by(kind_of(operation), operation, slot, stamp);
    }

    // The same of an operation of this kind.
    fn ack_by(&mut self, kind: Kind, operation: &Ident, slot: u32, stamp: HybridTime)
        ensures master { self.new.master ≡ acked_by (kinds.kind_of kind) operation.now slot stamp self.old.master }
    {
        self.clock = stamp;
        match kind {
            Kind::Snapshot => self.snapshots.ack(operation, slot),
            Kind::Restoration => self.restorations.ack(operation, slot),
            Kind::Clone => self.clones.ack(operation, slot),
            Kind::Namespace => {}
            Kind::Table => {}
            Kind::Tablet => {}
            Kind::Schedule => {}
        }
    }

    /// The tablet of a slot did not do its command of an operation: it is to be sent again.
    pub fn unsend(&mut self, operation: &Ident, slot: u32, stamp: HybridTime)
        ensures master { self.new.master ≡ master_effect (Unsends operation.now slot) stamp self.old.master }
    {
        self.clock = stamp;
        forget_sent(&mut self.sent, operation, slot);
    }

    /// All tablets of a snapshot froze: it is complete.
    #[tactic(auto, using(crate::proofs::ByKind::moves_snapshot))]
    pub fn complete_snapshot(&mut self, operation: &Ident, stamp: HybridTime)
        requires kind { operation.now.kind ≡ Snapshot }
        ensures master { self.new.master ≡ master_effect (Moves operation.now) stamp self.old.master }
    {
        self.complete_unfinished(operation, stamp);
    }

    // An unfinished snapshot is complete, if there is one.
    fn complete_unfinished(&mut self, operation: &Ident, stamp: HybridTime)
        ensures master { self.new.master ≡ moved_of Snapshot operation.now stamp self.old.master }
    {
        self.clock = stamp;
        let Some(found) = self.snapshots.unfinished(operation) else {
            return;
        };
        let id = snapshot_id(found);
        let namespace = snapshot_namespace(found);
        let at = snapshot_time(found);
        self.scheduled.set_complete(&namespace, at);
        self.snapshots.complete(&id);
        forget_all_sent(&mut self.sent, &id);
    }
}

// Whether a command of an operation was sent to the tablet of a slot.
fn is_sent(sent: &[Sent], operation: &Ident, slot: u32) -> bool
    ensures exact { result ≡ book.is_sent sent.now operation.now slot }
{
    for mark in sent {
        if mark.operation == *operation && mark.slot == slot {
            return true;
        }
    }
    false
}

// The mark of an operation's command to the tablet of a slot goes.
fn forget_sent(sent: &mut Vec<Sent>, operation: &Ident, slot: u32)
    ensures items { sent.new.items ≡ unsent_at operation.now slot sent.old.items }
{
    sent.retain(|mark| is_other(mark, operation, slot));
}

// All marks of an operation go.
pub(crate) fn forget_all_sent(sent: &mut Vec<Sent>, operation: &Ident)
    ensures items { sent.new.items ≡ unsent operation.now sent.old.items }
{
    sent.retain(|mark| is_of_another(mark, operation));
}

// Whether a mark is not that of an operation's command to the tablet of a slot.
fn is_other(mark: &Sent, operation: &Ident, slot: u32) -> bool
    ensures exact { result ≡ not (same mark.now.operation operation.now && (mark.now.slot == slot)) }
{
    !(mark.operation == *operation && mark.slot == slot)
}

// Whether a mark is another operation's.
fn is_of_another(mark: &Sent, operation: &Ident) -> bool
    ensures exact { result ≡ not (same mark.now.operation operation.now) }
{
    mark.operation != *operation
}
