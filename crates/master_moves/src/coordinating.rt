//! What the acts of a coordinator come to: a send, an ack, and the advance of a snapshot.
ghost use Rattle.std.specs.Prelude.{ℕ, ◌≡◌, Some, IfOk};
ghost use Rattle.row_values.specs.Ids.{Id, Snapshot};
ghost use Rattle.model.specs.Parts.{Master, Parts, refused};
ghost use Rattle.model.specs.Acts.{NotPending};
ghost use Rattle.model.specs.Records as records;
ghost use Rattle.std.specs.Option.{option_map};
ghost use Rattle.model.specs.Tablets.{Tablet, kind_of};
ghost use Rattle.model.specs.Coordination.{pending, send, ack, command_for};
ghost use Rattle.model.specs.Moves.{advance, moving, waits_for};
ghost use Rattle.master_part.specs.Decisions.{outcome_by, MayDo, is_marked};

use cluster_events::{Refusal, Reply, State};
use master_part::{Decision, MasterAct, MasterPart, PartChange, PartKind};
use row_values::{NoMemory, Records};
use snapshot_coord::SnapshotRecord;
use tablet_inbox::{Listed, Mark, TabletCommand, first_unacked};
use yb_ident::Ident;

/// A send of an operation's command to the tablet of a slot.
#[tactic(auto, unfolding(model::specs::Coordination::send))]
pub fn decide_send(master: &MasterPart, operation: &Ident, slot: u32) -> Result<Decision, NoMemory>
    ensures plan { IfOk result (λ d. (n : ℕ) (ps : Parts) → ps.master ≡ master.now.master → outcome_by ps.tablet d ≡ send operation.now slot n ps) }
    ensures may { IfOk result (λ d. (n : ℕ) → MayDo d n master.now.master) }
{
    let Some(listed) = master.pending(operation, slot) else {
        return Ok(not_pending(operation));
    };
    let mut changes = Records::new(master.alloc());
    changes.push(PartChange {
        slot,
        kind: PartKind::Offer {
            command: command_for(operation, &listed),
        },
    })?;
    Ok(Decision::Accepts {
        act: MasterAct::Sends {
            operation: *operation,
            slot,
        },
        changes,
        reply: Reply::Sent,
    })
}

/// The mark of the operation's command that is pending at the tablet of a slot.
pub fn pending_mark(master: &MasterPart, operation: &Ident, slot: u32) -> Option<Mark>
    ensures exact { result ≡ option_map (λ l. record { operation = operation.now; kind = kind_of l.body }) (pending master.now.master operation.now slot) }
{
    match master.pending(operation, slot) {
        Some(listed) => Some(command_for(operation, &listed).mark()),
        None => None,
    }
}

/// An ack by the tablet of a slot, which has the pending command's mark or not.
#[tactic(auto, unfolding(model::specs::Coordination::ack))]
pub fn decide_ack(
    master: &MasterPart,
    operation: &Ident,
    slot: u32,
    has_mark: bool,
) -> Result<Decision, NoMemory>
    ensures plan { IfOk result (λ d. (n : ℕ) (ps : Parts) → ps.master ≡ master.now.master → is_marked (ps.tablet slot).done operation.now (pending master.now.master operation.now slot) ≡ has_mark → outcome_by ps.tablet d ≡ ack operation.now slot n ps) }
    ensures may { IfOk result (λ d. (n : ℕ) → MayDo d n master.now.master) }
{
    if master.pending(operation, slot).is_none() {
        return Ok(not_pending(operation));
    }
    let operation = *operation;
    let changes = Records::new(master.alloc());
    if has_mark {
        return Ok(Decision::Accepts {
            act: MasterAct::Acks { operation, slot },
            changes,
            reply: Reply::Acked,
        });
    }
    Ok(Decision::Accepts {
        act: MasterAct::Unsends { operation, slot },
        changes,
        reply: Reply::Refused(Refusal::NotDone),
    })
}

/// The advance of a snapshot.
#[tactic(auto, unfolding(model::specs::Moves::advance))]
pub fn decide_advance_snapshot(master: &MasterPart, operation: &Ident) -> Result<Decision, NoMemory>
    requires kind { operation.now.kind ≡ Snapshot }
    ensures plan { IfOk result (λ d. (n : ℕ) (ps : Parts) → ps.master ≡ master.now.master → outcome_by ps.tablet d ≡ advance operation.now n ps) }
    ensures may { IfOk result (λ d. (n : ℕ) → MayDo d n master.now.master) }
{
    let Some(snapshot) = master.snapshots().unfinished(operation) else {
        return Ok(not_pending(operation));
    };
    if let Some(listed) = awaited_in(snapshot) {
        return Ok(Decision::Answers(Reply::Refused(Refusal::Waiting { on: listed.tablet })));
    }
    Ok(Decision::Accepts {
        act: MasterAct::CompletesSnapshot {
            operation: *operation,
        },
        changes: Records::new(master.alloc()),
        reply: Reply::Advanced(State::Complete),
    })
}

// The first tablet of a snapshot that has not said that it froze.
fn awaited_in(snapshot: &SnapshotRecord) -> Option<Listed>
    ensures exact { result ≡ records.first_unacked snapshot.now.listed }
{
    first_unacked(snapshot.listed.as_slice())
}

/// What a move waits for: the first listed tablet that has not said that it did its part, and else a snapshot.
pub(crate) fn waits_for(listed: &[Listed], awaited: Option<Ident>) -> Option<Ident>
    ensures exact { result ≡ waits_for (records.first_unacked listed.now) awaited }
{
    match first_unacked(listed) {
        Some(next) => Some(next.tablet),
        None => awaited,
    }
}

/// A move waits for a tablet or a snapshot.
pub(crate) fn waiting(on: Ident) -> Decision
    ensures plan { (parts : ℕ → Tablet) (operation : Id) (next : records.State) → outcome_by parts result ≡ moving (Some on) operation next }
    ensures may { (n : ℕ) (m : Master) → MayDo result n m }
{
    Decision::Answers(Reply::Refused(Refusal::Waiting { on }))
}

/// There is no such operation, or it doesn't wait for the tablet.
pub(crate) fn not_pending(operation: &Ident) -> Decision
    ensures plan { (parts : ℕ → Tablet) → outcome_by parts result ≡ refused (NotPending operation.now) }
    ensures may { (n : ℕ) (m : Master) → MayDo result n m }
{
    Decision::Answers(Reply::Refused(Refusal::NotPending {
        operation: *operation,
    }))
}

// The command that a listed tablet of an operation is to do.
fn command_for(operation: &Ident, listed: &Listed) -> TabletCommand
    ensures exact { result ≡ command_for operation.now listed.now }
{
    TabletCommand {
        operation: *operation,
        tablet: listed.tablet,
        body: listed.body,
    }
}
