//! What the advance of a clone comes to.
ghost use Rattle.std.specs.Prelude.{ℕ, ◌≡◌, [], Some, None, is_some, if◌then◌else◌, unwrap_or, IfOk};
ghost use Rattle.row_values.specs.Ids.{Clone};
ghost use Rattle.model.specs.Tablets.{Tablet};
ghost use Rattle.model.specs.Parts.{Parts};
ghost use Rattle.model.specs.Records as records;
ghost use Rattle.model.specs.Records.{unfinished_of};
ghost use Rattle.model.specs.Coordination.{unfinished_clone};
ghost use Rattle.model.specs.Schedules.{serving};
ghost use Rattle.model.specs.Moves as book;
ghost use Rattle.model.specs.Moves.{advance, moving, after_clone, serving_clone};
ghost use Rattle.cluster_events.specs.SeenStates as replies;
ghost use Rattle.clone_coord.specs.Seen.{state_of};
ghost use Rattle.master_part.specs.Acts.{IsLawful};
ghost use Rattle.master_part.specs.Going.{CloneEnters, serves};
ghost use Rattle.master_part.specs.Decisions.{outcome_by, MayDo};
ghost use Rattle.master_moves.specs.Clonings.{IsCopying};

use crate::coordinating::{not_pending, waiting, waits_for};
use crate::fields::{listed_by_clone, snapshot_id};
use crate::lists::released;
use crate::restoring::incomplete;
use crate::targets::{cloned_tables, copies};
use clone_coord::{CloneRecord, CloneState};
use cluster_events::{Reply, State};
use hybrid_time::HybridTime;
use master_part::{Decision, MasterAct, MasterPart, new_snapshot, schedule_id};
use row_values::{Copied, Name, NoMemory, Records};
use schedules::Schedule;
use tablet_inbox::Listed;
use yb_ident::Ident;

/// The record of a clone goes on to its next state.
#[tactic(auto, using(crate::proofs::Clonings::advance_is, crate::proofs::Clonings::no_advance))]
pub(crate) fn decide_advance_clone(
    master: &MasterPart,
    operation: &Ident,
    stamp: HybridTime,
) -> Result<Decision, NoMemory>
    requires kind { operation.now.kind ≡ Clone }
    requires lawful { IsLawful master.now.master }
    ensures plan { IfOk result (λ d. (ps : Parts) → ps.master ≡ master.now.master → outcome_by ps.tablet d ≡ advance operation.now stamp ps) }
    ensures may { IfOk result (λ d. MayDo d stamp master.now.master) }
{
    let Some(clone) = master.clones().unfinished(operation) else {
        return Ok(not_pending(operation));
    };
    let awaited = awaited_by_clone(master, clone);
    if let Some(on) = waits_for(listed_by_clone(clone), awaited) {
        return Ok(waiting(on));
    }
    decide_move(master, clone, operation, stamp)
}

// The move of an unfinished clone, which waits for nothing.
fn decide_move(
    master: &MasterPart,
    clone: &CloneRecord,
    operation: &Ident,
    stamp: HybridTime,
) -> Result<Decision, NoMemory>
    requires kind { operation.now.kind ≡ Clone }
    requires found { unfinished_clone master.now.master.clones operation.now ≡ Some clone.now }
    requires lawful { IsLawful master.now.master }
    ensures plan { IfOk result (λ d. (parts : ℕ → Tablet) → outcome_by parts d ≡ moving None operation.now (after_clone master.now.master clone.now)) }
    ensures may { IfOk result (λ d. MayDo d stamp master.now.master) }
{
    match clone.state {
        CloneState::Accepted => decide_begin(master, clone, operation, stamp),
        CloneState::Snapshotting { own } => {
            let serving = serving_or(master, clone, own);
            let entered = copying(master, clone, serving, stamp)?;
            Ok(enters(master, clone, operation, entered, stamp))
        }
        CloneState::Copying { .. } => decide_show(master, clone, operation, stamp),
        CloneState::Releasing { serving, copied_at } => {
            let entered = complete(master, serving, copied_at);
            Ok(enters(master, clone, operation, entered, stamp))
        }
        CloneState::Complete { serving, copied_at } => {
            let entered = complete(master, serving, copied_at);
            Ok(enters(master, clone, operation, entered, stamp))
        }
    }
}

// The state that a clone enters, the tablets that it lists there, and how the state is told.
#[derive(Drop)]
struct Entered {
    state: CloneState,
    listed: Records<Listed>,
    told: State,
}

// The clone is over.
fn complete(master: &MasterPart, serving: Ident, copied_at: HybridTime) -> Entered
    ensures state { state_of result.state ≡ records.CloneComplete serving copied_at }
    ensures listed { result.listed ≡ [] }
    ensures told { replies.state_of result.told ≡ records.IsComplete }
{
    Entered {
        state: CloneState::Complete { serving, copied_at },
        listed: Records::new(master.alloc()),
        told: State::Complete,
    }
}

// The targets of a clone copy the rows of a snapshot.
fn copying(
    master: &MasterPart,
    clone: &CloneRecord,
    serving: Ident,
    stamp: HybridTime,
) -> Result<Entered, NoMemory>
    ensures state { IfOk result (λ e. state_of e.state ≡ records.Copying serving stamp) }
    ensures listed { IfOk result (λ e. e.listed ≡ book.copies serving clone.now.to stamp clone.now.tablets) }
    ensures told { IfOk result (λ e. replies.state_of e.told ≡ records.IsCopying) }
{
    let pairs = clone.tablets.as_slice();
    Ok(Entered {
        state: CloneState::Copying {
            serving,
            copied_at: stamp,
        },
        listed: copies(master.alloc(), serving, clone.to, stamp, pairs)?,
        told: State::Copying,
    })
}

// A clone waits for its own snapshot.
fn snapshotting(master: &MasterPart, own: Ident) -> Entered
    ensures state { state_of result.state ≡ records.CloneSnapshot own }
    ensures listed { result.listed ≡ [] }
    ensures told { replies.state_of result.told ≡ records.IsSnapshot }
{
    Entered {
        state: CloneState::Snapshotting { own },
        listed: Records::new(master.alloc()),
        told: State::Snapshot,
    }
}

// A clone goes on, and nothing else becomes of the master.
#[tactic(auto, using(crate::proofs::Clonings::found_alone))]
fn enters(
    master: &MasterPart,
    clone: &CloneRecord,
    operation: &Ident,
    entered: Entered,
    stamp: HybridTime,
) -> Decision
    requires kind { operation.now.kind ≡ Clone }
    requires found { unfinished_clone master.now.master.clones operation.now ≡ Some clone.now }
    requires lawful { IsLawful master.now.master }
    requires enters { CloneEnters entered.state entered.listed clone.now stamp master.now.master }
    requires told { after_clone master.now.master clone.now ≡ replies.state_of entered.told }
    ensures plan { (parts : ℕ → Tablet) → outcome_by parts result ≡ moving None operation.now (after_clone master.now.master clone.now) }
    ensures may { MayDo result stamp master.now.master }
{
    let Entered {
        state,
        listed,
        told,
    } = entered;
    Decision::Accepts {
        act: MasterAct::MovesClone {
            operation: *operation,
            state,
            listed,
        },
        changes: Records::new(master.alloc()),
        reply: Reply::Advanced(told),
    }
}

// An accepted clone copies the rows of the snapshot that serves its time; where none does, it makes one first.
#[tactic(auto, using(crate::proofs::Clonings::few_snapshots))]
fn decide_begin(
    master: &MasterPart,
    clone: &CloneRecord,
    operation: &Ident,
    stamp: HybridTime,
) -> Result<Decision, NoMemory>
    requires kind { operation.now.kind ≡ Clone }
    requires found { unfinished_clone master.now.master.clones operation.now ≡ Some clone.now }
    requires lawful { IsLawful master.now.master }
    requires accepted { clone.now.state ≡ records.Accepted }
    ensures plan { IfOk result (λ d. (parts : ℕ → Tablet) → outcome_by parts d ≡ moving None operation.now (after_clone master.now.master clone.now)) }
    ensures may { IfOk result (λ d. MayDo d stamp master.now.master) }
{
    if let Some(serving) = serving_id(master, clone) {
        let entered = copying(master, clone, serving, stamp)?;
        return Ok(enters(master, clone, operation, entered, stamp));
    }
    let Some(schedule) = schedule_for(master, clone) else {
        let entered = snapshotting(master, master.next_snapshot());
        return Ok(enters(master, clone, operation, entered, stamp));
    };
    decide_snapshot(master, clone, operation, &schedule, stamp)
}

// No snapshot serves an accepted clone, and it makes one by a schedule of its source.
#[tactic(auto, using(crate::proofs::Clonings::found_alone, crate::proofs::Clonings::few_snapshots))]
fn decide_snapshot(
    master: &MasterPart,
    clone: &CloneRecord,
    operation: &Ident,
    schedule: &Schedule,
    stamp: HybridTime,
) -> Result<Decision, NoMemory>
    requires kind { operation.now.kind ≡ Clone }
    requires found { unfinished_clone master.now.master.clones operation.now ≡ Some clone.now }
    requires lawful { IsLawful master.now.master }
    requires accepted { clone.now.state ≡ records.Accepted }
    requires unserved { serving_clone master.now.master clone.now ≡ None }
    requires schedule { records.schedule_of master.now.master.schedules clone.now.source ≡ Some schedule.now }
    ensures plan { IfOk result (λ d. (parts : ℕ → Tablet) → outcome_by parts d ≡ moving None operation.now (after_clone master.now.master clone.now)) }
    ensures may { IfOk result (λ d. MayDo d stamp master.now.master) }
{
    let made = new_snapshot(master, source_of(clone), schedule_id(schedule), stamp)?;
    Ok(Decision::Accepts {
        act: MasterAct::SnapshotsClone {
            operation: *operation,
            made,
        },
        changes: Records::new(master.alloc()),
        reply: Reply::Advanced(State::Snapshot),
    })
}

// All rows are copied: the target of a clone becomes current.
#[tactic(auto, using(crate::proofs::Clonings::found_alone, crate::proofs::Clonings::target_fits))]
fn decide_show(
    master: &MasterPart,
    clone: &CloneRecord,
    operation: &Ident,
    stamp: HybridTime,
) -> Result<Decision, NoMemory>
    requires kind { operation.now.kind ≡ Clone }
    requires found { unfinished_clone master.now.master.clones operation.now ≡ Some clone.now }
    requires lawful { IsLawful master.now.master }
    requires copying { IsCopying clone.now.state }
    ensures plan { IfOk result (λ d. (parts : ℕ → Tablet) → outcome_by parts d ≡ moving None operation.now (after_clone master.now.master clone.now)) }
    ensures may { IfOk result (λ d. MayDo d stamp master.now.master) }
{
    let tables = cloned_tables(master, clone, stamp)?;
    let listed = released(master.alloc(), listed_by_clone(clone), stamp)?;
    Ok(Decision::Accepts {
        act: MasterAct::ShowsClone {
            operation: *operation,
            name: target_name(clone)?,
            tables,
            listed,
        },
        changes: Records::new(master.alloc()),
        reply: Reply::Advanced(State::Releasing),
    })
}

fn source_of(clone: &CloneRecord) -> Ident
    ensures exact { result ≡ clone.now.source }
{
    clone.source
}

fn target_name(clone: &CloneRecord) -> Result<Name, NoMemory>
    ensures exact { IfOk result (λ name. name ≡ clone.now.target) }
{
    clone.target.copy()
}

// The schedule of a clone's source that has the least number.
fn schedule_for(master: &MasterPart, clone: &CloneRecord) -> Option<Schedule>
    ensures exact { result ≡ records.schedule_of master.now.master.schedules clone.now.source }
{
    master.schedules().schedule_of(&clone.source)
}

// The snapshot that serves a clone's time.
fn serving_id(master: &MasterPart, clone: &CloneRecord) -> Option<Ident>
    ensures exact { result ≡ serves master.now.master clone.now }
{
    match master.snapshots().serving(&clone.source, clone.to) {
        Some(snapshot) => Some(snapshot_id(snapshot)),
        None => None,
    }
}

// The snapshot that serves a clone's time, and else its own.
fn serving_or(master: &MasterPart, clone: &CloneRecord, own: Ident) -> Ident
    ensures exact { result ≡ unwrap_or (serves master.now.master clone.now) own }
{
    match serving_id(master, clone) {
        Some(serving) => serving,
        None => own,
    }
}

/// The snapshot that the next move of a clone waits for. It takes no memory.
pub(crate) fn awaited_by_clone(master: &MasterPart, clone: &CloneRecord) -> Option<Ident>
    ensures exact { result ≡ book.awaited_by_clone clone.now.state master.now.master clone.now }
{
    match clone.state {
        CloneState::Accepted => awaited_to_begin(master, &clone.source, clone.to),
        CloneState::Snapshotting { own } => incomplete(master, &own),
        CloneState::Copying { .. } => None,
        CloneState::Releasing { .. } => None,
        CloneState::Complete { .. } => None,
    }
}

// The unfinished snapshot of a clone's source that it waits for, where none serves its time.
fn awaited_to_begin(master: &MasterPart, source: &Ident, to: HybridTime) -> Option<Ident>
    ensures exact { result ≡ if is_some (serving master.now.master.snapshots source.now to) then None else unfinished_of master.now.master.snapshots source.now }
{
    if master.snapshots().serving(source, to).is_some() {
        return None;
    }
    master.snapshots().unfinished_of(source)
}
