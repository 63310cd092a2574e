//! What the advance of a restoration comes to.
ghost use Rattle.std.specs.Prelude.{ℕ, ◌≡◌, ◌<◌, [], IfOk, Some, None};
ghost use Rattle.std.specs.Option.{unwrap_or};
ghost use Rattle.row_values.specs.Ids.{Restoration};
ghost use Rattle.model.specs.Times.{end_of_time};
ghost use Rattle.model.specs.Tablets.{Tablet};
ghost use Rattle.model.specs.Parts.{Parts};
ghost use Rattle.model.specs.Records as records;
ghost use Rattle.model.specs.Coordination.{unfinished_restoration};
ghost use Rattle.model.specs.Lists.{tablets_active_at};
ghost use Rattle.model.specs.Restored.{tables_back, restored_tables, switch_list};
ghost use Rattle.model.specs.Moves as book;
ghost use Rattle.model.specs.Moves.{advance, moving, after_restoration, id_of_snapshot, serving_restoration};
ghost use Rattle.cluster_events.specs.SeenStates as replies;
ghost use Rattle.restore_coord.specs.Seen.{state_of};
ghost use Rattle.master_part.specs.Acts.{IsLawful};
ghost use Rattle.master_part.specs.Going.{Enters};
ghost use Rattle.master_part.specs.Decisions.{outcome_by, MayDo};

use crate::coordinating::{not_pending, waiting, waits_for};
use crate::fields::{
    listed_by_restoration, restoration_namespace, restoration_schedule, restoration_time,
    snapshot_id,
};
use crate::lists::{brought_back, released};
use crate::switching::{switch_list, tables_back};
use catalog_tablets::tablets_active_at;
use cluster_events::{Reply, State};
use hybrid_time::HybridTime;
use master_part::{Decision, MasterAct, MasterPart, Switch, new_snapshot};
use restore_coord::{RestorationRecord, RestorationState};
use row_values::{NoMemory, Records};
use tablet_inbox::Listed;
use yb_ident::Ident;

/// The record of a restoration goes on to its next state.
#[tactic(auto, using(crate::proofs::Restorings::advance_is, crate::proofs::Restorings::no_advance))]
pub(crate) fn decide_advance_restoration(
    master: &MasterPart,
    operation: &Ident,
    stamp: HybridTime,
) -> Result<Decision, NoMemory>
    requires kind { operation.now.kind ≡ Restoration }
    requires lawful { IsLawful master.now.master }
    requires before_end { stamp < end_of_time }
    ensures plan { IfOk result (λ d. (ps : Parts) → ps.master ≡ master.now.master → outcome_by ps.tablet d ≡ advance operation.now stamp ps) }
    ensures may { IfOk result (λ d. MayDo d stamp master.now.master) }
{
    let Some(restoration) = master.restorations().unfinished(operation) else {
        return Ok(not_pending(operation));
    };
    let awaited = awaited_by_restoration(master, restoration);
    if let Some(on) = waits_for(listed_by_restoration(restoration), awaited) {
        return Ok(waiting(on));
    }
    decide_move(master, restoration, operation, stamp)
}

// The move of an unfinished restoration, which waits for nothing.
fn decide_move(
    master: &MasterPart,
    restoration: &RestorationRecord,
    operation: &Ident,
    stamp: HybridTime,
) -> Result<Decision, NoMemory>
    requires kind { operation.now.kind ≡ Restoration }
    requires found { unfinished_restoration master.now.master.restorations operation.now ≡ Some restoration.now }
    requires lawful { IsLawful master.now.master }
    requires before_end { stamp < end_of_time }
    ensures plan { IfOk result (λ d. (parts : ℕ → Tablet) → outcome_by parts d ≡ moving None operation.now (after_restoration master.now.master restoration.now)) }
    ensures may { IfOk result (λ d. MayDo d stamp master.now.master) }
{
    match restoration.state {
        RestorationState::Fencing => decide_snapshot(master, restoration, operation, stamp),
        RestorationState::Snapshotting { point, own } => {
            let serving = serving_or(master, restoration, own);
            let entered = Entered {
                state: RestorationState::Switching { point, serving },
                listed: Records::new(master.alloc()),
                told: State::Switching,
            };
            Ok(enters(master, restoration, operation, entered, stamp))
        }
        RestorationState::Switching { point, serving } => {
            decide_switch(master, restoration, operation, point, &serving, stamp)
        }
        RestorationState::Restoring { point, serving } => {
            let entered = Entered {
                state: RestorationState::Releasing { point, serving },
                listed: release_list(master, restoration, point)?,
                told: State::Releasing,
            };
            Ok(enters(master, restoration, operation, entered, stamp))
        }
        RestorationState::Releasing { point, serving } => {
            let entered = restored(master, point, serving);
            Ok(enters(master, restoration, operation, entered, stamp))
        }
        RestorationState::Restored { point, serving } => {
            let entered = restored(master, point, serving);
            Ok(enters(master, restoration, operation, entered, stamp))
        }
    }
}

// The state that a restoration enters, the tablets that it lists there, and how the state is told.
#[derive(Drop)]
struct Entered {
    state: RestorationState,
    listed: Records<Listed>,
    told: State,
}

// The restoration is over.
fn restored(master: &MasterPart, point: HybridTime, serving: Ident) -> Entered
    ensures state { state_of result.state ≡ records.Restored point serving }
    ensures listed { result.listed ≡ [] }
    ensures told { replies.state_of result.told ≡ records.IsRestored }
{
    Entered {
        state: RestorationState::Restored { point, serving },
        listed: Records::new(master.alloc()),
        told: State::Restored,
    }
}

// A restoration goes on, and nothing else becomes of the master.
#[tactic(auto, using(crate::proofs::Restorings::found_alone))]
fn enters(
    master: &MasterPart,
    restoration: &RestorationRecord,
    operation: &Ident,
    entered: Entered,
    stamp: HybridTime,
) -> Decision
    requires kind { operation.now.kind ≡ Restoration }
    requires found { unfinished_restoration master.now.master.restorations operation.now ≡ Some restoration.now }
    requires lawful { IsLawful master.now.master }
    requires enters { Enters entered.state entered.listed restoration.now stamp master.now.master }
    requires told { after_restoration master.now.master restoration.now ≡ replies.state_of entered.told }
    ensures plan { (parts : ℕ → Tablet) → outcome_by parts result ≡ moving None operation.now (after_restoration master.now.master restoration.now) }
    ensures may { MayDo result stamp master.now.master }
{
    let Entered {
        state,
        listed,
        told,
    } = entered;
    Decision::Accepts {
        act: MasterAct::MovesRestoration {
            operation: *operation,
            state,
            listed,
        },
        changes: Records::new(master.alloc()),
        reply: Reply::Advanced(told),
    }
}

// All is fenced: a restoration makes its own snapshot.
#[tactic(auto, using(crate::proofs::Restorings::few_snapshots))]
fn decide_snapshot(
    master: &MasterPart,
    restoration: &RestorationRecord,
    operation: &Ident,
    stamp: HybridTime,
) -> Result<Decision, NoMemory>
    requires kind { operation.now.kind ≡ Restoration }
    requires found { unfinished_restoration master.now.master.restorations operation.now ≡ Some restoration.now }
    requires lawful { IsLawful master.now.master }
    requires before_end { stamp < end_of_time }
    requires fenced { restoration.now.state ≡ records.Fencing }
    ensures plan { IfOk result (λ d. (parts : ℕ → Tablet) → outcome_by parts d ≡ moving None operation.now (after_restoration master.now.master restoration.now)) }
    ensures may { IfOk result (λ d. MayDo d stamp master.now.master) }
{
    let namespace = restoration_namespace(restoration);
    let schedule = restoration_schedule(restoration);
    let made = new_snapshot(master, namespace, schedule, stamp)?;
    Ok(Decision::Accepts {
        act: MasterAct::SnapshotsRestoration {
            operation: *operation,
            made,
        },
        changes: Records::new(master.alloc()),
        reply: Reply::Advanced(State::Snapshot),
    })
}

// From its point on, a restoration's namespace has the tables and the tablets of its time.
fn decide_switch(
    master: &MasterPart,
    restoration: &RestorationRecord,
    operation: &Ident,
    point: HybridTime,
    serving: &Ident,
    stamp: HybridTime,
) -> Result<Decision, NoMemory>
    requires kind { operation.now.kind ≡ Restoration }
    requires found { unfinished_restoration master.now.master.restorations operation.now ≡ Some restoration.now }
    requires lawful { IsLawful master.now.master }
    requires switching { restoration.now.state ≡ records.Switching point serving.now }
    ensures plan { IfOk result (λ d. (parts : ℕ → Tablet) → outcome_by parts d ≡ moving None operation.now (after_restoration master.now.master restoration.now)) }
    ensures may { IfOk result (λ d. MayDo d stamp master.now.master) }
{
    let switch = switch_of(master, restoration, point, serving)?;
    Ok(Decision::Accepts {
        act: MasterAct::SwitchesRestoration {
            operation: *operation,
            switch,
        },
        changes: Records::new(master.alloc()),
        reply: Reply::Advanced(State::Restoring),
    })
}

// What the switch of a restoration at a point brings back.
#[tactic(auto, using(crate::proofs::Turning::switch_is))]
fn switch_of(
    master: &MasterPart,
    restoration: &RestorationRecord,
    point: HybridTime,
    serving: &Ident,
) -> Result<Switch, NoMemory>
    requires lawful { IsLawful master.now.master }
    ensures tables { IfOk result (λ s. tables_back master.now.master.catalog.tables restoration.now.namespace restoration.now.to point ≡ s.tables) }
    ensures active { IfOk result (λ s. tablets_active_at master.now.master.catalog.owners master.now.master.activity restoration.now.namespace restoration.now.to ≡ s.active) }
    ensures listed { IfOk result (λ s. switch_list master.now.master.catalog.owners master.now.master.activity restoration.now.namespace restoration.now.to point serving.now (restored_tables master.now.master.catalog.tables restoration.now.namespace restoration.now.to point) ≡ s.listed) }
{
    let namespace = restoration_namespace(restoration);
    let to = restoration_time(restoration);
    let tables = tables_back(master, &namespace, to, point)?;
    let active = tablets_active_at(master.catalog(), master.tablets(), namespace, to)?;
    let back = tables.as_slice();
    let listed = switch_list(
        master,
        &namespace,
        active.as_slice(),
        to,
        point,
        serving,
        back,
    )?;
    Ok(Switch {
        tables,
        active: Records::from_vec(active),
        listed,
    })
}

// The snapshot that serves a restoration's time, and else its own.
fn serving_or(master: &MasterPart, restoration: &RestorationRecord, own: Ident) -> Ident
    ensures exact { result ≡ unwrap_or (id_of_snapshot (serving_restoration master.now.master restoration.now)) own }
{
    match master
        .snapshots()
        .serving(&restoration.namespace, restoration.to)
    {
        Some(snapshot) => snapshot_id(snapshot),
        None => own,
    }
}

// The tablets that took back their rows are to give up their fences.
fn release_list(
    master: &MasterPart,
    restoration: &RestorationRecord,
    point: HybridTime,
) -> Result<Records<Listed>, NoMemory>
    ensures exact { IfOk result (λ listed. listed ≡ book.released point (book.brought_back restoration.now.listed)) }
{
    let back = brought_back(master.alloc(), listed_by_restoration(restoration))?;
    released(master.alloc(), back.as_slice(), point)
}

/// The snapshot that the next move of a restoration waits for. It takes no memory.
pub(crate) fn awaited_by_restoration(
    master: &MasterPart,
    restoration: &RestorationRecord,
) -> Option<Ident>
    ensures exact { result ≡ book.awaited_by_restoration restoration.now.state master.now.master restoration.now }
{
    match restoration.state {
        RestorationState::Fencing => master.snapshots().unfinished_of(&restoration.namespace),
        RestorationState::Snapshotting { own, .. } => incomplete(master, &own),
        RestorationState::Switching { .. } => None,
        RestorationState::Restoring { .. } => None,
        RestorationState::Releasing { .. } => None,
        RestorationState::Restored { .. } => None,
    }
}

/// The snapshot, unless it is complete. It takes no memory.
pub(crate) fn incomplete(master: &MasterPart, snapshot: &Ident) -> Option<Ident>
    ensures exact { result ≡ book.incomplete master.now.master.snapshots snapshot.now }
{
    if master.snapshots().is_complete(snapshot) {
        return None;
    }
    Some(*snapshot)
}
