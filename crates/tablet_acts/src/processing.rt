//! What a tablet's first command comes to. These calls change nothing.
ghost use Rattle.std.specs.Prelude.{ℕ, ◌≡◌, IfOk};
ghost use Rattle.model.specs.Parts.{Parts};
ghost use Rattle.model.specs.Coordination as book;
ghost use Rattle.model.specs.Coordination.{rows_for};
ghost use Rattle.tablet_inbox.specs.Seen.{body_of};
ghost use Rattle.tablet_part.specs.Obeying.{store_for, CanCount};
ghost use Rattle.tablet_acts.specs.Tellings.{outcome_of, rows_taken, SuitAt, FirstIsDue};

use crate::plan::TabletsPlan;
use crate::told::TabletTold;
use cluster_events::{Refusal, Reply};
use row_values::NoMemory;
use std::alloc::Global;
use tablet_inbox::Body;
use tablet_part::{ReadyStore, TabletPart};
use versions::VersionStore;

/// The first command of the inbox of a slot's tablet is done. A copy takes its rows from the tablet of the other
/// slot; of any other command that is the tablet's own.
#[tactic(auto, unfolding(model::specs::Coordination::process))]
pub fn process<V: VersionStore>(
    alloc: Global,
    part: &TabletPart<V>,
    slot: u32,
    other: u32,
    source: &TabletPart<V>,
) -> Result<TabletsPlan<V>, NoMemory>
    ensures plan { IfOk result (λ p. (n : ℕ) (ps : Parts) → ps.tablet slot ≡ part.now.tablet → ps.tablet other ≡ source.now.tablet → outcome_of p ≡ book.process slot other n ps) }
    ensures suits { IfOk result (λ p. (n : ℕ) → FirstIsDue part.now.tablet.inbox n → SuitAt slot n part.now.tablet p.tablets) }
{
    let Some(command) = part.inbox().next() else {
        return Ok(TabletsPlan::answered(alloc, Reply::Refused(Refusal::Idle)));
    };
    let wanted = command.body.source_slot(slot);
    if other != wanted {
        let why = Refusal::OtherSlot { wanted };
        return Ok(TabletsPlan::answered(alloc, Reply::Refused(why)));
    }
    let store = store_of(alloc, &command.body, part, source)?;
    let reply = Reply::Done {
        operation: command.operation,
        kind: command.body.kind(),
    };
    let told = TabletTold::Process {
        command: *command,
        store,
    };
    TabletsPlan::telling(alloc, slot, told, reply)
}

/// The store that a body needs.
fn store_of<V: VersionStore>(
    alloc: Global,
    body: &Body,
    part: &TabletPart<V>,
    source: &TabletPart<V>,
) -> Result<Option<ReadyStore<V>>, NoMemory>
    ensures made { IfOk result (λ store. store ≡ store_for (body_of body.now) (rows_for (body_of body.now) source.now.tablet.frozen) part.now.tablet) }
    ensures rows { IfOk result (λ store. rows_taken (body_of body.now) store ≡ rows_for (body_of body.now) source.now.tablet.frozen) }
    ensures count { IfOk result (λ _. CanCount (body_of body.now) part.now.tablet) }
{
    let store = match body {
        Body::Fence => return Ok(None),
        Body::Hide { .. } => return Ok(None),
        Body::Release { .. } => return Ok(None),
        Body::Freeze { at, .. } => part.prepare_freeze(*at)?,
        Body::RestoreFrom {
            snapshot,
            to,
            point,
            ..
        } => part.prepare_restore(alloc, *snapshot, *to, *point)?,
        Body::Copy {
            snapshot,
            to,
            stamp,
            ..
        } => source.prepare_restore(alloc, *snapshot, *to, *stamp)?,
    };
    Ok(Some(ReadyStore::of(store)))
}
