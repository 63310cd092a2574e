//! The acts that follow a look, and what its reply shows.
ghost use Rattle.std.specs.Prelude.{◌≡◌, map, List, [], ◌∷◌, ℕ, IfOk, MatchOption};
ghost use Rattle.row_values.specs.declared.rows.KeyedRow as rows;
ghost use Rattle.row_values.specs.Schema.{column_ids};
ghost use Rattle.model.specs.Acts as acts;
ghost use Rattle.model_runs.specs.Courses as book;
ghost use Rattle.model_runs.specs.Courses.{found_by};
ghost use Rattle.model_runs.specs.Running.{columns_in, rows_or};
ghost use Rattle.commands.specs.Seen.{command_of};
ghost use Rattle.cluster_events.specs.SeenActs.{act_of};
ghost use Rattle.cluster_events.specs.SeenReplies.{reply_of};
ghost use Rattle.script_courses.specs.SeenCourses.{act_on, follow_of};

use crate::course::Follow;
use crate::placed::batch_by_id;
use cluster_events::{Act, At, Removal, Reply, TabletPlace};
use commands::{Command, NamedItem};
use hybrid_time::HybridTime;
use row_values::{Copied, Key, NoMemory, Records, Rows, Slots};
use std::alloc::Global;
use table_schema::Column;

fn one(alloc: Global, act: Act) -> Result<Vec<Act>, NoMemory>
    ensures exact { IfOk result (λ acts. acts.items ≡ act ∷ []) }
{
    let mut acts = Vec::new(alloc);
    acts.push(act)?;
    Ok(acts)
}

// The command under the plan.
fn change_under(alloc: Global, command: Command, reply: &Reply) -> Result<Vec<Act>, NoMemory>
    ensures exact { IfOk result (λ acts. map act_of acts.items ≡ book.change_under (command_of command) (found_by (reply_of reply.now))) }
{
    match reply {
        Reply::Planned(slots) | Reply::Present(slots) => one(
            alloc,
            Act::Change {
                command,
                slots: slots.copy()?,
            },
        ),
        _ => Ok(Vec::new(alloc)),
    }
}

fn at_place(place: &TabletPlace) -> At
    ensures exact { result ≡ book.at_place place.now }
{
    At {
        slot: place.slot,
        tablet: place.tablet,
    }
}

// A write to the first place.
fn write_at(
    alloc: Global,
    places: &[TabletPlace],
    version: u32,
    columns: &[Column],
    batch: Records<NamedItem>,
) -> Result<Vec<Act>, NoMemory>
    ensures exact { IfOk result (λ acts. map act_of acts.items ≡ book.write_at places.now version (map (book.item_by_id columns.now) batch)) }
{
    let Some(place) = places.first() else {
        return Ok(Vec::new(alloc));
    };
    let act = Act::Write {
        place: at_place(place),
        version,
        batch: batch_by_id(columns, batch)?,
    };
    one(alloc, act)
}

fn write_into(alloc: Global, batch: Records<NamedItem>, reply: &Reply) -> Result<Vec<Act>, NoMemory>
    ensures exact { IfOk result (λ acts. map act_of acts.items ≡ book.write_into batch (found_by (reply_of reply.now))) }
{
    match reply {
        Reply::Placed {
            places,
            version,
            columns,
        } => write_at(
            alloc,
            places.as_slice(),
            *version,
            columns.as_slice(),
            batch,
        ),
        _ => Ok(Vec::new(alloc)),
    }
}

fn places_at(alloc: Global, places: &[TabletPlace]) -> Result<Records<At>, NoMemory>
    ensures exact { IfOk result (λ at. at ≡ map book.at_place places.now) }
{
    let mut at = Records::new(alloc);
    for place in places {
        at.push(at_place(place))?;
    }
    Ok(at)
}

fn ids_of(alloc: Global, columns: &[Column]) -> Result<Slots, NoMemory>
    ensures exact { IfOk result (λ ids. ids ≡ column_ids columns.now) }
{
    let mut ids = Slots::new(alloc);
    for column in columns {
        ids.push(column.id)?;
    }
    Ok(ids)
}

fn read_places(
    alloc: Global,
    key: Option<Key>,
    at: Option<HybridTime>,
    reply: &Reply,
) -> Result<Vec<Act>, NoMemory>
    ensures exact { IfOk result (λ acts. map act_of acts.items ≡ book.read_places key at (found_by (reply_of reply.now))) }
{
    match reply {
        Reply::Placed {
            places,
            version,
            columns,
        } => one(
            alloc,
            Act::Read {
                places: places_at(alloc, places.as_slice())?,
                version: *version,
                key,
                at,
                columns: ids_of(alloc, columns.as_slice())?,
            },
        ),
        _ => Ok(Vec::new(alloc)),
    }
}

// What is done on each tablet that was found.
#[derive(Clone, Copy, Debug, PartialEq, Eq)]
enum OnTablet {
    Cutoff,
    Compact,
}

impl OnTablet {
    fn act(self, slot: u32) -> Act
        ensures exact { act_of result ≡ act_on self slot }
    {
        match self {
            OnTablet::Cutoff => Act::Cutoff { slot },
            OnTablet::Compact => Act::Compact { slot },
        }
    }
}

fn on_slots(alloc: Global, on: OnTablet, slots: &[u32]) -> Result<Vec<Act>, NoMemory>
    ensures exact { IfOk result (λ made. map act_of made.items ≡ map (act_on on) slots.now) }
{
    let mut made = Vec::new(alloc);
    for slot in slots {
        made.push(on.act(*slot))?;
    }
    Ok(made)
}

fn on_each(alloc: Global, on: OnTablet, reply: &Reply) -> Result<Vec<Act>, NoMemory>
    ensures exact { IfOk result (λ made. map act_of made.items ≡ book.at_each (act_on on) (found_by (reply_of reply.now))) }
{
    match reply {
        Reply::Planned(slots) | Reply::Present(slots) => on_slots(alloc, on, slots.as_slice()),
        _ => Ok(Vec::new(alloc)),
    }
}

fn remove_all(alloc: Global, targets: &[Removal]) -> Result<Vec<Act>, NoMemory>
    ensures exact { IfOk result (λ made. map act_of made.items ≡ book.remove_each (book.FoundTargets targets.now)) }
{
    let mut made = Vec::new(alloc);
    for removal in targets {
        made.push(Act::Remove {
            target: removal.target,
            slots: removal.slots.copy()?,
        })?;
    }
    made.push(Act::Prune)?;
    Ok(made)
}

fn remove_each(alloc: Global, reply: &Reply) -> Result<Vec<Act>, NoMemory>
    ensures exact { IfOk result (λ made. map act_of made.items ≡ book.remove_each (found_by (reply_of reply.now))) }
{
    match reply {
        Reply::Removable(targets) => remove_all(alloc, targets.as_slice()),
        _ => Ok(Vec::new(alloc)),
    }
}

/// The acts that follow a look which had this reply, in order; none where it found nothing.
pub fn acts_after(alloc: Global, follow: Follow, reply: &Reply) -> Result<Vec<Act>, NoMemory>
    ensures exact { IfOk result (λ made. map act_of made.items ≡ follow_of follow (found_by (reply_of reply.now))) }
{
    match follow {
        Follow::Change { command } => change_under(alloc, command, reply),
        Follow::Write { batch } => write_into(alloc, batch, reply),
        Follow::ReadKey { key, at } => read_places(alloc, Some(key), at, reply),
        Follow::ReadTable { at } => read_places(alloc, None, at, reply),
        Follow::CutoffEach => on_each(alloc, OnTablet::Cutoff, reply),
        Follow::CompactEach => on_each(alloc, OnTablet::Compact, reply),
        Follow::RemoveEach => remove_each(alloc, reply),
    }
}

/// The columns that a look placed.
pub fn columns_placed(reply: &Reply) -> &[Column]
    ensures exact { result.now ≡ columns_in (found_by (reply_of reply.now)) }
{
    match reply {
        Reply::Placed { columns, .. } => columns.as_slice(),
        _ => &[],
    }
}

/// The rows that a read found.
pub fn rows_of(reply: &Reply) -> Option<&Rows>
    ensures exact { MatchOption result
        ((text : List rows.KeyedRow → List ℕ) (other : List ℕ) → rows_or text (found_by (reply_of reply.now)) other ≡ other)
        (λ found. found_by (reply_of reply.now) ≡ book.FoundRows found.now) }
{
    match reply {
        Reply::Rows(rows) => Some(rows),
        _ => None,
    }
}
