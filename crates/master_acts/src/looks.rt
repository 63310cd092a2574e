//! What looks at the master answer. They change nothing.
ghost use Rattle.std.specs.Prelude.{◌≡◌, IfOk, map, option_to_list};
ghost use Rattle.model.specs.Acts.{Placed};
ghost use Rattle.model.specs.Parts.{answered};
ghost use Rattle.model.specs.Lists.{by_range};
ghost use Rattle.model.specs.Rules as rules;
ghost use Rattle.model.specs.Looks as book;
ghost use Rattle.commands.specs.Seen.{ask_of};
ghost use Rattle.cluster_events.specs.SeenReplies.{reply_of};
ghost use Rattle.master_part.specs.Acts.{IsLawful};
ghost use Rattle.master_part.specs.Answers.{answer_at};
ghost use Rattle.master_acts.specs.Decided.{IsLooked};

use crate::batches::{batch_fault, code_outside, first_code};
use crate::fields::schema_of;
use crate::found::found_table;
use crate::places::{by_range, place_list};
use crate::plans::plan_of;
use catalog_core::TableRecord;
use cluster_events::{Refusal, Reply, TabletPlace};
use commands::{Ask, NamedItem};
use hybrid_time::HybridTime;
use master_part::{MasterPart, table_id};
use row_values::{Copied, Name, NoMemory, Records};
use table_schema::Schema;

// The table that is asked for by a time, or now: it is to be current.
fn found_at<'a>(
    master: &'a MasterPart,
    namespace: &Name,
    table: &Name,
    at: Option<HybridTime>,
    stamp: HybridTime,
) -> Result<&'a TableRecord, Refusal>
    ensures exact { answer_at result ≡ book.found_at namespace.now table.now at stamp master.now.master }
{
    let Some(x) = at else {
        return found_table(master, namespace, table);
    };
    let Some(found) = master.catalog().namespace_named(namespace) else {
        return Err(Refusal::UnknownNamespace);
    };
    if stamp.number() <= x.number() {
        return Err(Refusal::Future { now: stamp });
    }
    let kept = master.catalog().kept_from(&found);
    if x.number() < kept.number() {
        return Err(Refusal::TooOld {
            asked: x,
            cutoff: kept,
        });
    }
    let Some(record) = master.catalog().table_named(&found, table, x) else {
        return Err(Refusal::UnknownTable);
    };
    if master.catalog().current_table(&table_id(record)).is_none() {
        return Err(Refusal::UnknownTable);
    }
    Ok(record)
}

// The table of a look for keys: its columns take the batch, and one tablet holds all keys.
fn judge_keys<'a>(
    master: &'a MasterPart,
    namespace: &Name,
    table: &Name,
    batch: &[NamedItem],
    at: Option<HybridTime>,
    stamp: HybridTime,
) -> Result<&'a TableRecord, Refusal>
    ensures exact { answer_at result ≡ book.judge_keys namespace.now table.now batch.now at stamp master.now.master }
{
    let found = match found_at(master, namespace, table, at, stamp) {
        Ok(found) => found,
        Err(why) => return Err(why),
    };
    if let Some(why) = batch_fault(schema_of(found), batch) {
        return Err(why);
    }
    let first = first_code(batch);
    let Some(home) = master.tablets().holding(&table_id(found), first) else {
        return Ok(found);
    };
    if let Some(other) = code_outside(&home, batch) {
        return Err(Refusal::CrossTablet { first, other });
    }
    Ok(found)
}

/// What a look answers.
#[tactic(auto, unfolding(model::specs::Looks::look_plan))]
pub fn look(master: &MasterPart, ask: &Ask, stamp: HybridTime) -> Result<Reply, NoMemory>
    requires looked { IsLooked (ask_of ask.now) }
    requires lawful { IsLawful master.now.master }
    ensures plan { IfOk result (λ reply. rules.look (ask_of ask.now) stamp master.now.master ≡ answered (reply_of reply)) }
{
    match ask {
        Ask::Plan(command) => Ok(Reply::Planned(plan_of(master, command)?)),
        Ask::Keys {
            namespace,
            table,
            batch,
            at,
        } => look_keys(master, namespace, table, batch.as_slice(), *at, stamp),
        Ask::Table {
            namespace,
            table,
            at,
        } => look_table(master, namespace, table, *at, stamp),
        Ask::Work => unreachable!(),
        Ask::Removable => unreachable!(),
        Ask::Present => look_present(master),
    }
}

/// A look for the tablet that holds the keys of a batch.
#[tactic(auto, unfolding(model::specs::Looks::look_keys))]
pub fn look_keys(
    master: &MasterPart,
    namespace: &Name,
    table: &Name,
    batch: &[NamedItem],
    at: Option<HybridTime>,
    stamp: HybridTime,
) -> Result<Reply, NoMemory>
    ensures plan { IfOk result (λ reply. book.look_keys namespace.now table.now batch.now at stamp master.now.master ≡ answered (reply_of reply)) }
{
    let found = match judge_keys(master, namespace, table, batch, at, stamp) {
        Ok(found) => found,
        Err(why) => return Ok(Reply::Refused(why)),
    };
    let home = master
        .tablets()
        .holding(&table_id(found), first_code(batch));
    let places = place_list(master.alloc(), &home)?;
    placed(places, schema_of(found))
}

/// A look for all active tablets of a table.
#[tactic(auto, unfolding(model::specs::Looks::look_table))]
pub fn look_table(
    master: &MasterPart,
    namespace: &Name,
    table: &Name,
    at: Option<HybridTime>,
    stamp: HybridTime,
) -> Result<Reply, NoMemory>
    ensures plan { IfOk result (λ reply. book.look_table namespace.now table.now at stamp master.now.master ≡ answered (reply_of reply)) }
{
    let found = match found_at(master, namespace, table, at, stamp) {
        Ok(found) => found,
        Err(why) => return Ok(Reply::Refused(why)),
    };
    let active = master.tablets().active_in(&table_id(found))?;
    let places = by_range(master.alloc(), active.as_slice())?;
    placed(places, schema_of(found))
}

/// A look for the slots of all tablets that the master knows. It looks at the count of each slot.
#[tactic(auto, using(crate::proofs::Looking::present_is))]
pub fn look_present(master: &MasterPart) -> Result<Reply, NoMemory>
    requires lawful { IsLawful master.now.master }
    ensures plan { IfOk result (λ reply. book.look_present master.now.master ≡ answered (reply_of reply)) }
{
    let tablets = master.tablets();
    let slots = tablets.used_slots(master.alloc(), master.slots())?;
    Ok(Reply::Present(slots))
}

// The reply of a look that finds places, with the columns of the table.
fn placed(places: Records<TabletPlace>, schema: &Schema) -> Result<Reply, NoMemory>
    ensures exact { IfOk result (λ reply. reply_of reply ≡ Placed places schema.now.version schema.now.columns) }
{
    Ok(Reply::Placed {
        places,
        version: schema.version,
        columns: schema.columns.copy()?,
    })
}
