//! How commands are judged: what is found, or the first refusal. None of these calls takes memory.
ghost use Rattle.std.specs.Prelude.{◌≡◌, ◌<◌, ◌+◌, length, Ok as Granted};
ghost use Rattle.row_values.specs.Ids.{id_bound};
ghost use Rattle.model.specs.Changes as book;
ghost use Rattle.model.specs.Acts.{SlotsFull};
ghost use Rattle.model.specs.Looks.{free_slots, found_family};
ghost use Rattle.cluster_events.specs.SeenReplies.{refusal_of};
ghost use Rattle.master_part.specs.Answers.{answer, answer_at, answer_by};
ghost use Rattle.master_acts.specs.Founds.{column_seen, family_seen};

use crate::fields::{count_columns, low_of, namespace_of, schema_of};
use crate::found::found_table;
use catalog_core::TableRecord;
use catalog_tablets::Interval;
use cluster_events::Refusal;
use master_part::{MasterPart, table_id};
use row_values::Name;
use table_schema::Column;
use yb_ident::Ident;

// The most tables of a namespace, and columns of a table.
const MOST_TABLES: usize = 64;

const MOST_COLUMNS: u64 = 16;

/// A new namespace: the identifier that it gets.
pub fn judge_create_namespace(master: &MasterPart, name: &Name) -> Result<Ident, Refusal>
    requires few { master.now.master.drawn.namespaces + 1 < id_bound }
    ensures exact { answer result ≡ book.judge_create_namespace name.now master.now.master }
{
    if let Some(by) = master.named(name) {
        return Err(Refusal::NameTaken { by });
    }
    if master.is_full() {
        return Err(Refusal::TooMany { limit: 64 });
    }
    Ok(master.next_namespace())
}

/// A new table of so many tablets: its namespace.
pub fn judge_create_table(
    master: &MasterPart,
    namespace: &Name,
    table: &Name,
    tablets: u32,
) -> Result<Ident, Refusal>
    ensures exact { answer result ≡ book.judge_create_table namespace.now table.now tablets master.now.master }
{
    let Some(found) = master.catalog().namespace_named(namespace) else {
        return Err(Refusal::UnknownNamespace);
    };
    if let Some(operation) = master.holder(&found) {
        return Err(Refusal::Busy { operation });
    }
    if let Some(other) = master.catalog().current_named(&found, table) {
        return Err(Refusal::NameTaken {
            by: table_id(other),
        });
    }
    if master.catalog().count_tables(&found) == MOST_TABLES {
        return Err(Refusal::TooMany { limit: 64 });
    }
    let free = master.count_free();
    if free < tablets {
        return Err(Refusal::SlotsFull {
            free,
            needed: tablets,
        });
    }
    Ok(found)
}

/// A new column: the table that gets it.
pub fn judge_add_column<'a>(
    master: &'a MasterPart,
    namespace: &Name,
    table: &Name,
    name: &Name,
) -> Result<&'a TableRecord, Refusal>
    ensures exact { answer_at result ≡ book.judge_add_column namespace.now table.now name.now master.now.master }
{
    let found = match found_table(master, namespace, table) {
        Ok(found) => found,
        Err(why) => return Err(why),
    };
    if let Some(operation) = master.holder(&namespace_of(found)) {
        return Err(Refusal::Busy { operation });
    }
    if schema_of(found).column(name).is_some() {
        return Err(Refusal::NameTaken {
            by: table_id(found),
        });
    }
    if count_columns(found) == MOST_COLUMNS {
        return Err(Refusal::TooMany { limit: 16 });
    }
    Ok(found)
}

/// Another name of a table: that table.
pub fn judge_rename_table<'a>(
    master: &'a MasterPart,
    namespace: &Name,
    table: &Name,
    name: &Name,
) -> Result<&'a TableRecord, Refusal>
    ensures exact { answer_at result ≡ book.judge_rename_table namespace.now table.now name.now master.now.master }
{
    let found = match found_table(master, namespace, table) {
        Ok(found) => found,
        Err(why) => return Err(why),
    };
    let owner = namespace_of(found);
    if let Some(operation) = master.holder(&owner) {
        return Err(Refusal::Busy { operation });
    }
    if let Some(other) = master.catalog().current_named(&owner, name) {
        return Err(Refusal::NameTaken {
            by: table_id(other),
        });
    }
    Ok(found)
}

/// The end of a table: that table.
pub fn judge_drop_table<'a>(
    master: &'a MasterPart,
    namespace: &Name,
    table: &Name,
) -> Result<&'a TableRecord, Refusal>
    ensures exact { answer_at result ≡ book.judge_drop_table namespace.now table.now master.now.master }
{
    let found = match found_table(master, namespace, table) {
        Ok(found) => found,
        Err(why) => return Err(why),
    };
    if let Some(operation) = master.holder(&namespace_of(found)) {
        return Err(Refusal::Busy { operation });
    }
    Ok(found)
}

/// The end of a namespace: that namespace.
pub fn judge_drop_namespace(master: &MasterPart, name: &Name) -> Result<Ident, Refusal>
    ensures exact { answer result ≡ book.judge_drop_namespace name.now master.now.master }
{
    let Some(found) = master.catalog().namespace_named(name) else {
        return Err(Refusal::UnknownNamespace);
    };
    if let Some(operation) = master.holder(&found) {
        return Err(Refusal::Busy { operation });
    }
    if let Some(table) = master.first_table(&found) {
        return Err(Refusal::NotEmpty { table });
    }
    if let Some(schedule) = master.schedule_of(&found) {
        return Err(Refusal::UnderSchedule { schedule });
    }
    Ok(found)
}

/// The end of a column: the table, and that column.
pub fn judge_drop_column<'a>(
    master: &'a MasterPart,
    namespace: &Name,
    table: &Name,
    name: &Name,
) -> Result<ColumnOf<'a>, Refusal>
    ensures exact { answer_by column_seen result ≡ book.judge_drop_column namespace.now table.now name.now master.now.master }
{
    let found = match found_table(master, namespace, table) {
        Ok(found) => found,
        Err(why) => return Err(why),
    };
    let Some(column) = schema_of(found).column(name) else {
        return Err(Refusal::UnknownColumn);
    };
    if let Some(operation) = master.holder(&namespace_of(found)) {
        return Err(Refusal::Busy { operation });
    }
    Ok(ColumnOf {
        table: found,
        column,
    })
}

/// A split of a table's tablet at a code: the table, the tablet, and the slots of its children.
#[tactic(auto, using(master_part::proofs::Slots::free_all))]
pub fn judge_split<'a>(
    master: &'a MasterPart,
    namespace: &Name,
    table: &Name,
    code: u16,
) -> Result<Family<'a>, Refusal>
    ensures exact { answer_by family_seen result ≡ book.judge_split namespace.now table.now code master.now.master }
{
    let found = match found_table(master, namespace, table) {
        Ok(found) => found,
        Err(why) => return Err(why),
    };
    let Some(tablet) = master.tablets().holding(&table_id(found), code) else {
        return Err(Refusal::UnknownTable);
    };
    if let Some(operation) = master.holder(&namespace_of(found)) {
        return Err(Refusal::Busy { operation });
    }
    let low = low_of(&tablet);
    if u32::from(code) == low {
        return Err(Refusal::TooNarrow { low });
    }
    family_of(master, found, tablet)
}

// A tablet with the two least free slots, for its children.
#[tactic(auto, using(master_part::proofs::Slots::free_all))]
fn family_of<'a>(
    master: &MasterPart,
    table: &'a TableRecord,
    tablet: Interval,
) -> Result<Family<'a>, Refusal>
    ensures exact { answer_by family_seen result ≡ found_family (Granted (record { table = table.now; tablet = tablet })) master.now.master }
{
    let Some(low_slot) = master.first_free(0) else {
        return Err(too_few(master));
    };
    let Some(high_slot) = master.first_free(low_slot) else {
        return Err(too_few(master));
    };
    Ok(Family {
        table,
        tablet,
        low_slot,
        high_slot,
    })
}

// There are no two free slots.
fn too_few(master: &MasterPart) -> Refusal
    ensures exact { refusal_of result ≡ SlotsFull (length (free_slots master.now.master)) 2 }
{
    Refusal::SlotsFull {
        free: master.count_free(),
        needed: 2,
    }
}

/// A column of a table.
#[derive(Drop)]
pub struct ColumnOf<'a> {
    pub table: &'a TableRecord,
    pub column: &'a Column,
}

/// A tablet of a table that is to be split, and the slots of its two children.
#[derive(Drop)]
pub struct Family<'a> {
    pub table: &'a TableRecord,
    pub tablet: Interval,
    pub low_slot: u32,
    pub high_slot: u32,
}
