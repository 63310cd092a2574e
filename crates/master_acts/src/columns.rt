//! What commands on the columns and on the name of a table come to.
ghost use Rattle.std.specs.Prelude.{ℕ, ◌≡◌, ◌<◌, ◌+◌, ◌^◌, true, is_some, IfOk};
ghost use Rattle.row_values.specs.Schema as book_schema;
ghost use Rattle.row_values.specs.Schema.{column_named};
ghost use Rattle.table_schema.specs.Seen.{column_kind_of};
ghost use Rattle.model.specs.Tablets.{Tablet};
ghost use Rattle.model.specs.Changes as book;
ghost use Rattle.master_part.specs.Acts.{IsLawful, goes_on};
ghost use Rattle.master_part.specs.Decisions.{outcome_by, MayDo};

use crate::decide::made_none;
use crate::fields::{name_of, namespace_of, schema_of, version_of};
use crate::judges::{judge_add_column, judge_drop_column, judge_rename_table};
use catalog_core::TableRecord;
use cluster_events::Reply;
use hybrid_time::HybridTime;
use master_part::{Decision, MasterAct, MasterPart, PartKind, table_id, told_all};
use row_values::{Copied, Name, NoMemory, Records, Slots};
use table_schema::{Kind, Schema};

/// One more column of a table whose active tablets are in these slots.
#[tactic(auto, using(crate::proofs::Changing::added_fits, crate::proofs::Changing::few_versions, crate::proofs::Changing::few_columns), unfolding(model::specs::Changes::add_column))]
pub fn decide_add_column(
    master: &MasterPart,
    namespace: &Name,
    table: &Name,
    name: &Name,
    kind: Kind,
    slots: &Slots,
    stamp: HybridTime,
) -> Result<Decision, NoMemory>
    requires lawful { IsLawful master.now.master }
    requires later { master.now.master.clock < stamp }
    ensures plan { IfOk result (λ d. (parts : ℕ → Tablet) → outcome_by parts d ≡ book.add_column namespace.now table.now name.now (column_kind_of kind) slots.now master.now.master) }
    ensures may { IfOk result (λ d. MayDo d stamp master.now.master) }
{
    let found = match judge_add_column(master, namespace, table, name) {
        Ok(found) => found,
        Err(why) => return Ok(Decision::Answers(Reply::Refused(why))),
    };
    let schema = with_column(schema_of(found), name, kind)?;
    let tells = PartKind::Version {
        version: version_of(&schema),
    };
    let changes = told_all(master.alloc(), slots.as_slice(), &tells)?;
    let act = MasterAct::AddsColumn {
        table: found.copy()?,
        name: name.copy()?,
        kind,
        made: going_on(found, name_of(found).copy()?, schema, stamp),
    };
    Ok(Decision::Accepts {
        act,
        changes,
        reply: made_none(master),
    })
}

/// The end of a column of a table whose active tablets are in these slots.
#[tactic(auto, using(crate::proofs::Changing::dropped_fits, crate::proofs::Changing::few_left, crate::proofs::Changing::column_known), unfolding(model::specs::Changes::drop_column))]
pub fn decide_drop_column(
    master: &MasterPart,
    namespace: &Name,
    table: &Name,
    name: &Name,
    slots: &Slots,
    stamp: HybridTime,
) -> Result<Decision, NoMemory>
    requires lawful { IsLawful master.now.master }
    requires later { master.now.master.clock < stamp }
    ensures plan { IfOk result (λ d. (parts : ℕ → Tablet) → outcome_by parts d ≡ book.drop_column namespace.now table.now name.now slots.now master.now.master) }
    ensures may { IfOk result (λ d. MayDo d stamp master.now.master) }
{
    let found = match judge_drop_column(master, namespace, table, name) {
        Ok(found) => found,
        Err(why) => return Ok(Decision::Answers(Reply::Refused(why))),
    };
    let schema = without_column(schema_of(found.table), name)?;
    let tells = PartKind::Version {
        version: version_of(&schema),
    };
    let changes = told_all(master.alloc(), slots.as_slice(), &tells)?;
    let act = MasterAct::DropsColumn {
        table: found.table.copy()?,
        column: found.column.copy()?,
        made: going_on(found.table, name_of(found.table).copy()?, schema, stamp),
    };
    Ok(Decision::Accepts {
        act,
        changes,
        reply: made_none(master),
    })
}

/// Another name of a table.
#[tactic(auto, using(crate::proofs::Changing::renamed_fits), unfolding(model::specs::Changes::rename_table))]
pub fn decide_rename_table(
    master: &MasterPart,
    namespace: &Name,
    table: &Name,
    name: &Name,
    stamp: HybridTime,
) -> Result<Decision, NoMemory>
    requires lawful { IsLawful master.now.master }
    requires later { master.now.master.clock < stamp }
    ensures plan { IfOk result (λ d. (parts : ℕ → Tablet) → outcome_by parts d ≡ book.rename_table namespace.now table.now name.now master.now.master) }
    ensures may { IfOk result (λ d. MayDo d stamp master.now.master) }
{
    let found = match judge_rename_table(master, namespace, table, name) {
        Ok(found) => found,
        Err(why) => return Ok(Decision::Answers(Reply::Refused(why))),
    };
    let act = MasterAct::RenamesTable {
        table: found.copy()?,
        name: name.copy()?,
        made: going_on(found, name.copy()?, schema_of(found).copy()?, stamp),
    };
    Ok(Decision::Accepts {
        act,
        changes: Records::new(master.alloc()),
        reply: made_none(master),
    })
}

// The record under which a table goes on.
fn going_on(table: &TableRecord, name: Name, schema: Schema, stamp: HybridTime) -> TableRecord
    ensures exact { result ≡ goes_on table.now name schema stamp }
{
    TableRecord {
        id: table_id(table),
        namespace: namespace_of(table),
        name,
        schema,
        from: stamp,
        to: None,
    }
}

// A schema with one more column. That none has its name, and that there is room for it, was judged before.
fn with_column(schema: &Schema, name: &Name, kind: Kind) -> Result<Schema, NoMemory>
    requires version { schema.now.version + 1 < 2 ^ 32 }
    requires next { schema.now.next + 1 < 2 ^ 32 }
    ensures exact { IfOk result (λ made. made ≡ book_schema.with_column name.now (column_kind_of kind) schema.now) }
{
    let mut made = schema.copy()?;
    match made.add(name.copy()?, kind) {
        Ok(_) => Ok(made),
        Err(_) => Err(NoMemory),
    }
}

// A schema without one of its columns.
fn without_column(schema: &Schema, name: &Name) -> Result<Schema, NoMemory>
    requires version { schema.now.version + 1 < 2 ^ 32 }
    requires known { is_some (column_named schema.now.columns name.now) ≡ true }
    ensures exact { IfOk result (λ made. made ≡ book_schema.without_column name.now schema.now) }
{
    let mut made = schema.copy()?;
    match made.remove(name) {
        Ok(_) => Ok(made),
        Err(_) => unreachable!(),
    }
}
