ghost use Rattle.std.specs.Prelude.{◌≡◌, None, Some, IfOk, if◌then◌else◌};
ghost use Rattle.model.specs.Journal.{table_at, table_after, renamed, with_column, without_column, restored_table, cloned_table};
ghost use Rattle.journal_model.specs.Seen.{act_of};
ghost use Rattle.journal_model.specs.Back.{goes_back, gone_to};

use crate::change::{Change, ChangeAct};
use crate::view::{
    TableView, made, moved_to, renamed, restored, source_of, with_column, without_column,
};
use hybrid_time::HybridTime;
use row_values::{Name, NoMemory, Records};
use table_schema::Column;
use yb_ident::Ident;

// To which table, and to which time, a change goes back.
pub fn goes_back(act: &ChangeAct, id: &Ident) -> Option<(HybridTime, Ident)>
    ensures { result ≡ goes_back (act_of act.now) id.now }
{
    match act {
        ChangeAct::NamespaceRestored { to, .. } => Some((*to, *id)),
        ChangeAct::NamespaceCloned { to, tables, .. } => match source_of(tables, id) {
            None => None,
            Some(source) => Some((*to, source)),
        },
        ChangeAct::NamespaceMade { .. } => None,
        ChangeAct::NamespaceDropped { .. } => None,
        ChangeAct::TableMade { .. } => None,
        ChangeAct::TableRenamed { .. } => None,
        ChangeAct::TableDropped { .. } => None,
        ChangeAct::ColumnAdded { .. } => None,
        ChangeAct::ColumnDropped { .. } => None,
        ChangeAct::RowChanged { .. } => None,
    }
}

// A table after a change, given the table before it, and the one that it goes back to.
fn table_after(
    act: &ChangeAct,
    id: &Ident,
    before: Option<TableView>,
    past: Option<TableView>,
) -> Result<Option<TableView>, NoMemory>
    ensures exact { IfOk result (λ t. t ≡ table_after (act_of act.now) id.now (λ i. before) (λ x i. past)) }
{
    match act {
        ChangeAct::TableMade {
            table,
            namespace,
            name,
            columns,
        } => makes(*table == *id, *namespace, name, columns, before, past),
        ChangeAct::TableRenamed { table, name } => renames(*table == *id, name, before, past),
        ChangeAct::TableDropped { table } => drops(*table == *id, before, past),
        ChangeAct::ColumnAdded { table, column } => adds(*table == *id, column, before, past),
        ChangeAct::ColumnDropped { table, column } => takes(*table == *id, *column, before, past),
        ChangeAct::NamespaceRestored { namespace, .. } => brings(namespace, before, past),
        ChangeAct::NamespaceCloned { target, tables, .. } => {
            clones(source_of(tables, id), *target, before, past)
        }
        ChangeAct::NamespaceMade { .. } => drops(false, before, past),
        ChangeAct::NamespaceDropped { .. } => drops(false, before, past),
        ChangeAct::RowChanged { .. } => drops(false, before, past),
    }
}

// The table is made, if it is this one.
fn makes(
    mine: bool,
    namespace: Ident,
    name: &Name,
    columns: &Records<Column>,
    before: Option<TableView>,
    _past: Option<TableView>,
) -> Result<Option<TableView>, NoMemory>
    ensures exact { IfOk result (λ t. t ≡ (if mine then Some (record { namespace = namespace; name = name.now; columns = columns.now }) else before)) }
{
    if mine {
        made(namespace, name, columns)
    } else {
        Ok(before)
    }
}

fn renames(
    mine: bool,
    name: &Name,
    before: Option<TableView>,
    _past: Option<TableView>,
) -> Result<Option<TableView>, NoMemory>
    ensures exact { IfOk result (λ t. t ≡ (if mine then renamed name.now before else before)) }
{
    if mine {
        renamed(name, before)
    } else {
        Ok(before)
    }
}

fn drops(
    mine: bool,
    before: Option<TableView>,
    _past: Option<TableView>,
) -> Result<Option<TableView>, NoMemory>
    ensures exact { IfOk result (λ t. t ≡ (if mine then None else before)) }
{
    if mine { Ok(None) } else { Ok(before) }
}

fn adds(
    mine: bool,
    column: &Column,
    before: Option<TableView>,
    _past: Option<TableView>,
) -> Result<Option<TableView>, NoMemory>
    ensures exact { IfOk result (λ t. t ≡ (if mine then with_column column.now before else before)) }
{
    if mine {
        with_column(column, before)
    } else {
        Ok(before)
    }
}

fn takes(
    mine: bool,
    column: u32,
    before: Option<TableView>,
    _past: Option<TableView>,
) -> Result<Option<TableView>, NoMemory>
    ensures exact { IfOk result (λ t. t ≡ (if mine then without_column column before else before)) }
{
    if mine {
        without_column(column, before)
    } else {
        Ok(before)
    }
}

// The table is as it was, if it is of the namespace.
fn brings(
    namespace: &Ident,
    before: Option<TableView>,
    past: Option<TableView>,
) -> Result<Option<TableView>, NoMemory>
    ensures exact { IfOk result (λ t. t ≡ restored_table namespace.now past before) }
{
    Ok(restored(namespace, past, before))
}

// The table is as its source was, if it has one.
fn clones(
    source: Option<Ident>,
    target: Ident,
    before: Option<TableView>,
    past: Option<TableView>,
) -> Result<Option<TableView>, NoMemory>
    ensures exact { IfOk result (λ t. t ≡ cloned_table source target (λ i. past) before) }
{
    match source {
        None => Ok(before),
        Some(_source) => Ok(moved_to(target, past)),
    }
}

/// A table in the view at a time; none where it is not there. The changes are given the newest first.
#[tactic(auto, using(crate::proofs::Steps::table_late, crate::proofs::Steps::table_seen, crate::proofs::Steps::table_reads))]
pub fn table_at(
    changes: &[Change],
    x: HybridTime,
    id: &Ident,
) -> Result<Option<TableView>, NoMemory>
    ensures exact { IfOk result (λ t. t ≡ table_at changes.now x id.now) }
{
    let Some((change, earlier)) = changes.split_first() else {
        return Ok(None);
    };
    let before = table_at(earlier, x, id)?;
    if x.number() < change.stamp.number() {
        return Ok(before);
    }
    match goes_back(&change.act, id) {
        None => table_after(&change.act, id, before, None),
        Some((to, source)) => {
            let past = table_at(earlier, to, &source)?;
            table_after(&change.act, id, before, past)
        }
    }
}
