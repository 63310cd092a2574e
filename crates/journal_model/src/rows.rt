ghost use Rattle.std.specs.Prelude.{◌≡◌, None, IfOk};
ghost use Rattle.row_values.specs.Rows.{absent_row};
ghost use Rattle.model.specs.Journal.{row_at, row_after};
ghost use Rattle.journal_model.specs.Seen.{act_of};

use crate::change::{Change, ChangeAct};
use crate::tables::{goes_back, table_at};
use crate::view::{TableView, is_in, source_of};
use hybrid_time::HybridTime;
use row_values::{Key, NoMemory, Row, apply};
use std::alloc::Global;
use yb_ident::Ident;

// The table and the row that a change goes back to.
#[derive(Debug, Drop)]
struct Past {
    table: Option<TableView>,
    row: Row,
}

// The row of a key after a change, given its table and itself before it, and those that it goes back
// to.
fn row_after(
    alloc: Global,
    act: &ChangeAct,
    id: &Ident,
    key: &Key,
    table: &Option<TableView>,
    before: Row,
    past: Past,
) -> Result<Row, NoMemory>
    ensures exact { IfOk result (λ row. row ≡ row_after (act_of act.now) id.now key.now (λ i. table.now) (λ x i. past.table) (λ i k. before) (λ x i k. past.row)) }
{
    match act {
        ChangeAct::TableDropped { table: dropped } => {
            if *dropped == *id {
                Ok(Row::absent(alloc))
            } else {
                Ok(before)
            }
        }
        ChangeAct::RowChanged {
            table: changed,
            key: other,
            op,
        } => {
            if *changed == *id && other.as_slice() == key.as_slice() && table.is_some() {
                apply(alloc, &before, op)
            } else {
                Ok(before)
            }
        }
        ChangeAct::NamespaceRestored { namespace, .. } => {
            if is_in(namespace, &past.table) {
                Ok(past.row)
            } else if is_in(namespace, table) {
                Ok(Row::absent(alloc))
            } else {
                Ok(before)
            }
        }
        ChangeAct::NamespaceCloned { tables, .. } => match source_of(tables, id) {
            None => Ok(before),
            Some(_source) => Ok(past.row),
        },
        ChangeAct::NamespaceMade { .. } => Ok(before),
        ChangeAct::NamespaceDropped { .. } => Ok(before),
        ChangeAct::TableMade { .. } => Ok(before),
        ChangeAct::TableRenamed { .. } => Ok(before),
        ChangeAct::ColumnAdded { .. } => Ok(before),
        ChangeAct::ColumnDropped { .. } => Ok(before),
    }
}

/// The row of a key in the view at a time: the fold of the changes stamped by past. The changes are
/// given the newest first.
#[tactic(auto, using(crate::proofs::Steps::row_late, crate::proofs::Steps::row_seen, crate::proofs::Steps::row_reads))]
pub fn row_at(
    alloc: Global,
    changes: &[Change],
    x: HybridTime,
    id: &Ident,
    key: &Key,
) -> Result<Row, NoMemory>
    ensures exact { IfOk result (λ row. row ≡ row_at changes.now x id.now key.now) }
{
    let Some((change, earlier)) = changes.split_first() else {
        return Ok(Row::absent(alloc));
    };
    let before = row_at(alloc, earlier, x, id, key)?;
    if x.number() < change.stamp.number() {
        return Ok(before);
    }
    let table = table_at(earlier, x, id)?;
    match goes_back(&change.act, id) {
        None => {
            let past = Past {
                table: None,
                row: Row::absent(alloc),
            };
            row_after(alloc, &change.act, id, key, &table, before, past)
        }
        Some((to, source)) => {
            let past = Past {
                table: table_at(earlier, to, &source)?,
                row: row_at(alloc, earlier, to, &source, key)?,
            };
            row_after(alloc, &change.act, id, key, &table, before, past)
        }
    }
}
