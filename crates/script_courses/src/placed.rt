//! Items by the ids of their columns.
ghost use Rattle.std.specs.Prelude.{◌≡◌, map, IfOk};
ghost use Rattle.row_values.specs.Schema.{column_named};
ghost use Rattle.model.specs.History.{id_of_column};
ghost use Rattle.model_runs.specs.Courses as book;
ghost use Rattle.commands.specs.NamedOps.{named_op_of};

use commands::{NamedCell, NamedItem, NamedOp};
use row_values::{Batch, Cell, Cells, Item, Name, NoMemory, Records, RowOp};
use table_schema::Column;

// The id of the column of this name, and 0 where none has it.
fn id_of(columns: &[Column], name: &Name) -> u32
    ensures exact { result ≡ id_of_column (column_named columns.now name.now) }
{
    for column in columns {
        if column.name.as_slice() == name.as_slice() {
            return column.id;
        }
    }
    0
}

fn cell_by_id(columns: &[Column], cell: NamedCell) -> Cell
    ensures exact { result ≡ book.cell_by_id columns.now cell }
{
    let column = id_of(columns, &cell.column);
    Cell {
        column,
        value: cell.value,
    }
}

fn cells_by_id(columns: &[Column], cells: Records<NamedCell>) -> Result<Cells, NoMemory>
    ensures exact { IfOk result (λ placed. placed ≡ map (book.cell_by_id columns.now) cells) }
{
    let mut placed = Cells::new(cells.allocator());
    for cell in cells.into_vec() {
        placed.push(cell_by_id(columns, cell))?;
    }
    Ok(placed)
}

fn op_by_id(columns: &[Column], op: NamedOp) -> Result<RowOp, NoMemory>
    ensures exact { IfOk result (λ placed. placed ≡ book.op_by_id columns.now (named_op_of op)) }
{
    match op {
        NamedOp::Upsert(cells) => Ok(RowOp::Upsert(cells_by_id(columns, cells)?)),
        NamedOp::Delete => Ok(RowOp::Delete),
    }
}

fn item_by_id(columns: &[Column], item: NamedItem) -> Result<Item, NoMemory>
    ensures exact { IfOk result (λ placed. placed ≡ book.item_by_id columns.now item) }
{
    let op = op_by_id(columns, item.op)?;
    Ok(Item { key: item.key, op })
}

/// The items of a write, by the ids that its look placed.
pub(crate) fn batch_by_id(columns: &[Column], batch: Records<NamedItem>) -> Result<Batch, NoMemory>
    ensures exact { IfOk result (λ placed. placed ≡ map (book.item_by_id columns.now) batch) }
{
    let mut placed = Batch::new(batch.allocator());
    for item in batch.into_vec() {
        placed.push(item_by_id(columns, item)?)?;
    }
    Ok(placed)
}
