ghost use Rattle.std.specs.Prelude.{◌≡◌, ◌≤◌, ◌<◌, ◌↔◌, IfOk, IfErr, OnOk, MatchOption, MatchResult, insert, slice_set, ◌++◌, take, drop, length, slice_get, [], ◌∷◌};
ghost use Rattle.std.specs.Option.{ForSome};
ghost use Rattle.row_values.specs.Rows.{put_cell, put_cells, applied, value_at, cut_to, absent_row};

use crate::copied::Copied;
use crate::key::Key;
use crate::no_memory::NoMemory;
use crate::records::Records;
use crate::value::{Cell, Cells, RowOp, Value};
use std::alloc::Global;

/// A row: absent, or its cells in order of column.
#[derive(Debug, Drop, PartialEq, Eq)]
pub struct Row {
    pub present: bool,
    pub cells: Cells,
}

/// A row with its key.
#[derive(Debug, Drop, PartialEq, Eq)]
pub struct KeyedRow {
    pub key: Key,
    pub row: Row,
}

/// Rows with their keys.
pub type Rows = Records<KeyedRow>;

impl Row {
    /// The absent row, which takes no memory.
    pub fn absent(alloc: Global) -> Row
        ensures { result ≡ absent_row }
    {
        Row {
            present: false,
            cells: Cells::new(alloc),
        }
    }
}

impl Copied for KeyedRow {
    fn copy(&self) -> Result<KeyedRow, NoMemory> {
        Ok(KeyedRow {
            key: self.key.copy()?,
            row: self.row.copy()?,
        })
    }
}

impl Copied for Row {
    fn copy(&self) -> Result<Row, NoMemory> {
        Ok(Row {
            present: self.present,
            cells: self.cells.copy()?,
        })
    }
}

// The place of the cell of this column, or as an error the place where one goes.
fn place_of(cells: &[Cell], column: u32) -> Result<usize, usize>
    ensures within { MatchResult result (λ i. i < length cells.now) (λ i. i ≤ length cells.now) }
    ensures found { IfOk result (λ i. (c : _) → c.column ≡ column → put_cell c cells.now ≡ slice_set cells.now i c) }
    ensures absent { IfErr result (λ i. (c : _) → c.column ≡ column → put_cell c cells.now ≡ insert cells.now i c) }
{
    for (i, cell) in cells.iter().enumerate() {
        if cell.column == column {
            return Ok(i);
        }
        if column < cell.column {
            return Err(i);
        }
    }
    Err(cells.len())
}

fn put_into(cells: &mut Cells, cell: Cell) -> Result<(), NoMemory>
    ensures { OnOk result (cells.new ≡ put_cell cell cells.old) }
{
    match place_of(cells.as_slice(), cell.column) {
        Ok(i) => {
            cells.set(i, cell);
            Ok(())
        }
        Err(i) => cells.insert(i, cell),
    }
}

/// The row after the operation.
pub fn apply(alloc: Global, row: &Row, op: &RowOp) -> Result<Row, NoMemory>
    ensures { IfOk result (λ next. next ≡ applied row.now op.now) }
{
    match op {
        RowOp::Delete => Ok(Row {
            present: false,
            cells: Cells::new(alloc),
        }),
        RowOp::Upsert(upserts) => {
            let mut cells = if row.present {
                row.cells.copy()?
            } else {
                Cells::new(alloc)
            };
            for cell in upserts.as_slice() {
                put_into(&mut cells, cell.copy()?)?;
            }
            Ok(Row {
                present: true,
                cells,
            })
        }
    }
}

fn find(cells: &[Cell], column: u32) -> Option<&Value>
    ensures { MatchOption result (value_at cells.now column ≡ Value.Null) (λ v. value_at cells.now column ≡ v.now) }
{
    for cell in cells {
        if cell.column == column {
            return Some(&cell.value);
        }
    }
    None
}

/// The row with these columns, in this order.
pub fn cut(alloc: Global, row: &Row, columns: &[u32]) -> Result<Row, NoMemory>
    ensures { IfOk result (λ shown. shown ≡ cut_to row.now columns.now) }
{
    let mut cells = Cells::new(alloc);
    for column in columns {
        let value = match find(row.cells.as_slice(), *column) {
            Some(value) => value.copy()?,
            None => Value::Null,
        };
        cells.push(Cell {
            column: *column,
            value,
        })?;
    }
    Ok(Row {
        present: row.present,
        cells,
    })
}

#[cfg(test)]
mod tests {
    use super::*;
    use std::test::Fail;

    #[test]
    fn an_upsert_of_a_deleted_row_makes_it_present(rt: HostRuntime) -> Result<(), Fail> {
        let alloc = rt.alloc();
        let mut cells = Cells::new(alloc);
        cells.push(Cell {
            column: 1,
            value: Value::Int(7),
        })?;
        let gone = apply(alloc, &Row::absent(alloc), &RowOp::Delete)?;
        let row = apply(alloc, &gone, &RowOp::Upsert(cells))?;
        assert!(rt; row.present);
        assert_eq!(rt; row.cells.len(), 1);
        let shown = cut(alloc, &row, &[2, 1])?;
        assert_eq!(rt; shown.cells.len(), 2);
        let mut lists: Records<Records<u32>> = Records::new(alloc);
        let mut slots = Records::new(alloc);
        slots.push(3)?;
        lists.push(slots)?;
        let copied = lists.copy()?;
        assert_eq!(rt; copied.len(), 1);
        assert!(rt; matches!(copied.get(0), Some(slots) if slots.len() == 1));
        assert!(rt; copied.get(1).is_none());
        Ok(())
    }
}
