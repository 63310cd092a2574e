use crate::copied::Copied;
use crate::key::Key;
use crate::no_memory::NoMemory;
use crate::records::Records;

/// Bytes, as a text value or a line of a script.
pub type Bytes = Records<u8>;

/// The cells of a row or of an upsert.
pub type Cells = Records<Cell>;

/// Items that one write applies in order, under one stamp.
pub type Batch = Records<Item>;

/// Numbers of slots: 0 is the master's, tablets have those from 1 on.
pub type Slots = Records<u32>;

/// The value of a cell: a signed number, a text of at most 256 bytes, or null.
#[derive(Debug, Drop, PartialEq, Eq, PartialOrd, Ord, Hash)]
pub enum Value {
    Int(i64),
    Text(Bytes),
    Null,
}

/// A value in a column, which is named by its id.
#[derive(Debug, Drop, PartialEq, Eq, PartialOrd, Ord, Hash)]
pub struct Cell {
    pub column: u32,
    pub value: Value,
}

/// What is done to a row: an upsert replaces the named cells in order, a delete makes it absent.
#[derive(Debug, Drop, PartialEq, Eq, PartialOrd, Ord, Hash)]
pub enum RowOp {
    Upsert(Cells),
    Delete,
}

/// An operation on the row of a key.
#[derive(Debug, Drop, PartialEq, Eq, PartialOrd, Ord, Hash)]
pub struct Item {
    pub key: Key,
    pub op: RowOp,
}

impl Copied for Value {
    fn copy(&self) -> Result<Value, NoMemory> {
        match self {
            Value::Int(number) => Ok(Value::Int(*number)),
            Value::Text(text) => Ok(Value::Text(text.copy()?)),
            Value::Null => Ok(Value::Null),
        }
    }
}

impl Copied for Cell {
    fn copy(&self) -> Result<Cell, NoMemory> {
        Ok(Cell {
            column: self.column,
            value: self.value.copy()?,
        })
    }
}

impl Copied for RowOp {
    fn copy(&self) -> Result<RowOp, NoMemory> {
        match self {
            RowOp::Upsert(cells) => Ok(RowOp::Upsert(cells.copy()?)),
            RowOp::Delete => Ok(RowOp::Delete),
        }
    }
}

impl Copied for Item {
    fn copy(&self) -> Result<Item, NoMemory> {
        Ok(Item {
            key: self.key.copy()?,
            op: self.op.copy()?,
        })
    }
}
