use row_values::{Copied, Key, Name, NoMemory, Records, Value};
use std::marker::Model;

/// A value in a column, which is named as a client writes it. Contracts see it as the book's.
#[derive(Debug, Drop, PartialEq, Eq)]
pub struct NamedCell {
    pub column: Name,
    pub value: Value,
}

impl Model for NamedCell {
    ghost use Rattle.model.specs.Acts.{NamedCell};

    ghost Value = { NamedCell };

    ghost view = { λ c. record { column = c.column; value = c.value } };

    ghost inverse = { λ v. record { column = v.column; value = v.value } };
}

/// What is done to a row: an upsert replaces the named cells in order, a delete makes it absent.
#[derive(Debug, Drop, PartialEq, Eq)]
pub enum NamedOp {
    Upsert(Records<NamedCell>),
    Delete,
}

/// An operation on the row of a key. Contracts see it as the book's.
#[derive(Debug, Drop, PartialEq, Eq)]
pub struct NamedItem {
    pub key: Key,
    pub op: NamedOp,
}

impl Model for NamedItem {
    ghost use Rattle.model.specs.Acts.{NamedItem};
    ghost use Rattle.commands.specs.NamedOps.{named_op_of, named_op_from};

    ghost Value = { NamedItem };

    ghost view = { λ i. record { key = i.key; op = named_op_of i.op } };

    ghost inverse = { λ v. record { key = v.key; op = named_op_from v.op } };
}

impl Copied for NamedCell {
    fn copy(&self) -> Result<NamedCell, NoMemory> {
        Ok(NamedCell {
            column: self.column.copy()?,
            value: self.value.copy()?,
        })
    }
}

impl Copied for NamedOp {
    fn copy(&self) -> Result<NamedOp, NoMemory> {
        match self {
            NamedOp::Upsert(cells) => Ok(NamedOp::Upsert(cells.copy()?)),
            NamedOp::Delete => Ok(NamedOp::Delete),
        }
    }
}

impl Copied for NamedItem {
    fn copy(&self) -> Result<NamedItem, NoMemory> {
        Ok(NamedItem {
            key: self.key.copy()?,
            op: self.op.copy()?,
        })
    }
}
