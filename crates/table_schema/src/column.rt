use crate::kind::Kind;
use row_values::{Copied, Name, NoMemory};
use std::marker::Model;

/// A column of a table. Cells name it by its id. Contracts see it as the book's.
#[derive(Debug, Drop, PartialEq, Eq, Hash)]
pub struct Column {
    pub id: u32,
    pub name: Name,
    pub kind: Kind,
}

impl Model for Column {
    ghost use Rattle.row_values.specs.Schema.{Column};
    ghost use Rattle.table_schema.specs.Seen.{column_kind_of, column_kind_from};

    ghost Value = { Column };

    ghost view = { λ c. record { id = c.id; name = c.name; kind = column_kind_of c.kind } };

    ghost inverse = { λ v. record { id = v.id; name = v.name; kind = column_kind_from v.kind } };
}

/// A column that has no id yet. Contracts see it as the book's.
#[derive(Debug, Drop, PartialEq, Eq, Hash)]
pub struct NewColumn {
    pub name: Name,
    pub kind: Kind,
}

impl Model for NewColumn {
    ghost use Rattle.row_values.specs.Schema.{NewColumn};
    ghost use Rattle.table_schema.specs.Seen.{column_kind_of, column_kind_from};

    ghost Value = { NewColumn };

    ghost view = { λ c. record { name = c.name; kind = column_kind_of c.kind } };

    ghost inverse = { λ v. record { name = v.name; kind = column_kind_from v.kind } };
}

impl Copied for Column {
    fn copy(&self) -> Result<Column, NoMemory> {
        Ok(Column {
            id: self.id,
            name: self.name.copy()?,
            kind: self.kind,
        })
    }
}

impl Copied for NewColumn {
    fn copy(&self) -> Result<NewColumn, NoMemory> {
        Ok(NewColumn {
            name: self.name.copy()?,
            kind: self.kind,
        })
    }
}
