ghost use Rattle.std.specs.Prelude.{◌≡◌, ◌≢◌, ◌<◌, ◌≤◌, ◌-◌, ◌^◌, None, not, filter, length, AllPairs, IfOk, IfErr, OnOk, OnErr};
ghost use Rattle.std.specs.Str.{bytes_eq};
ghost use Rattle.std.specs.Option.{option_copied};
ghost use Rattle.row_values.specs.Schema as book;
ghost use Rattle.row_values.specs.Schema.{column_named, first_schema, with_column, without_column};
ghost use Rattle.table_schema.specs.Seen.{column_kind_of};
ghost use Rattle.table_schema.specs.Columns.{add_refusal, Answers, id_of, fitting, NoIdReturns};

use crate::column::{Column, NewColumn};
use crate::kind::Kind;
use row_values::{Copied, Name, NoMemory, Records, Value};
use std::alloc::Global;
use std::marker::Model;

const MOST_COLUMNS: u64 = 16;

/// The columns of a table, in order of id, with names that differ. Contracts see it as the book's.
#[derive(Debug, Drop, PartialEq, Eq)]
pub struct Schema {
    /// 1, plus the changes of the columns.
    pub version: u32,
    /// One more than the greatest id that was ever given to the table.
    pub next: u32,
    pub columns: Records<Column>,
}

impl Model for Schema {
    ghost use Rattle.row_values.specs.Schema.{Schema};
    ghost use Rattle.table_schema.specs.Columns.{IsSchema};

    ghost Value = { Schema };

    ghost view = { λ s. record { version = s.version; next = s.next; columns = s.columns } };

    ghost invariant = { λ s. IsSchema (record { version = s.version; next = s.next; columns = s.columns }) };

    ghost inverse = { λ s. record { version = s.version; next = s.next; columns = s.columns } };
}

/// Why a schema is not changed, or a value not taken.
#[derive(Debug, Drop, PartialEq, Eq)]
pub enum SchemaRefused {
    NameTaken,
    TooMany { limit: u32 },
    UnknownColumn,
    WrongKind,
    NoMemory,
}

impl Schema {
    /// The schema of a new table, at version 1 with ids from 1 on.
    pub fn of_columns(alloc: Global, columns: &[NewColumn]) -> Result<Schema, NoMemory>
        requires few { length columns.now ≤ 16 }
        requires apart { AllPairs (λ c d. c.name ≢ d.name) columns.now }
        ensures made { IfOk result (λ schema. schema ≡ first_schema columns.now) }
    {
        let mut made = Records::new(alloc);
        let mut next = 1u32;
        for column in columns {
            made.push(Column {
                id: next,
                name: column.name.copy()?,
                kind: column.kind,
            })?;
            next += 1;
        }
        Ok(Schema {
            version: 1,
            next,
            columns: made,
        })
    }

    /// The column of this name.
    pub fn column(&self, name: &Name) -> Option<&Column>
        ensures exact { option_copied result ≡ column_named self.now.columns name.now }
    {
        for column in self.columns.as_slice() {
            if column.name.as_slice() == name.as_slice() {
                return Some(column);
            }
        }
        None
    }

    /// Adds a column behind the others and answers its id, which no column of the table ever had.
    /// The version rises.
    #[tactic(auto, using(crate::proofs::Ids::no_id_returns_same))]
    pub fn add(&mut self, name: Name, kind: Kind) -> Result<u32, SchemaRefused>
        requires version { self.old.version < 2 ^ 32 - 1 }
        requires next { self.old.next < 2 ^ 32 - 1 }
        ensures id { IfOk result (λ id. id ≡ self.old.next) }
        ensures added { OnOk result (self.new ≡ with_column name (column_kind_of kind) self.old) }
        ensures free { OnOk result (add_refusal self.old name ≡ None) }
        ensures refused { IfErr result (λ why. Answers (add_refusal self.old name) why) }
        ensures kept { OnErr result (self.new ≡ self.old) }
        ensures ids { NoIdReturns self.old self.new }
    {
        if self.column(&name).is_some() {
            return Err(SchemaRefused::NameTaken);
        }
        if self.columns.len() >= MOST_COLUMNS {
            return Err(SchemaRefused::TooMany { limit: 16 });
        }
        let id = self.next;
        let Ok(()) = self.columns.push(Column { id, name, kind }) else {
            return Err(SchemaRefused::NoMemory);
        };
        self.next = id + 1;
        self.version += 1;
        Ok(id)
    }

    /// Drops a column and answers its id, which is never given again. The version rises. It takes
    /// no memory.
    #[tactic(auto, using(crate::proofs::Ids::no_id_returns_same))]
    pub fn remove(&mut self, name: &Name) -> Result<u32, SchemaRefused>
        requires version { self.old.version < 2 ^ 32 - 1 }
        ensures exact { result ≡ id_of (column_named self.old.columns name.now) }
        ensures removed { OnOk result (self.new ≡ without_column name.now self.old) }
        ensures kept { OnErr result (self.new ≡ self.old) }
        ensures ids { NoIdReturns self.old self.new }
    {
        let id = match self.column(name) {
            Some(column) => column.id,
            None => return Err(SchemaRefused::UnknownColumn),
        };
        let none = Records::new(self.columns.allocator());
        let columns = std::mem::replace(&mut self.columns, none);
        self.columns = without(columns, name);
        self.version += 1;
        Ok(id)
    }

    /// The id of the column of this name, where it takes the value. It takes no memory.
    pub fn fits(&self, name: &Name, value: &Value) -> Result<u32, SchemaRefused>
        ensures exact { result ≡ fitting (column_named self.now.columns name.now) value.now }
    {
        match self.column(name) {
            None => Err(SchemaRefused::UnknownColumn),
            Some(column) if column.kind.takes(value) => Ok(column.id),
            Some(_) => Err(SchemaRefused::WrongKind),
        }
    }
}

// The columns of other names.
fn without(columns: Records<Column>, name: &Name) -> Records<Column>
    ensures { result ≡ filter (λ c. not (bytes_eq c.name name.now)) columns }
{
    let mut columns = columns.into_vec();
    columns.retain(|column| column.name.as_slice() != name.as_slice());
    Records::from_vec(columns)
}

impl Copied for Schema {
    fn copy(&self) -> Result<Schema, NoMemory> {
        Ok(Schema {
            version: self.version,
            next: self.next,
            columns: self.columns.copy()?,
        })
    }
}

/// Over any row of changes, of each of which `NoIdReturns` is said, no id of a dropped column comes
/// back.
pub fn ids_never_return()
    ensures law { (a b c : book.Schema) → NoIdReturns a b → NoIdReturns b c → NoIdReturns a c }
{}
