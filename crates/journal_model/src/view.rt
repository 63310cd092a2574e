ghost use Rattle.std.specs.Prelude.{◌≡◌, ◌==◌, not, filter, Some, None, IfOk};
ghost use Rattle.row_values.specs.Ids.{same};
ghost use Rattle.model.specs.Journal.{is_in, renamed, with_column, without_column, moved_to, source_of, restored_table};

use crate::change::TablePair;
use row_values::{Copied, Name, NoMemory, Records};
use std::marker::Model;
use table_schema::Column;
use yb_ident::Ident;

/// A table as the view has it. Contracts see it as the book's.
#[derive(Debug, Drop, PartialEq, Eq)]
pub struct TableView {
    pub namespace: Ident,
    pub name: Name,
    pub columns: Records<Column>,
}

impl Model for TableView {
    ghost use Rattle.model.specs.Journal.{TableView};

    ghost Value = { TableView };

    ghost view = { λ t. record { namespace = t.namespace; name = t.name; columns = t.columns } };

    ghost inverse = { λ v. record { namespace = v.namespace; name = v.name; columns = v.columns } };
}

// Whether a table is there, in a namespace.
pub fn is_in(namespace: &Ident, table: &Option<TableView>) -> bool
    ensures { result ≡ is_in namespace.now table.now }
{
    match table {
        None => false,
        Some(table) => table.namespace == *namespace,
    }
}

// A table that was just made.
pub fn made(
    namespace: Ident,
    name: &Name,
    columns: &Records<Column>,
) -> Result<Option<TableView>, NoMemory>
    ensures { IfOk result (λ t. t ≡ Some (record { namespace = namespace; name = name.now; columns = columns.now })) }
{
    Ok(Some(TableView {
        namespace,
        name: name.copy()?,
        columns: columns.copy()?,
    }))
}

pub fn renamed(name: &Name, table: Option<TableView>) -> Result<Option<TableView>, NoMemory>
    ensures { IfOk result (λ t. t ≡ renamed name.now table) }
{
    match table {
        None => Ok(None),
        Some(table) => Ok(Some(TableView {
            namespace: table.namespace,
            name: name.copy()?,
            columns: table.columns,
        })),
    }
}

pub fn with_column(column: &Column, table: Option<TableView>) -> Result<Option<TableView>, NoMemory>
    ensures { IfOk result (λ t. t ≡ with_column column.now table) }
{
    match table {
        None => Ok(None),
        Some(mut table) => {
            table.columns.push(column.copy()?)?;
            Ok(Some(table))
        }
    }
}

// The columns without one.
fn left_of(columns: &Records<Column>, column: u32) -> Result<Records<Column>, NoMemory>
    ensures { IfOk result (λ cs. cs ≡ filter (λ c. not (c.id == column)) columns.now) }
{
    let mut left = Records::new(columns.allocator());
    for other in columns.as_slice() {
        if other.id != column {
            left.push(other.copy()?)?;
        }
    }
    Ok(left)
}

pub fn without_column(column: u32, table: Option<TableView>) -> Result<Option<TableView>, NoMemory>
    ensures { IfOk result (λ t. t ≡ without_column column table) }
{
    match table {
        None => Ok(None),
        Some(table) => {
            let columns = left_of(&table.columns, column)?;
            Ok(Some(TableView {
                namespace: table.namespace,
                name: table.name,
                columns,
            }))
        }
    }
}

// A table as it was, in another namespace.
pub fn moved_to(namespace: Ident, table: Option<TableView>) -> Option<TableView>
    ensures { result ≡ moved_to namespace table }
{
    match table {
        None => None,
        Some(table) => Some(TableView {
            namespace,
            name: table.name,
            columns: table.columns,
        }),
    }
}

// A table of a namespace that is as it was at a time: the table past, or else the one before, unless it is of the
// namespace.
pub fn restored(
    namespace: &Ident,
    past: Option<TableView>,
    before: Option<TableView>,
) -> Option<TableView>
    ensures { result ≡ restored_table namespace.now past before }
{
    if is_in(namespace, &past) {
        past
    } else if is_in(namespace, &before) {
        None
    } else {
        before
    }
}

// The table of the source that a table of a clone stands for.
pub fn source_of(tables: &Records<TablePair>, target: &Ident) -> Option<Ident>
    ensures { result ≡ source_of tables.now target.now }
{
    for pair in tables.as_slice() {
        if pair.target == *target {
            return Some(pair.source);
        }
    }
    None
}
