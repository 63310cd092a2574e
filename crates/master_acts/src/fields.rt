//! Fields of records, as the book's.
ghost use Rattle.std.specs.Prelude.{◌≡◌, length};

use catalog_core::TableRecord;
use catalog_tablets::Interval;
use row_values::{Name, Records};
use table_schema::{Column, Schema};
use yb_ident::Ident;

pub fn namespace_of(table: &TableRecord) -> Ident
    ensures exact { result ≡ table.now.namespace }
{
    table.namespace
}

/// The name of a table.
pub fn name_of(table: &TableRecord) -> &Name
    ensures exact { result.now ≡ table.now.name }
{
    &table.name
}

pub fn schema_of(table: &TableRecord) -> &Schema
    ensures exact { result.now ≡ table.now.schema }
{
    &table.schema
}

fn columns_of(schema: &Schema) -> &Records<Column>
    ensures exact { result.now ≡ schema.now.columns }
{
    &schema.columns
}

pub fn count_columns(table: &TableRecord) -> u64
    ensures exact { result ≡ length table.now.schema.columns }
{
    columns_of(schema_of(table)).len()
}

pub fn low_of(interval: &Interval) -> u32
    ensures exact { result ≡ interval.now.low }
{
    interval.range.low
}

pub fn slot_of(interval: &Interval) -> u32
    ensures exact { result ≡ interval.now.slot }
{
    interval.slot
}

pub fn version_of(schema: &Schema) -> u32
    ensures exact { result ≡ schema.now.version }
{
    schema.version
}
