//! What a look reads of a batch whose columns are named. None of these calls takes memory.
ghost use Rattle.std.specs.Prelude.{◌≡◌};
ghost use Rattle.std.specs.Option.{option_map};
ghost use Rattle.row_values.specs.Ranges.{in_range};
ghost use Rattle.row_values.specs.Schema.{column_named, is_of_kind};
ghost use Rattle.model.specs.Looks as book;
ghost use Rattle.commands.specs.NamedOps.{named_op_of};
ghost use Rattle.cluster_events.specs.SeenReplies.{refusal_of};

use catalog_tablets::Interval;
use cluster_events::Refusal;
use commands::{NamedCell, NamedItem, NamedOp};
use partition_codes::code;
use row_values::{Key, Value};
use table_schema::{Column, Schema};

// Whether a column takes a value.
fn takes(column: &Column, value: &Value) -> bool
    ensures exact { result ≡ is_of_kind column.now.kind value.now }
{
    column.kind.takes(value)
}

// What is wrong with a cell.
fn value_fault(schema: &Schema, cell: &NamedCell) -> Option<Refusal>
    ensures exact { option_map refusal_of result ≡ book.value_fault (column_named schema.now.columns cell.now.column) cell.now.value }
{
    let Some(column) = schema.column(&cell.column) else {
        return Some(Refusal::UnknownColumn);
    };
    if takes(column, &cell.value) {
        None
    } else {
        Some(Refusal::WrongKind)
    }
}

// What is wrong with the first cell that is faulty.
fn cells_fault(schema: &Schema, cells: &[NamedCell]) -> Option<Refusal>
    ensures exact { option_map refusal_of result ≡ book.cells_fault schema.now.columns cells.now }
{
    for cell in cells {
        if let Some(why) = value_fault(schema, cell) {
            return Some(why);
        }
    }
    None
}

// The same of an item.
fn item_fault(schema: &Schema, item: &NamedItem) -> Option<Refusal>
    ensures exact { option_map refusal_of result ≡ book.op_fault schema.now.columns item.now.op }
{
    match &item.op {
        NamedOp::Upsert(cells) => cells_fault(schema, cells.as_slice()),
        NamedOp::Delete => None,
    }
}

/// The same of a batch.
pub fn batch_fault(schema: &Schema, batch: &[NamedItem]) -> Option<Refusal>
    ensures exact { option_map refusal_of result ≡ book.batch_fault schema.now.columns batch.now }
{
    for item in batch {
        if let Some(why) = item_fault(schema, item) {
            return Some(why);
        }
    }
    None
}

fn key_of(item: &NamedItem) -> &Key
    ensures exact { result.now ≡ item.now.key }
{
    &item.key
}

/// The code of a batch's first key.
pub fn first_code(batch: &[NamedItem]) -> u16
    ensures exact { result ≡ book.first_code batch.now }
{
    match batch.first() {
        Some(item) => code(key_of(item)),
        None => 0,
    }
}

// Whether a tablet holds a code.
fn holds(interval: &Interval, code: u16) -> bool
    ensures exact { result ≡ in_range interval.now.low interval.now.high code }
{
    interval.range.holds(code)
}

/// The code of the first key that isn't in a tablet's range.
pub fn code_outside(home: &Interval, batch: &[NamedItem]) -> Option<u16>
    ensures exact { result ≡ book.code_outside home.now batch.now }
{
    for item in batch {
        let code = code(key_of(item));
        if !holds(home, code) {
            return Some(code);
        }
    }
    None
}
