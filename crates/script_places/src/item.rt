//! Items: what is done to the rows of a batch.

ghost use Rattle.std.specs.Prelude.{◌≡◌, []};
ghost use Rattle.script_words.specs.Reading.{Gives, same};
ghost use Rattle.commands.specs.NamedOps.{named_op_of};
ghost use Rattle.script_places.specs.Groups.{groups};
ghost use Rattle.script_places.specs.Items.{is_delete, op_of, item_of, items_from};

use crate::groups::first_group;
use crate::names::key_at;
use crate::values::cells;
use commands::{NamedItem, NamedOp};
use row_values::{Bytes, Records};
use script_words::LineError;
use std::alloc::Global;

fn is_delete(words: &[Bytes]) -> bool
    ensures exact { result ≡ is_delete words.now }
{
    match words {
        [word] => word.as_slice() == b"delete".as_slice(),
        _ => false,
    }
}

#[tactic(auto, unfolding(crate::specs::Items::op_of))]
fn op(alloc: Global, words: &[Bytes]) -> Result<NamedOp, LineError>
    ensures exact { Gives named_op_of result (op_of words.now) }
{
    if is_delete(words) {
        return Ok(NamedOp::Delete);
    }
    let cells = cells(alloc, words)?;
    Ok(NamedOp::Upsert(cells))
}

// A key and cells, or a key and `delete`.
#[tactic(auto, unfolding(crate::specs::Items::item_of))]
fn item(alloc: Global, words: &[Bytes]) -> Result<NamedItem, LineError>
    ensures exact { Gives same result (item_of words.now) }
{
    let (key, rest) = key_at(alloc, words)?;
    let op = op(alloc, rest)?;
    Ok(NamedItem { key, op })
}

/// The words as items, between which slashes stand.
#[tactic(auto, unfolding(crate::specs::Items::items_from))]
pub fn items(alloc: Global, words: &[Bytes]) -> Result<Records<NamedItem>, LineError>
    ensures exact { Gives same result (items_from [] (groups words.now)) }
{
    let mut items = Records::new(alloc);
    let mut rest = words;
    loop {
        let (group, behind) = first_group(rest);
        let item = item(alloc, group)?;
        items.push(item)?;
        match behind {
            Some(others) => rest = others,
            None => return Ok(items),
        }
    }
}
