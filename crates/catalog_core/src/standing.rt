ghost use Rattle.std.specs.Prelude.{◌≡◌, ◌≤◌, ◌++◌, ◌∷◌, length, take, drop, OnOk};
ghost use Rattle.model.specs.Catalog.{TableRecord, put_table};
ghost use Rattle.catalog_core.specs.Kept.{stands_in, put_standing};

use crate::records::TableRecord;
use hybrid_time::HybridTime;
use row_values::{Copied, NoMemory};
use yb_ident::Ident;

// Whether a record is of the namespace, and held at a time.
fn stands_in(table: &TableRecord, namespace: &Ident, x: HybridTime) -> bool
    ensures exact { result ≡ stands_in namespace.now x table.now }
{
    table.from.number() <= x.number()
        && match table.to {
            None => true,
            Some(to) => x.number() < to.number(),
        }
        && table.namespace == *namespace
}

// Where a table comes in order of id: before the first with a greater number.
fn place_of(found: &[TableRecord], number: u64) -> usize
    ensures within { result ≤ length found.now }
    ensures put { (t : TableRecord) → t.id.number ≡ number → put_table t found.now ≡ take result found.now ++ t ∷ drop result found.now }
{
    let mut place = 0;
    for other in found {
        if number < other.id.number {
            return place;
        }
        place += 1;
    }
    place
}

// Takes in a record if it is of the namespace and held at a time.
pub fn put_standing(
    found: &mut Vec<TableRecord>,
    table: &TableRecord,
    namespace: &Ident,
    x: HybridTime,
) -> Result<(), NoMemory>
    ensures put { OnOk result (found.new.items ≡ put_standing namespace.now x table.now found.old.items) }
{
    if stands_in(table, namespace, x) {
        let place = place_of(found.as_slice(), table.id.number);
        let copy = table.copy()?;
        found.insert(place, copy)?;
    }
    Ok(())
}
