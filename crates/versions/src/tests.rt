ghost use Rattle.std.specs.Prelude.{◌≡◌, ◌<◌, ◌≤◌, ◌^◌, [], ◌∷◌, length, IfOk};
ghost use Rattle.row_values.specs.Batches.{FitsStore};
ghost use Rattle.versions.specs.Tried.{number_item, number_row, no_row};

use crate::plain::PlainStore;
use crate::store::{ReadRefused, VersionStore};
use hybrid_time::HybridTime;
use partition_codes::Range;
use row_values::{
    Batch, Bytes, Cell, Cells, Item, Key, KeyedRow, NoMemory, Records, Row, RowOp, Rows, Value,
};
use std::alloc::Global;
use std::test::Fail;

fn key_of(alloc: Global, text: &[u8]) -> Result<Key, NoMemory>
    ensures { IfOk result (λ key. key ≡ text.now) }
{
    Ok(Key::from_bytes(Bytes::from_vec(text.to_vec(alloc)?)))
}

// A batch that puts a number into column 1 of a row.
fn put_of(alloc: Global, text: &[u8], number: i64) -> Result<Batch, NoMemory>
    ensures { IfOk result (λ batch. batch ≡ number_item text.now number ∷ []) }
{
    let mut cells = Cells::new(alloc);
    cells.push(Cell {
        column: 1,
        value: Value::Int(number),
    })?;
    let mut batch: Batch = Records::new(alloc);
    batch.push(Item {
        key: key_of(alloc, text)?,
        op: RowOp::Upsert(cells),
    })?;
    Ok(batch)
}

// The number in column 1, -1 where the row is absent, -2 where the time is below the cutoff.
fn shown(answer: &Result<Row, ReadRefused>) -> i64 {
    match answer {
        Ok(row) => match row.cells.get(0) {
            Some(cell) => match &cell.value {
                Value::Int(number) => *number,
                _ => -4,
            },
            None => -1,
        },
        Err(ReadRefused::TooOld { asked, cutoff }) => {
            if asked.value == 3 && cutoff.value == 4 {
                -2
            } else {
                -5
            }
        }
        Err(ReadRefused::NoMemory) => -6,
    }
}

#[test]
fn a_key_is_read_at_each_time_from_the_cutoff_on(rt: HostRuntime) -> Result<(), Fail> {
    let alloc = rt.alloc();
    for (from, stages) in [(0, [-1, 1, 2, 2]), (4, [-5, -2, 2, 2])] {
        let mut store = PlainStore::empty(alloc, HybridTime { value: from })?;
        let first = put_of(alloc, b"x", 1)?;
        store.prepare_add(&first)?;
        store.add(first, HybridTime { value: 3 });
        let second = put_of(alloc, b"x", 2)?;
        store.prepare_add(&second)?;
        store.add(second, HybridTime { value: 4 });
        assert_eq!(rt; store.len(), 2);
        assert_eq!(rt; store.cutoff().value, from);
        let key = key_of(alloc, b"x")?;
        for x in 2..6u64 {
            let answer = store.read_at(&key, HybridTime { value: x });
            assert_eq!(rt;
                shown(&answer),
                stages[(x - 2) as usize],
                "from {from} at {x}"
            );
        }
        let other = key_of(alloc, b"y")?;
        let answer = store.read_at(&other, HybridTime { value: 9 });
        assert_eq!(rt; shown(&answer), -1);
    }
    Ok(())
}

// What each version is: the first byte of its key, its stamp, and the number that it puts, -1 for a
// delete.
fn told(alloc: Global, store: &PlainStore) -> Result<Vec<(u8, u64, i64)>, NoMemory> {
    let all = store.all_versions()?;
    let mut told = Vec::new(alloc);
    for version in all.as_slice() {
        let letter = version.key.get(0).copied().unwrap_or(0);
        told.push((letter, version.stamp.value, number_of(&version.op)))?;
    }
    Ok(told)
}

// The first byte of the key of each row at a time, and its number.
fn listed(alloc: Global, store: &PlainStore, x: u64) -> Result<Vec<(u8, i64)>, NoMemory>
    requires { x ≤ 2 ^ 62 }
{
    let mut listed = Vec::new(alloc);
    let Ok(rows) = store.rows_at(HybridTime { value: x }) else {
        return Ok(listed);
    };
    for keyed in rows.as_slice() {
        let letter = keyed.key.get(0).copied().unwrap_or(0);
        listed.push((letter, number_in(&keyed.row.cells)))?;
    }
    Ok(listed)
}

fn number_of(op: &RowOp) -> i64 {
    match op {
        RowOp::Delete => -1,
        RowOp::Upsert(cells) => number_in(cells),
    }
}

fn number_in(cells: &Cells) -> i64 {
    match cells.get(0) {
        Some(cell) => match &cell.value {
            Value::Int(number) => *number,
            _ => -3,
        },
        None => -2,
    }
}

// y at 2, x at 3 and 4; the last put is in no index yet.
fn three_puts(alloc: Global) -> Result<PlainStore, NoMemory> {
    let mut store = PlainStore::empty(alloc, HybridTime { value: 0 })?;
    let first = put_of(alloc, b"y", 7)?;
    store.prepare_add(&first)?;
    store.add(first, HybridTime { value: 2 });
    let second = put_of(alloc, b"x", 1)?;
    store.prepare_add(&second)?;
    store.add(second, HybridTime { value: 3 });
    let third = put_of(alloc, b"x", 2)?;
    store.prepare_add(&third)?;
    store.add(third, HybridTime { value: 4 });
    Ok(store)
}

#[test]
fn versions_are_told_by_key_and_chosen_by_stamp_and_code(rt: HostRuntime) -> Result<(), Fail> {
    let alloc = rt.alloc();
    let mut store = three_puts(alloc)?;
    assert_eq!(rt;
        told(alloc, &store)?.as_slice(),
        &[(b'x', 3u64, 1i64), (b'x', 4, 2), (b'y', 2, 7)][..]
    );
    let frozen = store.frozen(HybridTime { value: 3 })?;
    assert_eq!(rt;
        told(alloc, &frozen)?.as_slice(),
        &[(b'x', 3u64, 1i64), (b'y', 2, 7)][..]
    );
    for (low, high, count) in [(0u32, 100u32, 0u64), (120, 121, 2), (121, 65536, 1)] {
        let part = store.part_of(Range { low, high })?;
        assert_eq!(rt; part.len(), count, "codes from {low}");
    }
    assert_eq!(rt;
        listed(alloc, &store, 3)?.as_slice(),
        &[(b'x', 1i64), (b'y', 7)][..]
    );
    for (to, cutoff) in [(4u64, 4u64), (2, 4)] {
        store.raise_cutoff(HybridTime { value: to });
        assert_eq!(rt; store.cutoff().value, cutoff);
    }
    let compacted = store.compacted()?;
    assert_eq!(rt;
        told(alloc, &compacted)?.as_slice(),
        &[(b'x', 4u64, 2i64), (b'y', 2, 7)][..]
    );
    assert_eq!(rt;
        listed(alloc, &compacted, 4)?.as_slice(),
        &[(b'x', 2i64), (b'y', 7)][..]
    );
    let answer = compacted.rows_at(HybridTime { value: 3 });
    assert!(rt;
        matches!(&answer, Err(ReadRefused::TooOld { asked, cutoff }) if asked.value == 3 && cutoff.value == 4)
    );
    Ok(())
}

// A row with a number in column 1.
fn row_of(alloc: Global, text: &[u8], number: i64) -> Result<KeyedRow, NoMemory>
    ensures { IfOk result (λ row. row ≡ number_row text.now number) }
{
    let mut cells = Cells::new(alloc);
    cells.push(Cell {
        column: 1,
        value: Value::Int(number),
    })?;
    Ok(KeyedRow {
        key: key_of(alloc, text)?,
        row: Row {
            present: true,
            cells,
        },
    })
}

// A present row of x and an absent one of y.
fn two_rows(alloc: Global, number: i64) -> Result<Rows, NoMemory>
    ensures { IfOk result (λ rows. rows ≡ number_row (120 ∷ []) number ∷ no_row (121 ∷ []) ∷ []) }
{
    let mut rows: Rows = Records::new(alloc);
    rows.push(row_of(alloc, b"x", number)?)?;
    rows.push(KeyedRow {
        key: key_of(alloc, b"y")?,
        row: Row::absent(alloc),
    })?;
    Ok(rows)
}

#[test]
fn a_store_is_made_of_present_rows(rt: HostRuntime) -> Result<(), Fail> {
    let alloc = rt.alloc();
    let rows = two_rows(alloc, 5)?;
    let store = PlainStore::of_rows(alloc, &rows, HybridTime { value: 9 })?;
    assert_eq!(rt; told(alloc, &store)?.as_slice(), &[(b'x', 9u64, 5i64)][..]);
    assert_eq!(rt; store.cutoff().value, 9);
    Ok(())
}
