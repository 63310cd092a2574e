ghost use Rattle.std.specs.Prelude.{◌≡◌, ◌-◌, not, IfOk, vec_len, vec_capacity};
ghost use Rattle.std.specs.List.{filter};
ghost use Rattle.kept_records.specs.Gathered.{present_of, changed_where, changes_record, changes_passing, keeps_passing, taken_out};

use crate::records::{Kept, change_of};
use crate::selection::{Tests, put};
use newest_index::Changes;
use row_values::NoMemory;
use std::alloc::Global;

/// The records that pass a test, in order. It goes over all of them.
pub fn passing<R: Copy + Drop, T: Tests<R>>(
    alloc: Global,
    records: &[Kept<R>],
    test: &T,
) -> Result<Vec<R>, NoMemory>
    ensures all { IfOk result (λ found. found.items ≡ filter (λ r. T.passes test.now r) (present_of records.now)) }
{
    let mut found = Vec::new(alloc);
    for kept in records {
        put(test, kept, &mut found)?;
    }
    Ok(found)
}

// What becomes of a record that passes.
fn change_passing<R, T: Tests<R>, W: Changes<R>>(test: &T, walk: &W, kept: &mut Kept<R>)
    ensures { kept.new ≡ changes_passing (T.passes test.now) (W.changed walk.now) kept.old }
{
    if test.passes(&kept.item) {
        change_of(walk, kept);
    }
}

/// Changes the records that pass a test. It goes over all of them, and takes no memory.
pub fn change_all<R, T: Tests<R>, W: Changes<R>>(records: &mut Vec<Kept<R>>, test: &T, walk: &W)
    ensures all { records.new.items ≡ changed_where (λ k. T.passes test.now k.item) (changes_record (W.changed walk.now)) records.old.items }
    ensures room { vec_capacity records.new - vec_len records.new ≡ vec_capacity records.old - vec_len records.old }
{
    for kept in records.iter_mut() {
        change_passing(test, walk, kept);
    }
}

// A record that does not pass is taken out.
fn keep_passing<R, T: Tests<R>>(test: &T, kept: &mut Kept<R>)
    ensures { kept.new ≡ keeps_passing (T.passes test.now) kept.old }
{
    if !test.passes(&kept.item) {
        kept.present = false;
    }
}

/// Takes out the records that don't pass a test. It goes over all of them, and takes no memory.
pub fn keep_all<R, T: Tests<R>>(records: &mut Vec<Kept<R>>, test: &T)
    ensures all { records.new.items ≡ changed_where (λ k. not (T.passes test.now k.item)) taken_out records.old.items }
    ensures room { vec_capacity records.new - vec_len records.new ≡ vec_capacity records.old - vec_len records.old }
{
    for kept in records.iter_mut() {
        keep_passing(test, kept);
    }
}
