ghost use Rattle.std.specs.Prelude.{◌≡◌, map, IfOk};
ghost use Rattle.row_values.specs.Store.{frozen, part_of, of_rows};
ghost use Rattle.versions.specs.Rows.{present_rows};

use crate::version::Version;
use hybrid_time::HybridTime;
use partition_codes::{Range, code};
use row_values::{Copied, KeyedRow, NoMemory, Records, RowOp, Rows};
use std::alloc::Global;

/// Copies of these versions.
pub fn copies(alloc: Global, versions: &[&Version]) -> Result<Records<Version>, NoMemory>
    ensures { IfOk result (λ all. all ≡ map (λ v. v.now) versions.now) }
{
    let mut all = Records::new(alloc);
    for version in versions {
        all.push(version.copy()?)?;
    }
    Ok(all)
}

/// Copies of the versions that are stamped at or before a time.
pub fn frozen_copies(
    alloc: Global,
    versions: &[Version],
    at: HybridTime,
) -> Result<Vec<Version>, NoMemory>
    ensures { IfOk result (λ copies. copies.items ≡ frozen at versions.now) }
{
    let mut copies = Vec::new(alloc);
    for version in versions {
        if version.stamp.number() <= at.number() {
            copies.push(version.copy()?)?;
        }
    }
    Ok(copies)
}

/// Copies of the versions whose partition code is in a range.
pub fn part_copies(
    alloc: Global,
    versions: &[Version],
    range: Range,
) -> Result<Vec<Version>, NoMemory>
    ensures { IfOk result (λ copies. copies.items ≡ part_of range.low range.high versions.now) }
{
    let mut copies = Vec::new(alloc);
    for version in versions {
        let code = u32::from(code(&version.key));
        if range.low <= code && code < range.high {
            copies.push(version.copy()?)?;
        }
    }
    Ok(copies)
}

/// Present rows as one upsert each, at a stamp.
pub fn row_copies(
    alloc: Global,
    rows: &[KeyedRow],
    stamp: HybridTime,
) -> Result<Vec<Version>, NoMemory>
    ensures { IfOk result (λ copies. copies.items ≡ of_rows (present_rows rows.now) stamp) }
{
    let mut copies = Vec::new(alloc);
    for keyed in rows {
        if keyed.row.present {
            copies.push(Version {
                key: keyed.key.copy()?,
                stamp,
                op: RowOp::Upsert(keyed.row.cells.copy()?),
            })?;
        }
    }
    Ok(copies)
}

/// Rows as one upsert each, at a stamp. Their keys and cells are moved.
pub fn upserts(rows: Rows, stamp: HybridTime) -> Result<Vec<Version>, NoMemory>
    ensures { IfOk result (λ versions. versions.items ≡ of_rows rows stamp) }
{
    let mut versions = Vec::with_capacity(rows.allocator(), rows.as_slice().len())?;
    for keyed in rows.into_vec() {
        versions.push(Version {
            key: keyed.key,
            stamp,
            op: RowOp::Upsert(keyed.row.cells),
        })?;
    }
    Ok(versions)
}
