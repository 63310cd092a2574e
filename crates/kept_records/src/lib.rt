//! Lists of records that are looked up by a key, and from which records are taken out without
//! taking memory.
//!
//! A record that is taken out stays in its place and is marked, so the indexes of the list stay as
//! they are. Contracts see the list of the records that are present, and what a look-up makes of
//! those of one key: from the newest back, and over no other.
#![tactic(auto)]

mod looks;
mod records;
mod selection;
mod whole;

pub use looks::{count, first};
pub use newest_index::Changes;
pub use records::{Gathers, Kept, change, gather, take_out};
pub use selection::{Tests, select};
pub use whole::{change_all, keep_all, passing};

#[cfg(test)]
mod tests {
    use super::*;
    use newest_index::NewestIndex;
    use row_values::NoMemory;
    use std::test::Fail;

    fn put(
        index: &mut NewestIndex<u64>,
        records: &mut Vec<Kept<u64>>,
        item: u64,
    ) -> Result<(), NoMemory> {
        index.prepare()?;
        records.push(Kept {
            item,
            present: true,
        })?;
        index.note(item);
        Ok(())
    }

    #[test]
    fn records_that_are_taken_out_are_not_found(rt: HostRuntime) -> Result<(), Fail> {
        let mut index = NewestIndex::new(rt.alloc());
        let mut records = Vec::new(rt.alloc());
        put(&mut index, &mut records, 7)?;
        put(&mut index, &mut records, 5)?;
        put(&mut index, &mut records, 7)?;
        assert_eq!(rt; count(&index, &7, records.as_slice(), 9), 2);
        take_out(&index, &7, &mut records);
        assert_eq!(rt; count(&index, &7, records.as_slice(), 9), 0);
        assert_eq!(rt; first(&index, &5, records.as_slice()), Some(5u64));
        Ok(())
    }
}
