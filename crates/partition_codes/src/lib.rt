//! Partition codes, and ranges of them.
//!
//! That a hash-sharded table is divided by a code space of 16 bits, a range of it to each tablet,
//! is YugabyteDB's own. The function that gives a key its code is this project's own, and so is the
//! rule by which a new table's tablets share the codes: the bounds are the multiples of 65536 / n,
//! rounded down.
#![tactic(auto)]

mod codes;
mod range;

pub use codes::{code, halves, share, shares};
pub use range::{Range, TooNarrow};

#[cfg(test)]
mod tests {
    use super::*;
    use row_values::{Copied, Key, NoMemory};
    use std::alloc::Global;
    use std::test::Fail;

    fn code_of_letters(alloc: Global, letter: u8, count: u64) -> Result<u16, NoMemory> {
        let mut key = Key::new(alloc);
        for _letter in 0..count {
            key.push(letter)?;
        }
        Ok(code(&key))
    }

    #[test]
    fn codes_shares_and_halves(rt: HostRuntime) -> Result<(), Fail> {
        let alloc = rt.alloc();
        for (letter, count, want) in [(b'x', 1u64, 120u16), (b'z', 3, 55610), (b'z', 0, 0)] {
            assert_eq!(rt;
                code_of_letters(alloc, letter, count)?,
                want,
                "count {count}"
            );
        }
        for (n, i, low, high) in [
            (1u32, 0u64, 0u32, 65536u32),
            (3, 0, 0, 21845),
            (3, 1, 21845, 43690),
            (3, 2, 43690, 65536),
            (64, 63, 64512, 65536),
        ] {
            let parts = shares(alloc, n)?;
            assert_eq!(rt; parts.len(), u64::from(n));
            assert!(rt;
                parts.get(i) == Some(&Range { low, high }),
                "share {i} of {n}"
            );
        }
        let whole = Range { low: 10, high: 20 };
        for (at, narrow) in [
            (10u32, true),
            (11, false),
            (19, false),
            (20, true),
            (70000, true),
        ] {
            assert_eq!(rt; halves(whole.copy()?, at).is_err(), narrow, "at {at}");
        }
        assert!(rt; halves(whole, 10) == Err(TooNarrow { low: 10 }));
        assert!(rt; whole.holds(19) && !whole.holds(20));
        Ok(())
    }
}
