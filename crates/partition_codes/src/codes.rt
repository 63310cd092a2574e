ghost use Rattle.std.specs.Prelude.{◌≡◌, ◌<◌, ◌≤◌, ◌+◌, ◌⊎◌, ℕ, Some, [], ◌∷◌, length, slice_get, IfOk, MatchResult};
ghost use Rattle.row_values.specs.Codes.{code_of};
ghost use Rattle.row_values.specs.Ranges.{share_from};
ghost use Rattle.partition_codes.specs.Ranges.{Divide, whole_range};

use crate::range::{Range, TooNarrow};
use row_values::{Key, NoMemory, Records};
use std::alloc::Global;

/// The partition code of a key, which decides the tablet that holds its row. It takes no memory.
pub fn code(key: &Key) -> u16
    ensures value { result ≡ code_of key.now }
{
    let mut code = 0u32;
    for byte in key.as_slice() {
        code = (code * 31 + u32::from(*byte)) % 65536;
    }
    code as u16
}

/// The range of one tablet, counted from 0, of a table that is made with `n`. It takes no memory.
pub fn share(place: u32, n: u32) -> Range
    requires few { n ≤ 64 }
    requires within { place < n }
    ensures exact { result ≡ record { low = share_from n place; high = share_from n (place + 1) } }
{
    let low = place * 65536 / n;
    let high = (place + 1) * 65536 / n;
    Range { low, high }
}

/// The ranges of a table that is made with `n` tablets, in order.
pub fn shares(alloc: Global, n: u32) -> Result<Records<Range>, NoMemory>
    requires some { 1 ≤ n }
    requires few { n ≤ 64 }
    ensures count { IfOk result (λ r. length r ≡ n) }
    ensures each { IfOk result (λ r. (i : ℕ) → i < n → slice_get r i ≡ Some (record { low = share_from n i; high = share_from n (i + 1) })) }
    ensures cover { IfOk result (λ r. Divide whole_range r) }
{
    let mut shares = Records::new(alloc);
    for i in 0..n {
        shares.push(share(i, n))?;
    }
    Ok(shares)
}

/// The two parts of a range, the second of which begins at a code strictly inside it. It takes no
/// memory.
pub fn halves(range: Range, at: u32) -> Result<(Range, Range), TooNarrow>
    ensures inside { MatchResult result
        (λ _. (range.low < at) × (at < range.high))
        (λ _. (at ≤ range.low) ⊎ (range.high ≤ at)) }
    ensures cut { MatchResult result
        (λ r. r ≡ (record { low = range.low; high = at }, record { low = at; high = range.high }))
        (λ e. e.low ≡ range.low) }
    ensures cover { IfOk result (λ r. Divide range (r.0 ∷ r.1 ∷ [])) }
{
    if at <= range.low || range.high <= at {
        return Err(TooNarrow { low: range.low });
    }
    Ok((
        Range {
            low: range.low,
            high: at,
        },
        Range {
            low: at,
            high: range.high,
        },
    ))
}
