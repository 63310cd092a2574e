use hybrid_time::HybridTime;

/// A time as a script writes it.
#[derive(Clone, Copy, Debug, PartialEq, Eq)]
pub enum Time {
    /// Microseconds, below 2^50.
    Micros(u64),
    /// So many minutes before the script's reading, at most 10,000,000.
    MinusMinutes(u64),
    /// So many seconds before the script's reading, at most 10,000,000.
    MinusSeconds(u64),
    /// A hybrid time, below 2^62.
    Exact(HybridTime),
}
