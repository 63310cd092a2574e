//! The greatest numbers that commands take.

/// Microseconds of a reading, below 2^50.
pub const MOST_MICROS: u64 = (1 << 50) - 1;

/// A number that has no other bound.
pub const MOST_NUMBER: u64 = u64::MAX;

/// Tablets of a new table.
pub const MOST_TABLETS: u64 = 64;

/// A partition code.
pub const MOST_CODE: u64 = 65535;

/// Events of one `coordinate`.
pub const MOST_EVENTS: u64 = 1_000_000;
