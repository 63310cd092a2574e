/// Why a step is not performed. Nothing has changed then.
#[derive(Clone, Copy, Debug, PartialEq, Eq)]
pub enum StepRefused {
    NoMemory,
    /// The stamp would reach 2^62.
    ClockEnd,
    /// The log of this slot has 1,000,000 entries, and would keep the entry.
    EventsFull { slot: u32 },
}
