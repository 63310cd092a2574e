use cluster_events::Act;
use commands::{Ask, Command, NamedItem};
use hybrid_time::HybridTime;
use row_values::{Key, Records};

/// What a command of a script has a runner do.
#[derive(Debug, Drop, PartialEq, Eq)]
pub enum Course {
    /// Sets the script's reading, in microseconds.
    SetReading {
        micros: u64,
    },
    /// Sets how many microseconds a slot's readings come earlier.
    SetLag {
        slot: u32,
        micros: u64,
    },
    /// Performs one act.
    Perform {
        act: Act,
    },
    /// Looks, and performs the acts that follow what was found.
    LookFor {
        ask: Ask,
        follow: Follow,
        showing: Showing,
    },
    /// Performs the acts of a coordinator.
    WorkOff {
        work: Work,
    },
    /// Shows every entry so far.
    ShowEntries,
}

/// Which acts follow a look.
#[derive(Debug, Drop, PartialEq, Eq)]
pub enum Follow {
    /// The master is told the command, under the plan that was found.
    Change { command: Command },
    /// The items are written to the place that was found.
    Write { batch: Records<NamedItem> },
    /// The row of a key is read at the places that were found; at a time, or now.
    ReadKey { key: Key, at: Option<HybridTime> },
    /// The rows of all places that were found are read.
    ReadTable { at: Option<HybridTime> },
    /// The cutoff of each tablet that was found is raised.
    CutoffEach,
    /// Each tablet that was found is compacted.
    CompactEach,
    /// What was found is removed, and then the master forgets what no time needs.
    RemoveEach,
}

/// What the line of a command shows.
#[derive(Clone, Copy, Debug, PartialEq, Eq)]
pub enum Showing {
    /// The last reply.
    Reply,
    /// The row of a key.
    Row,
    /// The rows of a table.
    Table,
    /// How many events followed the look.
    Count,
}

/// How far a coordinator works, under the script's reading.
#[derive(Clone, Copy, Debug, PartialEq, Eq)]
pub enum Work {
    /// At most so many events.
    Coordinate { count: u64 },
    /// Until no record is unfinished.
    Settle,
}
