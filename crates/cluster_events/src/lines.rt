//! A line of each list that the master tells.
use crate::state::State;
use hybrid_time::HybridTime;
use partition_codes::Range;
use row_values::{Copied, Name, NoMemory};
use std::marker::Model;
use yb_ident::Ident;

/// The interval and the retention are in minutes; the window of the schedule begins at `low`.
/// Contracts see it as the book's, and each of the lines below.
#[derive(Debug, Drop, PartialEq, Eq)]
pub struct ScheduleLine {
    pub id: Ident,
    pub namespace: Name,
    pub interval: u64,
    pub retention: u64,
    pub low: HybridTime,
}

impl Model for ScheduleLine {
    ghost use Rattle.model.specs.Acts.{ScheduleLine};

    ghost Value = { ScheduleLine };

    ghost view = { λ l. record {
      id = l.id;
      namespace = l.namespace;
      interval = l.interval;
      retention = l.retention;
      low = l.low;
    } };

    ghost inverse = { λ v. record {
      id = v.id;
      namespace = v.namespace;
      interval = v.interval;
      retention = v.retention;
      low = v.low;
    } };
}

/// A snapshot at a time, and the time of the namespace's one before it.
#[derive(Clone, Copy, Debug, PartialEq, Eq)]
pub struct SnapshotLine {
    pub id: Ident,
    pub schedule: Ident,
    pub state: State,
    pub after: HybridTime,
    pub at: HybridTime,
}

impl Model for SnapshotLine {
    ghost use Rattle.model.specs.Acts.{SnapshotLine};
    ghost use Rattle.cluster_events.specs.SeenStates.{state_of, state_from};

    ghost Value = { SnapshotLine };

    ghost view = { λ l. record {
      id = l.id;
      schedule = l.schedule;
      state = state_of l.state;
      after = l.after;
      at = l.at;
    } };

    ghost inverse = { λ v. record {
      id = v.id;
      schedule = v.schedule;
      state = state_from v.state;
      after = v.after;
      at = v.at;
    } };
}

/// A restoration to a time, with its point once it has one.
#[derive(Clone, Copy, Debug, PartialEq, Eq)]
pub struct RestorationLine {
    pub id: Ident,
    pub schedule: Ident,
    pub state: State,
    pub to: HybridTime,
    pub point: Option<HybridTime>,
}

impl Model for RestorationLine {
    ghost use Rattle.model.specs.Acts.{RestorationLine};
    ghost use Rattle.cluster_events.specs.SeenStates.{state_of, state_from};

    ghost Value = { RestorationLine };

    ghost view = { λ l. record {
      id = l.id;
      schedule = l.schedule;
      state = state_of l.state;
      to = l.to;
      point = l.point;
    } };

    ghost inverse = { λ v. record {
      id = v.id;
      schedule = v.schedule;
      state = state_from v.state;
      to = v.to;
      point = v.point;
    } };
}

/// A clone of the source's namespace at a time.
#[derive(Debug, Drop, PartialEq, Eq)]
pub struct CloneLine {
    pub id: Ident,
    pub source: Name,
    pub target: Name,
    pub state: State,
    pub to: HybridTime,
}

impl Model for CloneLine {
    ghost use Rattle.model.specs.Acts.{CloneLine};
    ghost use Rattle.cluster_events.specs.SeenStates.{state_of, state_from};

    ghost Value = { CloneLine };

    ghost view = { λ l. record {
      id = l.id;
      source = l.source;
      target = l.target;
      state = state_of l.state;
      to = l.to;
    } };

    ghost inverse = { λ v. record {
      id = v.id;
      source = v.source;
      target = v.target;
      state = state_from v.state;
      to = v.to;
    } };
}

/// A tablet in its slot, and when it ended if it did.
#[derive(Clone, Copy, Debug, PartialEq, Eq)]
pub struct TabletLine {
    pub tablet: Ident,
    pub table: Ident,
    pub slot: u32,
    pub range: Range,
    pub ended: Option<HybridTime>,
}

impl Model for TabletLine {
    ghost use Rattle.model.specs.Acts.{TabletLine};

    ghost Value = { TabletLine };

    ghost view = { λ l. record {
      tablet = l.tablet;
      table = l.table;
      slot = l.slot;
      low = l.range.low;
      high = l.range.high;
      ended = l.ended;
    } };

    ghost inverse = { λ v. record {
      tablet = v.tablet;
      table = v.table;
      slot = v.slot;
      range = record { low = v.low; high = v.high };
      ended = v.ended;
    } };
}

impl Copied for ScheduleLine {
    fn copy(&self) -> Result<ScheduleLine, NoMemory> {
        Ok(ScheduleLine {
            id: self.id,
            namespace: self.namespace.copy()?,
            interval: self.interval,
            retention: self.retention,
            low: self.low,
        })
    }
}

impl Copied for SnapshotLine {
    fn copy(&self) -> Result<SnapshotLine, NoMemory> {
        Ok(*self)
    }
}

impl Copied for RestorationLine {
    fn copy(&self) -> Result<RestorationLine, NoMemory> {
        Ok(*self)
    }
}

impl Copied for CloneLine {
    fn copy(&self) -> Result<CloneLine, NoMemory> {
        Ok(CloneLine {
            id: self.id,
            source: self.source.copy()?,
            target: self.target.copy()?,
            state: self.state,
            to: self.to,
        })
    }
}

impl Copied for TabletLine {
    fn copy(&self) -> Result<TabletLine, NoMemory> {
        Ok(*self)
    }
}
