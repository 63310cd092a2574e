ghost use Rattle.std.specs.Prelude.{◌≡◌, true, Some, is_some};
ghost use Rattle.model.specs.Schedules.{edited};
ghost use Rattle.model.specs.Records.{Schedule, ScheduledNamespace, schedule_of};
ghost use Rattle.schedules.specs.Periods.{IsPeriod};
ghost use Rattle.schedules.specs.Seen.{lowered};

use crate::list::ScheduleList;
use crate::schedule::Schedule;
use crate::scheduled::ScheduledNamespace;
use hybrid_time::HybridTime;
use kept_records::{Changes, Gathers, Tests};

// The least low end of windows.
#[derive(Drop)]
pub struct LeastLow {
    pub now: HybridTime,
}

impl Gathers<Schedule, Option<HybridTime>> for LeastLow {
    ghost step = { λ w s later. lowered w.now s later };

    fn step(&self, item: &Schedule, later: Option<HybridTime>) -> Option<HybridTime> {
        let low = item.low(self.now);
        Some(match later {
            None => low,
            Some(least) => least.earlier_of(low),
        })
    }
}

// A schedule has other periods.
#[derive(Drop)]
pub struct Edits {
    pub interval: u64,
    pub retention: u64,
    pub now: HybridTime,
    ghost period: { IsPeriod interval retention },
}

impl Edits {
    pub fn new(interval: u64, retention: u64, now: HybridTime) -> Edits
        requires period { IsPeriod interval retention }
        ensures interval { result.interval ≡ interval }
        ensures retention { result.retention ≡ retention }
        ensures now { result.now ≡ now }
    {
        Edits {
            interval,
            retention,
            now,
        }
    }
}

impl Changes<Schedule> for Edits {
    ghost changed = { λ w s. edited w.interval w.retention w.now s };

    fn change(&self, item: &mut Schedule) {
        item.set_periods(self.interval, self.retention, self.now);
    }
}

// A snapshot was taken.
#[derive(Drop)]
pub struct Taken {
    pub at: HybridTime,
}

impl Changes<Schedule> for Taken {
    ghost changed = { λ w (s : Schedule). record s { last = Some w.at } };

    fn change(&self, item: &mut Schedule) {
        item.set_last(self.at);
    }
}

impl Changes<ScheduledNamespace> for Taken {
    ghost changed = { λ w (k : ScheduledNamespace). record k { last = Some w.at } };

    fn change(&self, item: &mut ScheduledNamespace) {
        item.last = Some(self.at);
    }
}

// A snapshot is complete.
#[derive(Drop)]
pub struct Completed {
    pub at: HybridTime,
}

impl Changes<ScheduledNamespace> for Completed {
    ghost changed = { λ w (k : ScheduledNamespace). record k { complete = Some w.at } };

    fn change(&self, item: &mut ScheduledNamespace) {
        item.complete = Some(self.at);
    }
}

// Whether a namespace has a schedule.
#[derive(Drop)]
pub struct HasSchedule<'a> {
    pub schedules: &'a ScheduleList,
}

impl<'a> Tests<ScheduledNamespace> for HasSchedule<'a> {
    ghost passes = { λ w k. is_some (schedule_of w.schedules.now.schedules k.namespace) };

    fn passes(&self, item: &ScheduledNamespace) -> bool {
        self.schedules.schedule_of(&item.namespace).is_some()
    }
}

// Any schedule.
#[derive(Drop)]
pub struct Any;

impl Tests<Schedule> for Any {
    ghost passes = { λ _ s. true };

    fn passes(&self, _item: &Schedule) -> bool {
        true
    }
}
