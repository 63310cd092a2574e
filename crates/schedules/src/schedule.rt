ghost use Rattle.std.specs.Prelude.{◌≡◌, ◌≤◌, ◌*◌, None, Some, true, false, MatchResult, OnErr};
ghost use Rattle.model.specs.Times.{minute};
ghost use Rattle.model.specs.Schedules as book;
ghost use Rattle.model.specs.Schedules.{next_due, edited};
ghost use Rattle.schedules.specs.Periods.{IsPeriod};

use hybrid_time::HybridTime;
use row_values::{Copied, NoMemory};
use std::marker::Model;
use yb_ident::Ident;

// The ticks of a minute, and the time that no due time passes.
const MINUTE: u64 = 60_000_000 * 4096;

const END: u64 = 1 << 62;

/// A schedule of snapshots of a namespace. The interval and the retention are in minutes. Contracts
/// see it as the book's.
#[derive(Clone, Copy, Debug, PartialEq, Eq)]
pub struct Schedule {
    pub id: Ident,
    pub namespace: Ident,
    pub interval: u64,
    pub retention: u64,
    pub made: HybridTime,
    pub kept_low: HybridTime,
    pub last: Option<HybridTime>,
}

impl Model for Schedule {
    ghost use Rattle.model.specs.Records.{Schedule};
    ghost use Rattle.schedules.specs.Periods.{IsPeriod};

    ghost Value = { Schedule };

    ghost view = { λ s. record {
      id = s.id;
      namespace = s.namespace;
      interval = s.interval;
      retention = s.retention;
      made = s.made;
      kept_low = s.kept_low;
      last = s.last;
    } };

    ghost invariant = { λ s. IsPeriod s.interval s.retention };

    ghost inverse = { λ v. record {
      id = v.id;
      namespace = v.namespace;
      interval = v.interval;
      retention = v.retention;
      made = v.made;
      kept_low = v.kept_low;
      last = v.last;
    } };
}

/// Periods that no schedule may have.
#[derive(Clone, Copy, Debug, PartialEq, Eq)]
pub struct BadPeriod {
    pub interval: u64,
    pub retention: u64,
}

/// Whether a schedule may have these periods, in minutes: the interval is at least one and below
/// the retention, which is at most a year.
pub fn is_period(interval: u64, retention: u64) -> bool
    ensures exact { result ≡ book.is_period interval retention }
{
    1 <= interval && interval < retention && retention <= 525_600
}

fn ticks_of(minutes: u64) -> u64
    requires few { minutes ≤ 525600 }
    ensures value { result ≡ minutes * minute }
    ensures bound { result ≤ 525600 * minute }
{
    minutes * MINUTE
}

impl Schedule {
    /// A new schedule that is made at a time, from which its window begins.
    pub fn new(
        id: Ident,
        namespace: Ident,
        interval: u64,
        retention: u64,
        at: HybridTime,
    ) -> Result<Schedule, BadPeriod>
        ensures judged { MatchResult result
            (λ _. book.is_period interval retention ≡ true)
            (λ _. book.is_period interval retention ≡ false) }
        ensures made { MatchResult result
            (λ s. s ≡ record { id = id; namespace = namespace; interval = interval; retention = retention; made = at; kept_low = at; last = None })
            (λ e. e ≡ record { interval = interval; retention = retention }) }
    {
        if !is_period(interval, retention) {
            return Err(BadPeriod {
                interval,
                retention,
            });
        }
        Ok(Schedule {
            id,
            namespace,
            interval,
            retention,
            made: at,
            kept_low: at,
            last: None,
        })
    }

    /// The low end of the window at a stamp. It takes no memory.
    pub fn low(&self, now: HybridTime) -> HybridTime
        ensures exact { result ≡ book.low self.now now }
    {
        let back = now.minus(ticks_of(self.retention));
        self.kept_low.later_of(back)
    }

    /// The stamp from which the next snapshot is due. It takes no memory.
    pub fn next(&self) -> HybridTime
        ensures exact { result ≡ next_due self.now }
    {
        match self.last {
            None => self.made,
            Some(last) => {
                let due = last.number() + ticks_of(self.interval);
                HybridTime {
                    value: if due <= END { due } else { END },
                }
            }
        }
    }

    /// Whether a snapshot is due at a stamp. It takes no memory.
    pub fn is_due(&self, now: HybridTime) -> bool
        ensures exact { result ≡ book.is_due self.now now }
    {
        self.next().number() <= now.number()
    }

    /// Gives the schedule other periods from a stamp on: what is out of the window then stays out.
    /// Periods that no schedule may have are refused, and nothing changes.
    pub fn edit(&mut self, interval: u64, retention: u64, now: HybridTime) -> Result<(), BadPeriod>
        ensures judged { MatchResult result
            (λ _. book.is_period interval retention ≡ true)
            (λ _. book.is_period interval retention ≡ false) }
        ensures edited { MatchResult result
            (λ _. self.new ≡ edited interval retention now self.old)
            (λ e. e ≡ record { interval = interval; retention = retention }) }
        ensures kept { OnErr result (self.new ≡ self.old) }
    {
        if !is_period(interval, retention) {
            return Err(BadPeriod {
                interval,
                retention,
            });
        }
        self.set_periods(interval, retention, now);
        Ok(())
    }

    // Gives the schedule periods that one may have.
    pub fn set_periods(&mut self, interval: u64, retention: u64, now: HybridTime)
        requires period { IsPeriod interval retention }
        ensures edited { self.new ≡ edited interval retention now self.old }
    {
        *self = Schedule {
            id: self.id,
            namespace: self.namespace,
            interval,
            retention,
            made: self.made,
            kept_low: self.low(now),
            last: self.last,
        };
    }
}

impl Schedule {
    // A snapshot of the schedule was taken.
    pub fn set_last(&mut self, at: HybridTime)
        ensures taken { self.new ≡ record self.old { last = Some at } }
    {
        self.last = Some(at);
    }
}

impl Copied for Schedule {
    fn copy(&self) -> Result<Schedule, NoMemory> {
        Ok(*self)
    }
}
