ghost use Rattle.std.specs.Prelude.{◌≡◌, ◌^◌, ◌<◌, ◌≤◌, IfOk, MatchResult};
ghost use Rattle.row_values.specs.Stamps.{stamp_of};

use crate::time::HybridTime;
use row_values::{Copied, NoMemory};
use std::marker::Model;

/// The next stamp would reach 2^62. The clock is as it was.
#[derive(Clone, Copy, Debug, PartialEq, Eq)]
pub struct ClockEnd;

/// The clock of one part, which contracts see as the number of its last stamp.
#[derive(Clone, Copy, Debug, PartialEq, Eq, PartialOrd, Ord, Hash)]
pub struct HybridClock {
    last: HybridTime,
}

impl Model for HybridClock {
    ghost use Rattle.std.specs.Prelude.{ℕ};

    ghost Value = { ℕ };

    ghost view = { λ c. c.last };

    ghost inverse = { λ n. record { last = n } };
}

impl HybridClock {
    /// A clock whose last stamp is this one; 0 where it has stamped nothing.
    pub fn at(last: HybridTime) -> HybridClock
        ensures value { result ≡ last }
    {
        HybridClock { last }
    }

    /// The last stamp.
    pub fn last(self) -> HybridTime
        ensures value { result ≡ self }
    {
        self.last
    }

    /// The stamp of an event that touches this clock and the others, under a physical reading in
    /// microseconds, which may go back. The clock becomes the stamp.
    pub fn stamp(&mut self, others: &[HybridTime], reading: u64) -> Result<HybridTime, ClockEnd>
        requires { reading < 2 ^ 50 }
        ensures stamp { MatchResult result
            (λ t. t ≡ stamp_of self.old others.now reading)
            (λ _. 2 ^ 62 ≤ stamp_of self.old others.now reading) }
        ensures below { IfOk result (λ t. t < 2 ^ 62) }
        ensures clock { MatchResult result (λ t. self.new ≡ t) (λ _. self.new ≡ self.old) }
    {
        let mut greatest = self.last.number();
        for other in others {
            greatest = greatest.max(other.number());
        }
        let stamp = (1 + greatest).max(reading * 4096);
        if stamp >= 1 << 62 {
            return Err(ClockEnd);
        }
        let time = HybridTime { value: stamp };
        self.last = time;
        Ok(time)
    }
}

impl Copied for HybridClock {
    fn copy(&self) -> Result<HybridClock, NoMemory> {
        Ok(*self)
    }
}
