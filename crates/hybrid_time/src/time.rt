ghost use Rattle.std.specs.Prelude.{◌≡◌, ◌^◌, ◌<◌, ◌≤◌, ◌+◌, ◌*◌, ◌/◌, ◌%◌, ◌-◌, ◌++◌, max, min, codes, IfOk, MatchResult};
ghost use Rattle.std.specs.Fmt.{decimal};

use row_values::{Bytes, Copied, NoMemory};
use std::alloc::Global;
use std::marker::Model;

/// A hybrid time, in ticks: 4096 ticks are a microsecond, and the ticks of one microsecond are its
/// logical counter. It is at most 2^62. Contracts see it as its number.
#[derive(Clone, Copy, Debug, PartialEq, Eq, PartialOrd, Ord, Hash)]
pub struct HybridTime {
    pub value: u64,
}

impl Model for HybridTime {
    ghost use Rattle.std.specs.Prelude.{ℕ, ◌≤◌, ◌^◌};

    ghost Value = { ℕ };

    ghost view = { λ t. t.value };

    ghost invariant = { λ t. t.value ≤ 2 ^ 62 };

    ghost inverse = { λ n. record { value = n } };
}

/// A number of microseconds or of ticks that is not below its bound.
#[derive(Clone, Copy, Debug, PartialEq, Eq)]
pub struct TimeTooLarge {
    pub given: u64,
}

impl HybridTime {
    /// The first time of a microsecond, which is below 2^50.
    pub fn from_micros(micros: u64) -> Result<HybridTime, TimeTooLarge>
        ensures exact { MatchResult result
            (λ t. (micros < 2 ^ 50) × (t ≡ micros * 4096))
            (λ e. (2 ^ 50 ≤ micros) × (e.given ≡ micros)) }
    {
        if micros >= 1 << 50 {
            return Err(TimeTooLarge { given: micros });
        }
        Ok(HybridTime {
            value: micros * 4096,
        })
    }

    /// The time of this number of ticks, which is below 2^62.
    pub fn from_value(value: u64) -> Result<HybridTime, TimeTooLarge>
        ensures exact { MatchResult result
            (λ t. (value < 2 ^ 62) × (t ≡ value))
            (λ e. (2 ^ 62 ≤ value) × (e.given ≡ value)) }
    {
        if value >= 1 << 62 {
            return Err(TimeTooLarge { given: value });
        }
        Ok(HybridTime { value })
    }

    /// The number of ticks, with its bound.
    pub fn number(self) -> u64
        ensures value { result ≡ self }
        ensures bound { result ≤ 2 ^ 62 }
    {
        self.value
    }

    /// The microseconds of the time.
    pub fn micros(self) -> u64
        ensures value { result ≡ self / 4096 }
    {
        self.value / 4096
    }

    /// The logical counter, below 4096.
    pub fn logical(self) -> u64
        ensures value { result ≡ self % 4096 }
        ensures bound { result < 4096 }
    {
        self.value % 4096
    }

    /// The time that many ticks before, at least 0.
    pub fn minus(self, ticks: u64) -> HybridTime
        ensures value { result ≡ self - ticks }
    {
        HybridTime {
            value: self.value.saturating_sub(ticks),
        }
    }

    /// The time that many microseconds before, at least 0.
    pub fn minus_micros(self, n: u64) -> HybridTime
        requires { n < 2 ^ 50 }
        ensures value { result ≡ self - n * 4096 }
    {
        self.minus(n * 4096)
    }

    /// The next time.
    pub fn plus_one(self) -> HybridTime
        requires { self < 2 ^ 62 }
        ensures value { result ≡ self + 1 }
    {
        HybridTime {
            value: self.value + 1,
        }
    }

    /// The later of two times.
    pub fn later_of(self, other: HybridTime) -> HybridTime
        ensures value { result ≡ max self other }
    {
        if self.value < other.value {
            other
        } else {
            self
        }
    }

    /// The earlier of two times.
    pub fn earlier_of(self, other: HybridTime) -> HybridTime
        ensures value { result ≡ min self other }
    {
        if other.value < self.value {
            other
        } else {
            self
        }
    }

    /// The text `<micros>.<logical>`, both in decimal.
    pub fn text(self, alloc: Global) -> Result<Bytes, NoMemory>
        ensures exact { IfOk result (λ text. text ≡ decimal (self / 4096) ++ codes "." ++ decimal (self % 4096)) }
    {
        let micros = self.micros();
        let logical = self.logical();
        let text = format!(in alloc; "{micros}.{logical}")?;
        Ok(Bytes::from_vec(text.into_bytes()))
    }
}

impl Copied for HybridTime {
    fn copy(&self) -> Result<HybridTime, NoMemory> {
        Ok(*self)
    }
}
