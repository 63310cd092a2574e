//! The hybrid times that a script means.
ghost use Rattle.std.specs.Prelude.{◌≡◌, ◌<◌, ◌-◌, ◌*◌, ◌^◌, option_map};
ghost use Rattle.model.specs.Times.{end_of_time};
ghost use Rattle.model.specs.Entries.{IsTime};
ghost use Rattle.model.specs.Scripts as book;
ghost use Rattle.commands.specs.Times.{script_time_of};

use commands::Time;
use hybrid_time::HybridTime;

// So many microseconds before the reading; nothing comes before 0.
fn before(reading: u64, micros: u64) -> HybridTime
    requires reading { reading < 2 ^ 50 }
    ensures exact { result ≡ (reading - micros) * 4096 }
{
    HybridTime {
        value: reading.saturating_sub(micros) * 4096,
    }
}

/// The time that is meant under a reading in microseconds.
pub(crate) fn time_at(reading: u64, time: Time) -> HybridTime
    requires reading { reading < 2 ^ 50 }
    requires asked { book.time_at reading (script_time_of time) < end_of_time }
    ensures exact { result ≡ book.time_at reading (script_time_of time) }
{
    match time {
        Time::Micros(micros) => HybridTime {
            value: micros * 4096,
        },
        Time::MinusMinutes(minutes) => before(reading, minutes.saturating_mul(60_000_000)),
        Time::MinusSeconds(seconds) => before(reading, seconds.saturating_mul(1_000_000)),
        Time::Exact(exact) => exact,
    }
}

/// The same of a time that may be left out.
pub(crate) fn asked_at(reading: u64, at: Option<Time>) -> Option<HybridTime>
    requires reading { reading < 2 ^ 50 }
    requires asked { IsTime (book.asked_at reading (option_map script_time_of at)) }
    ensures exact { result ≡ book.asked_at reading (option_map script_time_of at) }
{
    match at {
        None => None,
        Some(time) => Some(time_at(reading, time)),
    }
}
