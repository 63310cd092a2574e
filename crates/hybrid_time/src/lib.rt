//! Hybrid times, and the clock that stamps events.
//!
//! That a hybrid time is microseconds times 4096 plus a logical counter below 4096 is YugabyteDB's
//! own layout. The bounds, and the rule by which a clock stamps an event, are this project's own:
//! the stamp is one more than the greatest clock that the event touches, and at least the physical
//! reading.
#![tactic(auto)]

mod clock;
mod time;

pub use clock::{ClockEnd, HybridClock};
pub use time::{HybridTime, TimeTooLarge};

#[cfg(test)]
mod tests {
    use super::*;
    use row_values::Copied;
    use std::test::Fail;

    #[test]
    fn times_keep_their_bounds_and_their_text(rt: HostRuntime) -> Result<(), Fail> {
        let alloc = rt.alloc();
        for (micros, value) in [
            (0u64, Some(0u64)),
            (1000000, Some(4096000000)),
            ((1 << 50) - 1, Some(4611686018427383808)),
            (1 << 50, None),
            (u64::MAX, None),
        ] {
            let time = HybridTime::from_micros(micros);
            assert_eq!(rt; time.ok().map(|t| t.value), value, "micros {micros}");
        }
        for (value, taken) in [(0u64, true), ((1 << 62) - 1, true), (1 << 62, false)] {
            assert_eq!(rt;
                HybridTime::from_value(value).is_ok(),
                taken,
                "value {value}"
            );
        }
        for (value, text) in [
            (0u64, "0.0"),
            (4095, "0.4095"),
            (4096, "1.0"),
            (4096000003, "1000000.3"),
            ((1 << 62) - 1, "1125899906842623.4095"),
        ] {
            let time = HybridTime { value };
            let written = time.text(alloc)?;
            assert_eq!(rt; written.as_slice(), text.as_bytes(), "value {value}");
            assert!(rt; time.copy()? == time, "value {value}");
            assert!(rt;
                HybridClock::at(time).copy()?.last() == time,
                "value {value}"
            );
        }
        Ok(())
    }

    #[test]
    fn a_stamp_is_above_every_touched_clock_and_at_least_the_reading(
        rt: HostRuntime,
    ) -> Result<(), Fail> {
        let end = (1u64 << 62) - 1;
        for (last, other, reading, stamp) in [
            (5u64, 9u64, 0u64, Some(10u64)),
            (9, 5, 0, Some(10)),
            (5, 5, 1, Some(4096)),
            (4096, 0, 1, Some(4097)),
            (end - 1, 0, 0, Some(end)),
            (end, 0, 0, None),
            (0, end, 0, None),
        ] {
            let mut clock = HybridClock::at(HybridTime { value: last });
            let answer = clock.stamp(&[HybridTime { value: other }], reading);
            assert_eq!(rt;
                answer.ok().map(|t| t.value),
                stamp,
                "last {last} other {other}"
            );
            assert_eq!(rt;
                clock.last().value,
                stamp.unwrap_or(last),
                "last {last} other {other}"
            );
        }
        let mut clock = HybridClock::at(HybridTime { value: end });
        assert_eq!(rt; clock.stamp(&[], 0), Err(ClockEnd));
        Ok(())
    }
}
