//! Snapshot schedules: the window of each, when its next snapshot is due, and the list of them.
//!
//! That a schedule has an interval and a retention, and that a database is taken back by the
//! snapshots of its schedules, is YugabyteDB's own. The bounds of the periods, and how far a window
//! reaches back after an edit, are this project's own.
#![tactic(auto)]

mod agree;
mod list;
mod schedule;
mod scheduled;
mod spaces;
mod steps;

pub use list::{CreateRefused, EditRefused, ScheduleList, UnknownSchedule};
pub use schedule::{BadPeriod, Schedule, is_period};
pub use scheduled::{ScheduledNamespace, or_before};
pub use spaces::ScheduledNamespaces;

#[cfg(test)]
mod tests {
    use super::*;
    use hybrid_time::HybridTime;
    use row_values::Copied;
    use std::test::Fail;
    use yb_ident::{Ident, Kind};

    fn at(micros: u64, logical: u64) -> HybridTime {
        HybridTime {
            value: if micros < 1 << 40 && logical < 4096 {
                micros * 4096 + logical
            } else {
                1 << 62
            },
        }
    }

    fn schedule(interval: u64, retention: u64) -> Result<Schedule, BadPeriod> {
        let id = Ident {
            kind: Kind::Schedule,
            number: 1,
        };
        let namespace = Ident {
            kind: Kind::Namespace,
            number: 1,
        };
        Schedule::new(id, namespace, interval, retention, at(1000000, 3))
    }

    #[test]
    fn periods_have_their_limits(rt: HostRuntime) -> Result<(), Fail> {
        for (interval, retention, taken) in [
            (1u64, 10u64, true),
            (10, 10, false),
            (5, 5, false),
            (0, 5, false),
            (1, 2, true),
            (1, 525600, true),
            (1, 525601, false),
            (u64::MAX, 5, false),
        ] {
            let made = schedule(interval, retention);
            assert_eq!(rt; made.is_ok(), taken, "periods {interval} {retention}");
            if let Err(bad) = made {
                assert!(rt; bad.interval == interval && bad.retention == retention);
            }
        }
        Ok(())
    }

    #[test]
    fn a_window_reaches_back_by_the_retention_and_not_past_an_edit(
        rt: HostRuntime,
    ) -> Result<(), Fail> {
        let Ok(made) = schedule(1, 10) else {
            return Ok(());
        };
        let mut edited = made.copy()?;
        assert!(rt; made.low(at(1000000, 8)) == at(1000000, 3));
        assert!(rt; made.low(at(700000000, 0)) == at(100000000, 0));
        assert!(rt; edited.edit(5, 5, at(700000000, 0)).is_err());
        assert!(rt; edited == made);
        assert!(rt; edited.edit(1, 20, at(700000000, 0)).is_ok());
        assert!(rt; edited.low(at(700000000, 2)) == at(100000000, 0));
        assert!(rt; edited.made == at(1000000, 3));
        Ok(())
    }

    #[test]
    fn a_snapshot_is_due_an_interval_after_the_last(rt: HostRuntime) -> Result<(), Fail> {
        let Ok(mut made) = schedule(1, 10) else {
            return Ok(());
        };
        assert!(rt; made.next() == at(1000000, 3));
        made.last = Some(at(1000000, 4));
        assert!(rt; made.next() == at(61000000, 4));
        assert!(rt; !made.is_due(at(61000000, 3)));
        assert!(rt; made.is_due(at(61000000, 4)));
        made.last = Some(HybridTime { value: 1 << 62 });
        assert!(rt; made.next() == HybridTime { value: 1 << 62 });
        Ok(())
    }
}
