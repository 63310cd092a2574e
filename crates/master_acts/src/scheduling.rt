//! How commands on schedules are judged: what is found, or the first refusal. None of these calls takes memory.
ghost use Rattle.std.specs.Prelude.{◌≡◌};
ghost use Rattle.model.specs.Changes as book;
ghost use Rattle.model.specs.Changes.{schedule_user};
ghost use Rattle.master_part.specs.Answers.{answer};

use cluster_events::Refusal;
use hybrid_time::HybridTime;
use master_part::{MasterPart, scheduled_namespace};
use row_values::Name;
use schedules::{CreateRefused, Schedule, is_period};
use yb_ident::Ident;

// The operation that uses a schedule's namespace, or else the namespace's unfinished snapshot.
fn schedule_user(master: &MasterPart, schedule: &Schedule) -> Option<Ident>
    ensures exact { result ≡ schedule_user master.now.master schedule.now }
{
    let namespace = scheduled_namespace(schedule);
    match master.user(&namespace) {
        Some(operation) => Some(operation),
        None => master.snapshots().unfinished_of(&namespace),
    }
}

/// A new schedule: its namespace.
pub fn judge_create_schedule(
    master: &MasterPart,
    interval: u64,
    retention: u64,
    namespace: &Name,
) -> Result<Ident, Refusal>
    ensures exact { answer result ≡ book.judge_create_schedule interval retention namespace.now master.now.master }
{
    let Some(found) = master.catalog().namespace_named(namespace) else {
        return Err(Refusal::UnknownNamespace);
    };
    if let Some(operation) = master.holder(&found) {
        return Err(Refusal::Busy { operation });
    }
    match master.schedules().judge_create(&found, interval, retention) {
        Ok(()) => Ok(found),
        Err(CreateRefused::TooMany { limit }) => Err(Refusal::TooMany { limit }),
        Err(
            CreateRefused::BadPeriod {
                interval,
                retention,
            },
        ) => Err(Refusal::BadPeriod {
            interval,
            retention,
        }),
    }
}

/// Other periods of a schedule: that schedule.
pub fn judge_edit_schedule(
    master: &MasterPart,
    schedule: &Ident,
    interval: u64,
    retention: u64,
) -> Result<Schedule, Refusal>
    ensures exact { answer result ≡ book.judge_edit_schedule schedule.now interval retention master.now.master }
{
    let Some(found) = master.schedules().schedule_with(schedule) else {
        return Err(Refusal::UnknownSchedule);
    };
    if !is_period(interval, retention) {
        return Err(Refusal::BadPeriod {
            interval,
            retention,
        });
    }
    Ok(found)
}

/// The end of a schedule: that schedule.
pub fn judge_delete_schedule(master: &MasterPart, schedule: &Ident) -> Result<Schedule, Refusal>
    ensures exact { answer result ≡ book.judge_delete_schedule schedule.now master.now.master }
{
    let Some(found) = master.schedules().schedule_with(schedule) else {
        return Err(Refusal::UnknownSchedule);
    };
    if let Some(operation) = schedule_user(master, &found) {
        return Err(Refusal::Busy { operation });
    }
    Ok(found)
}

/// A snapshot by a schedule at a stamp: that schedule.
pub fn judge_take_snapshot(
    master: &MasterPart,
    schedule: &Ident,
    stamp: HybridTime,
) -> Result<Schedule, Refusal>
    ensures exact { answer result ≡ book.judge_take_snapshot schedule.now stamp master.now.master }
{
    let Some(found) = master.schedules().schedule_with(schedule) else {
        return Err(Refusal::UnknownSchedule);
    };
    if let Some(operation) = schedule_user(master, &found) {
        return Err(Refusal::Busy { operation });
    }
    if !found.is_due(stamp) {
        return Err(Refusal::NotDue { next: found.next() });
    }
    Ok(found)
}

/// A restoration by a schedule to a time: that schedule.
pub fn judge_restore(
    master: &MasterPart,
    schedule: &Ident,
    to: HybridTime,
    stamp: HybridTime,
) -> Result<Schedule, Refusal>
    ensures exact { answer result ≡ book.judge_restore schedule.now to stamp master.now.master }
{
    let Some(found) = master.schedules().schedule_with(schedule) else {
        return Err(Refusal::UnknownSchedule);
    };
    if let Some(operation) = master.user(&scheduled_namespace(&found)) {
        return Err(Refusal::Busy { operation });
    }
    let low = found.low(stamp);
    if to.number() < low.number() {
        return Err(Refusal::TooEarly { low });
    }
    if stamp.number() <= to.number() {
        return Err(Refusal::Future { now: stamp });
    }
    Ok(found)
}
