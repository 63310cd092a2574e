//! What retention needs: how far a tablet's history may be cut, the floor of a namespace, and
//! whether a hidden tablet or a snapshot may go.
//!
//! These rules are this project's own. Each is over what its caller read: the low end of the
//! windows, the time of an unfinished operation, the record that lists a tablet.
#![tactic(auto)]

ghost use Rattle.std.specs.Prelude.{◌≡◌, ◌<◌, Some, None, IfSome, MatchResult};
ghost use Rattle.model.specs.Times.{end_of_time};
ghost use Rattle.model.specs.Schedules as book;
ghost use Rattle.row_values.specs.Ids.{Id};
ghost use Rattle.model.specs.Acts.{IsListed};
ghost use Rattle.model.specs.Cleanup as cleanup;
ghost use Rattle.retention_rules.specs.Seen.{refusal_of};

mod kept;

use hybrid_time::HybridTime;
pub use kept::Kept;
use schedules::or_before;
use yb_ident::Ident;

// The ticks of 900 seconds.
const HISTORY_RETENTION: u64 = 900 * 1_000_000 * 4096;

/// How far an event at a stamp may raise the cutoff of a tablet: in a scheduled namespace, past the
/// last complete snapshot since it was scheduled. It takes no memory.
pub fn allowed_cutoff(
    since: Option<HybridTime>,
    last_complete: Option<HybridTime>,
    now: HybridTime,
) -> HybridTime
    requires taken { IfSome last_complete (λ t. t < end_of_time) }
    ensures exact { result ≡ book.allowed_cutoff since last_complete now }
{
    match since {
        None => now.minus(HISTORY_RETENTION),
        Some(since) => or_before(last_complete, since).plus_one(),
    }
}

/// The floor of a namespace at a stamp: what is below it, retention doesn't need. It takes no
/// memory.
pub fn floor(
    least_low: Option<HybridTime>,
    unfinished_to: Option<HybridTime>,
    now: HybridTime,
) -> HybridTime
    ensures exact { result ≡ book.floor least_low unfinished_to now }
{
    match least_low {
        None => now,
        Some(least) => match unfinished_to {
            None => least,
            Some(to) => to.earlier_of(least),
        },
    }
}

/// Whether a tablet that was hidden at a stamp may go. It takes no memory.
pub fn removable_tablet(
    ended: HybridTime,
    floor: HybridTime,
    listed: Option<Ident>,
) -> Result<(), Kept>
    ensures exact { MatchResult result
        (λ _. cleanup.removable_tablet ended floor listed ≡ None)
        (λ why. cleanup.removable_tablet ended floor listed ≡ Some (refusal_of why)) }
{
    if floor.number() < ended.number() {
        return Err(Kept::InWindow { at: ended, floor });
    }
    unlisted(listed)
}

/// Whether a snapshot of a time may go. It takes no memory.
pub fn removable_snapshot(
    at: HybridTime,
    floor: HybridTime,
    named: Option<Ident>,
) -> Result<(), Kept>
    ensures exact { MatchResult result
        (λ _. cleanup.removable_snapshot at floor named ≡ None)
        (λ why. cleanup.removable_snapshot at floor named ≡ Some (refusal_of why)) }
{
    if floor.number() <= at.number() {
        return Err(Kept::InWindow { at, floor });
    }
    unlisted(named)
}

fn unlisted(by: Option<Ident>) -> Result<(), Kept>
    ensures exact { MatchResult result
        (λ _. by ≡ None)
        (λ why. (id : Id) × (by ≡ Some id) × (refusal_of why ≡ IsListed id)) }
{
    match by {
        None => Ok(()),
        Some(by) => Err(Kept::Listed { by }),
    }
}

#[cfg(test)]
mod tests {
    use super::*;
    use std::test::Fail;
    use yb_ident::Kind;

    fn at(micros: u64, logical: u64) -> HybridTime
        ensures below { result < end_of_time }
    {
        HybridTime {
            value: if micros < 1 << 40 && logical < 4096 {
                micros * 4096 + logical
            } else {
                0
            },
        }
    }

    #[test]
    fn cutoffs_follow_the_last_complete_snapshot(rt: HostRuntime) -> Result<(), Fail> {
        let now = at(1000000, 8);
        let raised = allowed_cutoff(Some(at(1000000, 3)), Some(at(1000000, 4)), now);
        assert!(rt; raised == at(1000000, 5));
        let unserved = allowed_cutoff(Some(at(1000000, 3)), None, now);
        assert!(rt; unserved == at(1000000, 3));
        let early = allowed_cutoff(None, None, now);
        assert!(rt; early == at(0, 0));
        let unscheduled = allowed_cutoff(None, None, at(1000000000, 7));
        assert!(rt; unscheduled == at(100000000, 7));
        Ok(())
    }

    #[test]
    fn a_floor_is_lowered_by_an_unfinished_operation(rt: HostRuntime) -> Result<(), Fail> {
        let now = at(1000000, 8);
        assert!(rt; floor(None, Some(at(5, 0)), now) == now);
        assert!(rt; floor(Some(at(1000000, 3)), None, now) == at(1000000, 3));
        assert!(rt; floor(Some(at(1000000, 3)), Some(at(5, 0)), now) == at(5, 0));
        assert!(rt; floor(Some(at(5, 0)), Some(at(1000000, 3)), now) == at(5, 0));
        Ok(())
    }

    #[test]
    fn what_the_window_needs_or_a_record_lists_stays(rt: HostRuntime) -> Result<(), Fail> {
        let low = at(1000000, 3);
        let by = Ident {
            kind: Kind::Restoration,
            number: 1,
        };
        let dropped = at(1000000, 6);
        let kept = Err(Kept::InWindow {
            at: dropped,
            floor: low,
        });
        assert!(rt; removable_tablet(dropped, low, None) == kept);
        assert!(rt; removable_tablet(dropped, low, Some(by)) == kept);
        assert!(rt; removable_tablet(low, low, None) == Ok(()));
        assert!(rt; removable_tablet(low, low, Some(by)) == Err(Kept::Listed { by }));
        let same = Err(Kept::InWindow {
            at: low,
            floor: low,
        });
        assert!(rt; removable_snapshot(low, low, None) == same);
        assert!(rt; removable_snapshot(low, dropped, None) == Ok(()));
        assert!(rt; removable_snapshot(low, dropped, Some(by)) == Err(Kept::Listed { by }));
        Ok(())
    }
}
