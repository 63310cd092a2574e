//! What a coordinator has a tablet do, and the inbox in which its commands wait.
//!
//! That an operation fences its tablets, freezes them and has them go back, is this project's own
//! rule, and so is the mark that a tablet keeps of each command that it did: by it a command that
//! is sent once more is left out.
#![tactic(auto)]

mod body;
mod command;
mod inbox;
mod listed;
mod standing;

pub use body::{Body, BodyKind};
pub use command::{Mark, TabletCommand};
pub use inbox::Inbox;
pub use listed::{Listed, clear_acks, first_unacked, lists_tablet, set_acked, unacked_at};
pub use standing::Standing;

#[cfg(test)]
mod tests {
    use super::*;
    use hybrid_time::HybridTime;
    use row_values::NoMemory;
    use std::test::Fail;
    use yb_ident::{Ident, Kind};

    fn command(number: u64, body: Body) -> TabletCommand {
        let number = if number < 1000 { number + 1 } else { 1 };
        TabletCommand {
            operation: Ident {
                kind: Kind::Restoration,
                number,
            },
            tablet: Ident {
                kind: Kind::Tablet,
                number: 1,
            },
            body,
        }
    }

    fn send(inbox: &mut Inbox, command: TabletCommand) -> Result<(), NoMemory> {
        inbox.prepare_offer()?;
        inbox.offer(command);
        Ok(())
    }

    fn do_first(inbox: &mut Inbox) -> bool {
        if inbox.next().is_none() {
            return false;
        }
        inbox.mark_done();
        true
    }

    fn hiding(number: u64) -> TabletCommand {
        let body = Body::Hide {
            ended: HybridTime { value: 7 },
        };
        command(number, body)
    }

    #[test]
    fn a_command_is_done_once_in_its_turn(rt: HostRuntime) -> Result<(), Fail> {
        let mut inbox = Inbox::new(rt.alloc());
        assert!(rt; !do_first(&mut inbox));
        send(&mut inbox, command(1, Body::Fence))?;
        send(&mut inbox, hiding(1))?;
        send(&mut inbox, command(1, Body::Fence))?;
        assert!(rt; inbox.next() == Some(&command(1, Body::Fence)));
        assert!(rt; do_first(&mut inbox));
        send(&mut inbox, command(1, Body::Fence))?;
        assert!(rt; inbox.next() == Some(&hiding(1)));
        assert!(rt; do_first(&mut inbox));
        assert!(rt; inbox.next().is_none());
        Ok(())
    }

    #[test]
    fn a_restart_loses_what_waits_and_keeps_the_marks(rt: HostRuntime) -> Result<(), Fail> {
        let mut inbox = Inbox::new(rt.alloc());
        send(&mut inbox, command(1, Body::Fence))?;
        assert!(rt; do_first(&mut inbox));
        send(&mut inbox, command(2, Body::Fence))?;
        inbox.lose_all();
        assert!(rt; inbox.next().is_none());
        send(&mut inbox, command(1, Body::Fence))?;
        assert!(rt; inbox.next().is_none());
        send(&mut inbox, command(2, Body::Fence))?;
        assert!(rt; inbox.next() == Some(&command(2, Body::Fence)));
        Ok(())
    }
}
