//! Many events, one after the other.
ghost use Rattle.std.specs.Prelude.{◌≡◌, ◌≤◌, take, map, length, IfOk, IfErr, OnOk};
ghost use Rattle.model.specs.History.{Legal, replay};
ghost use Rattle.machine_laws.specs.Laid.{parts_of};
ghost use Rattle.cluster_events.specs.SeenReplies.{reply_of};
ghost use Rattle.cluster_core.specs.Runs.{AreAsked, IsStopped, run_of, replies_of};

use crate::cluster::Cluster;
use crate::fault::StepRefused;
use cluster_events::{Event, Reply};
use row_values::Records;
use versions::VersionStore;

/// How many events were performed, and why the next was not.
#[derive(Clone, Copy, Debug)]
pub struct StoppedAt {
    pub done: u64,
    pub why: StepRefused,
}

impl<V: VersionStore> Cluster<V> {
    /// Performs events in their order, up to the first that is refused. Room for the replies is made
    /// first, so that none is lost.
    pub fn run_events(&mut self, events: Records<Event>) -> Result<Records<Reply>, StoppedAt>
        requires asked { AreAsked self.old.slots events }
        ensures slots { self.new.slots ≡ self.old.slots }
        ensures ran { OnOk result (self.new.history ≡ run_of self.old.slots events self.old.history) }
        ensures replies { IfOk result (λ replies. map reply_of replies ≡ replies_of self.old.slots events self.old.history) }
        ensures stopped { IfErr result (λ s. self.new.history ≡ run_of self.old.slots (take s.done events) self.old.history) }
        ensures done { IfErr result (λ s. s.done ≤ length events) }
        ensures cause { IfErr result (IsStopped self.old.slots events self.old.history) }
        ensures legal { Legal self.new.slots self.new.history }
        ensures parts { parts_of self.new.parts ≡ replay self.new.slots self.new.history }
    {
        self.is_past();
        let Ok(mut replies) = Vec::with_capacity(events.allocator(), events.len() as usize) else {
            return Err(StoppedAt {
                done: 0,
                why: StepRefused::NoMemory,
            });
        };
        for event in events.into_vec() {
            match self.step(event) {
                Ok(answer) => replies.push(answer.into_reply()).unwrap(),
                Err(why) => {
                    return Err(StoppedAt {
                        done: replies.len() as u64,
                        why,
                    });
                }
            }
        }
        Ok(Records::from_vec(replies))
    }
}
