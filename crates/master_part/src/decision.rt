use crate::act::MasterAct;
use crate::change::PartChange;
use cluster_events::Reply;
use row_values::Records;

/// What an event comes to, by the master's part.
#[derive(Drop)]
pub enum Decision {
    /// It changes nothing.
    Answers(Reply),
    /// It is done: what the master is told, what the touched tablets' parts get, and the reply.
    Accepts {
        act: MasterAct,
        changes: Records<PartChange>,
        reply: Reply,
    },
}
