/// The state of a snapshot, a restoration or a clone, as it is told.
#[derive(Clone, Copy, Debug, PartialEq, Eq)]
pub enum State {
    Creating,
    Complete,
    Fencing,
    Snapshot,
    Switching,
    Restoring,
    Releasing,
    Restored,
    Accepted,
    Copying,
}
