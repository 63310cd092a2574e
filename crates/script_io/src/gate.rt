/// Where a thread of a section stands, by the number of its caller.
#[derive(Clone, Copy, Debug, PartialEq, Eq)]
pub enum GatePoint {
    CallBegins(u32),
    CallAnswered(u32),
    WorkerTurn(u32),
}

/// A place at which a test can hold a thread. It changes nothing that a contract speaks of.
pub trait Gate: Sync {
    /// Lets the thread pass, at once or later.
    fn pass(&self, point: GatePoint);
}

/// The gate that holds nobody.
#[derive(Clone, Copy, Debug)]
pub struct OpenGate;

impl Gate for OpenGate {
    fn pass(&self, _point: GatePoint) {}
}
