//! Why a try performed no event.

/// A lock that was found taken, with its slot, or a refusal of the machine.
#[derive(Drop)]
pub enum TryRefused<F> {
    Taken { slot: u32 },
    Step(F),
}
