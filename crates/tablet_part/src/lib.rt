//! The part of a slot: a tablet over any store of versions. Contracts see it as the book's tablet, with the
//! room of its store, and what it does as the book's effects. What an act reads of one tablet is a call on
//! `&TabletPart`, whose contract is the book's plan.
//!
//! What takes memory comes first and may fail: a `prepare` leaves the tablet as it was, and gives a store or
//! makes room. What changes the tablet comes last, and can't fail.
#![tactic(auto)]

mod effects;
mod frozen;
mod part;
mod plans;
mod presence;
mod processing;
mod refused;
mod store;

pub use frozen::Frozen;
pub use part::TabletPart;
pub use plans::Counts;
pub use presence::Presence;
pub use refused::TabletRefused;
pub use store::ReadyStore;
