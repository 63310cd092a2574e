//! Versions of rows, and stores of them. A version is what one operation did to the row of a key, at
//! its stamp. Contracts see a store as one list of versions, by key and then in the order in which
//! they were written, and as the cutoff from which its reads are right.
#![tactic(auto)]

mod copies;
mod index;
mod order;
mod plain;
mod store;
#[cfg(test)]
mod tests;
mod version;

pub use plain::PlainStore;
pub use store::{ReadRefused, VersionStore};
pub use version::Version;
