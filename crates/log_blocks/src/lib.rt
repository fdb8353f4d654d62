//! The log: how a seat walks to its tail, and puts an entry, a link or a seal there.
#![tactic(auto)]

mod committing;
mod grow;
pub mod laws;
mod offer;
#[cfg(test)]
mod put_tests;
mod seal;
mod taking;
mod walk;

pub use grow::{Grow, Grown};
pub use offer::{Offer, Offered};
pub use seal::{Seal, Sealed};
pub use walk::{Tail, Walk};
