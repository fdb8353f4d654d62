//! Decides what a seat keeps, and how a call on shared words is made of steps: a machine asks, and is told one answer an ask.
#![tactic(auto)]

mod keeps;
mod leaving;
mod lists;
mod machine;
mod memory;
mod owned;
#[cfg(test)]
mod owned_tests;
mod plain;
mod seat;
#[cfg(test)]
mod seat_tests;
#[cfg(test)]
mod tests;
mod written;

pub use asks::{Ask, Place};
pub use keeps::{GiveFrom, KeptWord, Task};
pub use machine::{Machine, Turn, drive};
pub use memory::Memory;
pub use owned::{OwnedBlock, OwnedBlocks};
pub use plain::Plain;
pub use seat::SeatState;
pub use written::Written;

/// The numbers of seats are below it.
pub const SEATS: usize = 16;

/// How many bytes one call writes or reads at most.
pub const JOB_BYTES: usize = 1_048_576;

/// How many blocks an image has at most.
pub const BLOCKS: usize = 65_535;
