//! Machines at the seats of a world, each run by turns, and tests of worlds of several seats. No command stands on it.
#![tactic(auto)]

#[cfg(test)]
mod block_tests;
pub mod block_turns;
#[cfg(test)]
mod look_tests;
pub mod look_turns;
pub mod one_seat;
#[cfg(test)]
mod one_seat_tests;
pub mod pair_turns;
pub mod pin_drives;
#[cfg(test)]
mod pin_tests;
pub mod pin_turns;
#[cfg(test)]
mod write_tests;
pub mod write_turns;

/// A machine has not ended in the turns that it was given.
#[derive(Clone, Copy, Debug)]
pub struct Unfinished;
