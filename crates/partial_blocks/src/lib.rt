//! The blocks of a write: how those that it touches only in part start from the bytes that are there.
#![tactic(auto)]

mod bytes;
mod composing;
mod entry;
pub mod laws;
mod read_base;
mod read_bases;
mod runs;
#[cfg(test)]
mod tests;
mod touching;

pub use composing::{compose, compose_place};
pub use entry::{entry_of, leftover_of};
pub use read_base::ReadBase;
pub use read_bases::ReadBases;
pub use runs::{are_one_run, compose_runs};
pub use touching::{first_touched, is_in_part, lacks_base, last_touched, touched_count};
