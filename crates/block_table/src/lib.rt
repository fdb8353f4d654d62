//! The map and the size that one seat keeps: which physical block holds each virtual block of the file, and how many bytes the file has.
#![tactic(auto)]

pub mod laws;
mod map_run;
mod places;
mod table;

pub use map_run::MapRun;
pub use table::Table;

/// How many virtual blocks a file has; their numbers are below it.
pub const VIRTUAL_BLOCKS: usize = 65_536;

/// The numbers of the image's physical blocks are below it.
pub const PHYSICAL_BLOCKS: usize = 65_536;

/// How many blocks a run has at most.
pub const LONGEST_RUN: usize = 256;

#[cfg(test)]
mod tests;
