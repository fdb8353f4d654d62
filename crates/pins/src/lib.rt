//! How a seat takes and gives up its pin of a generation, and which pin of all seats keeps the blocks of one.
#![tactic(auto)]

mod alone;
pub mod laws;
mod pin;
mod scan;
mod steps;
#[cfg(test)]
mod tests;
mod unpin;

pub use alone::scan_alone;
pub use pin::Pin;
pub use scan::{Scan, Scanned};
pub use unpin::Unpin;

/// The image word that is the head.
pub const HEAD_WORD: u32 = 3;
