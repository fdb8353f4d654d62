//! Decides which values a crash may leave in the words of an image.
#![tactic(auto)]

mod cells;
pub mod laws;
mod survivors;
#[cfg(test)]
mod tests;

pub use cells::Cells;
pub use survivors::Choice;
