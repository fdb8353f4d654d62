//! Decides what an image means: its chain, its map at a position, the file that it stands for, and what a run may start from.
#![tactic(auto)]

pub mod header;
pub mod laws;
mod starts;
#[cfg(test)]
mod tests;

pub use starts::Start;
