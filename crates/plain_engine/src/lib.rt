//! Answers the calls of one caller on an image: a vector of words, the least free blocks, direct entries, a log that grows.
#![tactic(auto)]

pub mod bitmap;
pub mod engine;
mod fresh;
pub mod laws;
pub mod stores;
#[cfg(test)]
mod tests;

pub use engine::PlainEngine;
