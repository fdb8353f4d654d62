//! Reads a source to its end as words.
#![tactic(auto)]

mod reading;
#[cfg(test)]
mod tests;

pub use reading::{WordsRead, read_words};
