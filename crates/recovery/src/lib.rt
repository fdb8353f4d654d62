//! Decides what an image holds: opens it, or refuses it for the first condition that holds, and clears what stands after the tail.
#![tactic(auto)]

mod bits;
#[cfg(test)]
mod block_tests;
mod blocks;
mod clearing;
mod headers;
mod opened;
mod openings;
mod passing;
mod reading;
mod refusals;
mod rules;
mod shares;
mod slacks;
mod slots;
mod tails;
#[cfg(test)]
mod tests;
mod walks;

pub use opened::Opened;
pub use opening_rules::BadImage;
pub use openings::{open_bytes, open_words, open_words_with_rest};
pub use refusals::OpenRefusal;
pub use tails::Tail;
