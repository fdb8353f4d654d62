//! Decides which words are an image that opening accepts, and the refusal of each that it does not.
#![tactic(auto)]

pub mod laws;
mod refusals;

pub use refusals::BadImage;
