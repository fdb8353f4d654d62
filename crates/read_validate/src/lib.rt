//! How a seat looks at the file: it pins, goes to the tail, and reads the size or a range of bytes there.
#![tactic(auto)]

mod joints;
pub mod laws;
mod look;
mod query;
mod range;
mod run;
#[cfg(test)]
mod tests;

pub use look::Look;
pub use query::{Query, Seen, Stage};
