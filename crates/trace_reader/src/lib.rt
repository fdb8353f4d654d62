//! Decides what a trace's text says: the jobs that it asks, or the first line that it refuses.
#![tactic(auto)]

mod digits;
mod fields;
mod generator;
pub mod laws;
mod lines;
mod printing;
mod reading;
mod refusals;
#[cfg(test)]
mod tests;

pub use generator::generate;
pub use printing::print_trace;
pub use reading::read_trace;
pub use refusals::{BadTrace, TraceRefusal};
