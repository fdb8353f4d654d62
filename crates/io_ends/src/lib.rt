//! Decides what bytes go in and out, and when a fault may be reported.
#![tactic(auto)]

mod failing;
mod in_memory;
mod sinks;
mod sources;
mod standard;
#[cfg(test)]
mod tests;
mod word_list;

pub use failing::{FailingBytes, FailingGathered};
pub use in_memory::{Bytes, Gathered};
pub use sinks::{Put, Sink, WriteAll, write_all};
pub use sources::{Got, ReadAll, Source, read_all};
pub use standard::{FromRead, ToWrite};
pub use word_list::Words;
