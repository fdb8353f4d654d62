//! How a seat writes: it takes blocks, fills them, and puts an entry for them in at the tail of the log, again until it is the first there.
#![tactic(auto)]

mod contents;
mod give_one;
mod joints;
pub mod laws;
mod run;
mod stage;
mod write;

pub use stage::{Stage, Target};
pub use write::Write;
