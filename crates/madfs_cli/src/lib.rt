//! Decides what a command does: what it reads, what it writes, and the status it ends with.
#![tactic(auto)]

pub mod answers;
pub mod commands;
pub mod images;
pub mod outputs;
pub mod replays;
pub mod statuses;
#[cfg(test)]
mod tests;
pub mod top;
pub mod traces;
pub mod watch;
mod work;

pub use statuses::Status;
pub use top::run;
pub use watch::{Unwatched, Watch};
