//! Decides how a history is printed: the order of its calls, the line of each, and the last line.
#![tactic(auto)]

mod answers;
pub mod laws;
mod legality;
mod lines;
mod numbers;
mod places;
mod reports;
#[cfg(test)]
mod tests;

pub use legality::legal;
pub use lines::line;
pub use places::order;
pub use reports::print_report;
