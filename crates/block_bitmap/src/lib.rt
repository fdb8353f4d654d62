//! How a seat takes free blocks of an area, fills blocks that it owns, and gives blocks back, and how a task begins.
#![tactic(auto)]

mod alone;
mod begin;
mod fill;
#[cfg(test)]
mod fill_tests;
mod give;
#[cfg(test)]
mod give_tests;
mod given;
pub mod laws;
mod take;
mod take_bits;
#[cfg(test)]
mod take_tests;
mod words;

pub use alone::take_alone;
pub use begin::begin_alone;
pub use fill::Fill;
pub use give::{Give, GiveFrom};
pub use take::{Take, Taken};
