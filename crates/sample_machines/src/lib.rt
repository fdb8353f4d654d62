//! Small machines that show how a machine is written, composed and proved over a plain memory. Nothing else stands on them.
#![tactic(auto)]

mod alone;
mod carry;
mod lay;
mod offer;
mod post;
#[cfg(test)]
mod tests;

pub use alone::{carry_alone, lay_alone, post_alone};
pub use carry::Carry;
pub use lay::Lay;
pub use offer::Offer;
pub use post::{Post, Stage};
