//! Decides what one step of a seat makes of the image that several seats share, and what a crash leaves of it.
#![tactic(auto)]

mod shared;
mod world;

pub use persistence::Choice;
pub use shared::SharedImage;
pub use world::World;
