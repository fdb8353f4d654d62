//! Decides which steps seats may make on an image, what each makes of it, and what holds after every run.
#![tactic(auto)]

pub mod laws;
pub mod rows;
