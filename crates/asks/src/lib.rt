//! Decides what one step on a shared word is: which word it is on, what the word becomes, and what is answered.
#![tactic(auto)]

mod ask;

pub use ask::{Ask, Place};
