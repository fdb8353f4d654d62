//! Decides what one step on an image's words makes of the file that they stand for: blocks that the chain does not name are stored, a slot gets an entry, the log gets a block.
#![tactic(auto)]

pub mod laws;
