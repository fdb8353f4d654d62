//! Makes an image, gives the file that an image stands for, and prints an image.
#![tactic(auto)]

pub mod dumps;
pub mod files;
pub mod laws;
pub mod lines;
pub mod making;

pub use dumps::dump;
pub use files::{file_of, write_file};
pub use making::mkfs;

#[cfg(test)]
mod tests;
