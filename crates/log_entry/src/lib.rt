//! Decides what the project's words mean: the shape of an image, a call and its reply, and which lists of calls are a legal history of a byte file.
#![tactic(auto)]

mod calls;
mod content;
mod entries;
mod fields;
pub mod laws;
pub mod layouts;
#[cfg(test)]
mod shape_tests;
mod shapes;
#[cfg(test)]
mod tests;
pub mod text;
mod word_bytes;
pub mod word_laws;
mod words;

pub use calls::{Call, CollectRefusal, Collected, Held, Job, Op, Reply, WriteRefusal};
pub use content::Blob;
pub use entries::{Entry, decode, encode};
pub use fields::Field;
pub use shapes::{Area, BadShape, Geometry};
pub use word_bytes::{of_bytes, to_bytes};
pub use words::{BlockKind, BlockWord, Head, IndirectWord, RunWord, SnapshotWord};
