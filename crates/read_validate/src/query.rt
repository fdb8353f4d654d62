//! What a call asks of the file, and where it stands.

use crate::range::ReadRange;
use log_blocks::Walk;
use pins::{Pin, Unpin};

/// What is asked of the file.
#[derive(Clone, Copy, Debug, PartialEq, Eq)]
pub enum Query {
    /// How many bytes it has.
    Size,
    /// Its bytes from this one on, so many at the most.
    Range { offset: u64, length: u32 },
}

/// Where a look stands.
#[derive(Clone, Copy, Debug, PartialEq, Eq)]
pub enum Stage {
    /// It takes a valid pin.
    Pinning(Pin),
    /// It goes to the tail.
    Walking(Walk),
    /// It loads the words of the range.
    Reading(ReadRange),
    /// It gives its pin up.
    Unpinning(Unpin),
}

/// What a look has seen.
#[derive(Clone, Copy, Debug, PartialEq, Eq)]
pub struct Seen {
    /// The position whose file that is.
    pub position: u64,
    /// The file's size in bytes; of a range, how many of its bytes there are.
    pub number: u64,
}
