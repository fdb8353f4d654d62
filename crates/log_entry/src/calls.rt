//! What callers ask and what they are answered.

use crate::content::Blob;
use crate::shapes::Area;

/// What a call asks. Offsets and lengths are bytes.
#[derive(Debug, Drop)]
pub enum Op {
    /// Write these bytes at this offset.
    Pwrite { offset: u64, bytes: Blob },
    /// Write these bytes at the end of the file.
    Append { bytes: Blob },
    /// Read at most this many bytes from this offset on.
    Pread { offset: u64, length: u64 },
    /// The length of the file.
    Size,
    /// Let no crash from now on lose a write that is in the file.
    Sync,
    /// Write the map as a snapshot, and give back the blocks that it does not need.
    Collect,
}

/// A call to be made.
#[derive(Debug, Drop)]
pub struct Job {
    /// The line of the trace that asks it, from 1.
    pub line: u64,
    /// The caller's seat, below 16.
    pub seat: u8,
    /// The place of the call among its seat's calls, from 1.
    pub number: u32,
    pub op: Op,
}

/// Why a write changed nothing. The first that holds is the answer.
#[derive(Clone, Copy, Debug, PartialEq, Eq)]
pub enum WriteRefusal {
    /// The write touches this many blocks, more than one write may.
    TooLong { blocks: u64 },
    /// The write would end at this byte, past the limit of the file.
    TooLarge { end: u128 },
    /// Too few blocks of this area are free.
    NoSpace { area: Area },
    /// The file has the greatest position.
    PositionLimit,
}

/// Why a collection gave back nothing.
#[derive(Clone, Copy, Debug, PartialEq, Eq)]
pub enum CollectRefusal {
    /// The log has no entry after its snapshot.
    Nothing,
    /// Too few spare blocks are free.
    NoSpace,
    /// Another collection put this generation in place first.
    Overtaken { generation: u32 },
    /// The image has the greatest generation.
    GenerationLimit,
}

/// A seat whose pin keeps the blocks of a generation.
#[derive(Clone, Copy, Debug, PartialEq, Eq)]
pub struct Held {
    pub seat: u8,
    pub generation: u32,
}

/// What a collection did.
#[derive(Clone, Copy, Debug, PartialEq, Eq)]
pub struct Collected {
    /// The generation that it put in place.
    pub generation: u32,
    /// Blocks given back.
    pub freed: u32,
    /// Blocks kept for a seat that may still read them.
    pub kept: u32,
    /// The pin for which they are kept; there exactly where some are.
    pub held: Option<Held>,
}

/// What a call is answered.
#[derive(Debug, Drop)]
pub enum Reply {
    /// A `pwrite` of this many bytes was accepted.
    Wrote { length: u64 },
    /// An `append` of this many bytes was accepted, at this offset.
    Appended { at: u64, length: u64 },
    NotWritten(WriteRefusal),
    /// The bytes of a `pread`.
    Bytes(Blob),
    /// The length of the file in bytes.
    Size(u64),
    /// The position up to which no crash loses a write.
    Synced(u64),
    Collected(Collected),
    NotCollected(CollectRefusal),
}

/// The record of a call: what was asked and answered, and where it stands in the history.
#[derive(Debug, Drop)]
pub struct Call {
    /// How many writes the file had had after this call, since it was made.
    pub position: u64,
    /// The caller's seat.
    pub seat: u8,
    /// The place of the call among its seat's calls, from 1.
    pub number: u32,
    pub op: Op,
    pub reply: Reply,
}
