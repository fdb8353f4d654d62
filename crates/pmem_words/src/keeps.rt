//! Small things that a seat keeps.

use log_entry::{Area, Entry};

/// The present call of a seat, or the machine that is driven alone, with its arguments. The bytes of a write, and those that
/// a read has laid so far, stand beside it.
#[derive(Clone, Copy, Debug, PartialEq, Eq)]
pub enum Task {
    /// No call runs.
    Idle,
    /// Writes the seat's bytes at this byte of the file.
    Pwrite { offset: u64 },
    /// Writes the seat's bytes at the end of the file.
    Append,
    /// Reads at most `length` bytes, up to 1,048,576, from byte `offset` of the file on.
    Pread { offset: u64, length: u32 },
    /// Tells the size.
    Size,
    /// Makes what is written outlast a crash.
    Sync,
    /// Writes the map as a snapshot and gives back the blocks that it does not need.
    Collect,
    /// Takes a valid pin.
    Pin,
    /// Gives the pin up.
    Unpin,
    /// Looks for pins of generations up to this one.
    Scan { generation: u32 },
    /// Takes this many blocks of the area.
    Take { area: Area, count: u16 },
    /// Gives all blocks of one list back.
    Give { from: GiveFrom },
    /// Stores, marks and fences this many owned blocks from place `first` of their list on.
    Fill { first: u16, count: u16 },
    /// Goes to the tail.
    Walk,
    /// Offers an entry at the tail.
    Offer { entry: Entry },
    /// Links this owned log block at the tail.
    Grow { block: u16 },
    /// Seals the tail's block.
    Seal,
}

/// A list of blocks that a seat may give back.
#[derive(Clone, Copy, Debug, PartialEq, Eq)]
pub enum GiveFrom {
    /// Taken and neither committed nor given back.
    Owned,
    /// Kept from an earlier collection, for a pin that needed them.
    Limbo,
    /// Those of the chain that the present collection replaced.
    Replaced,
}

/// A word of a snapshot, log or indirect block that was loaded and is not yet taken in.
#[derive(Clone, Copy, Debug, PartialEq, Eq)]
pub struct KeptWord {
    /// The block of the image.
    pub block: u16,
    /// The word's place in the block, below 512.
    pub slot: u16,
    /// The word.
    pub word: u64,
}
