//! Where a write begins, and where it stands.

use crate::give_one::GiveOne;
use block_bitmap::{Fill, Give, Take};
use log_blocks::{Grow, Offer, Walk};
use log_entry::WriteRefusal;
use pins::{Pin, Unpin};

/// Where a write begins.
#[derive(Clone, Copy, Debug, PartialEq, Eq)]
pub enum Target {
    /// At this byte of the file.
    At { offset: u64 },
}

/// Where a write stands.
#[derive(Clone, Copy, Debug, PartialEq, Eq)]
pub enum Stage {
    /// It takes a valid pin.
    Pinning(Pin),
    /// It goes to the tail.
    Walking(Walk),
    /// It takes a data block for each virtual block.
    Taking(Take),
    /// Those are not one run, and it takes one more for their runs.
    TakingRuns(Take),
    /// It fills them.
    Filling(Fill),
    /// The tail is a block's end, and it takes a log block.
    TakingLog(Take),
    /// It fills that.
    FillingLog(Fill),
    /// It links it.
    Growing(Grow),
    /// Another block was linked first, and it gives its own back.
    GivingLog(GiveOne),
    /// It puts its entry in.
    Offering(Offer),
    /// It gives its pin up. Here and later this refused the write, if anything did.
    Unpinning(Option<WriteRefusal>, Unpin),
    /// It gives back the blocks that it did not put into the log.
    Giving(Option<WriteRefusal>, Give),
}

impl Target {
    ghost use Rattle.std.specs.Prelude.{◌≡◌};
    ghost use Rattle.write_any.specs.Writing.{offset_of};

    /// The byte of the file at which the write begins.
    pub fn offset(&self) -> u64
        ensures { result ≡ offset_of self.now }
    {
        match self {
            Target::At { offset } => *offset,
        }
    }
}
