//! Makes the log longer by a block.

use crate::committing::leave_block;
use crate::taking::follow;
use log_entry::layouts::EMPTY;
use pmem_words::{Ask, Machine, Place, SeatState, Turn};

/// How an exchange of a link ended.
#[derive(Clone, Copy, Debug, PartialEq, Eq)]
pub enum Grown {
    /// The seat's block follows. The tail is its first slot.
    Linked,
    /// Another seat was faster, and this block of its follows. The tail is that one's first slot.
    Overtaken { block: u16 },
}

/// Links a block behind the tail's, which is at its end: it exchanges the link from 0 to the block. The block is of the log or spare
/// area, owned, filled and fenced, and is a new log block whose base is the position. It needs a valid pin. A seat that was overtaken
/// keeps its block, and no exchange counts as lost.
#[derive(Clone, Copy, Debug, PartialEq, Eq)]
pub struct Grow {
    /// The block, at least 1.
    pub block: u16,
}

impl Grow {
    ghost use Rattle.std.specs.Prelude.{◌≡◌};
    ghost use Rattle.log_blocks.specs.Growing.{grow_of};

    /// A linking of this block.
    pub fn new(block: u16) -> Grow
        ensures { result ≡ grow_of block }
    {
        Grow { block }
    }
}

impl Machine for Grow {
    ghost use Rattle.log_blocks.specs.Growing.{grow_script, grow_lowers};

    type Out = Grown;

    ghost script = { grow_script };

    fn ask(&self, seat: &SeatState) -> Ask {
        let place = u32::from(seat.tail_block()) * seat.geometry().q();
        Ask::Exchange {
            place: Place::Image(place),
            old: EMPTY,
            new: u64::from(self.block),
        }
    }

    fn tell(&mut self, seat: &mut SeatState, answer: u64) -> Turn<Grown> {
        if answer == EMPTY {
            leave_block(seat, self.block);
            follow(seat, self.block);
            seat.set_at_tail(true);
            Turn::Done(Grown::Linked)
        } else {
            let block = answer as u16;
            follow(seat, block);
            Turn::Done(Grown::Overtaken { block })
        }
    }

    ghost lowers = { grow_lowers };
}
