//! Gives blocks back.

use crate::given::{bits_in, give_word, least_word};
use pmem_words::{Ask, Machine, Place, SeatState, Turn};

/// Whose blocks are given back. Those that a collection replaced, and those kept from earlier ones, are not among them yet:
/// they wait for collections.
#[derive(Clone, Copy, Debug, PartialEq, Eq)]
pub enum GiveFrom {
    /// Those taken and neither committed nor given back.
    Owned,
}

/// Clears the bits of all blocks of a list in the bitmap, one ask for each word of the bitmap that has such bits, in
/// ascending order. The blocks leave the list, and their bits the seat's bits of blocks found taken. It ends with how many
/// blocks it gave. The list must not be empty.
#[derive(Clone, Copy, Debug, PartialEq, Eq)]
pub struct Give {
    /// Whose blocks are given.
    pub from: GiveFrom,
    /// How many blocks were given so far.
    pub given: u32,
}

impl Give {
    ghost use Rattle.std.specs.Prelude.{◌≡◌};
    ghost use Rattle.block_bitmap.specs.Giving.{give_of};

    /// A giving of a list's blocks that has not begun.
    pub fn new(from: GiveFrom) -> Give
        ensures { result ≡ give_of from }
    {
        Give { from, given: 0 }
    }
}

impl Machine for Give {
    ghost use Rattle.block_bitmap.specs.Giving.{give_script};
    ghost use Rattle.block_bitmap.specs.GiveLowering.{give_lowers};

    /// How many blocks were given.
    type Out = u32;

    ghost script = { give_script };

    fn ask(&self, seat: &SeatState) -> Ask {
        let word = least_word(seat.owned());
        Ask::ClearBits(Place::Map(word), bits_in(word, seat.owned()))
    }

    fn tell(&mut self, seat: &mut SeatState, _answer: u64) -> Turn<u32> {
        self.given += give_word(seat);
        if seat.owned().len() == 0 {
            Turn::Done(self.given)
        } else {
            Turn::Go
        }
    }

    ghost lowers = { give_lowers };
}
