//! Gives one block back.

use pmem_words::{Ask, Machine, Place, SeatState, Turn};

/// Clears the bit of an owned block in the bitmap. The block leaves the list, and its bit the seat's bits of blocks found taken.
#[derive(Clone, Copy, Debug, PartialEq, Eq)]
pub struct GiveOne {
    /// The block.
    pub block: u16,
}

impl GiveOne {
    ghost use Rattle.std.specs.Prelude.{◌≡◌};
    ghost use Rattle.write_any.specs.GivingOne.{give_one_of};

    /// A giving of this block.
    pub fn new(block: u16) -> GiveOne
        ensures { result ≡ give_one_of block }
    {
        GiveOne { block }
    }
}

impl Machine for GiveOne {
    ghost use Rattle.write_any.specs.GivingOne.{give_one_script, give_one_lowers};

    type Out = ();

    ghost script = { give_one_script };

    fn ask(&self, _seat: &SeatState) -> Ask {
        Ask::ClearBits(
            Place::Map(u32::from(self.block) / 64),
            1u64 << (self.block % 64),
        )
    }

    fn tell(&mut self, seat: &mut SeatState, _answer: u64) -> Turn<()> {
        let word = u32::from(self.block) / 64;
        let bits = 1u64 << (self.block % 64);
        seat.disown_in_word(word, bits);
        seat.remove_found(word, bits);
        Turn::Done(())
    }

    ghost lowers = { give_one_lowers };
}
