//! Reads one virtual block that a write touches in part.

use pmem_words::{Ask, Machine, Place, SeatState, Turn};

/// Loads the words of the physical block that holds the base added last, in ascending order, and adds them to the base words. It needs a
/// valid pin, and a seat at its tail.
#[derive(Clone, Copy, Debug, PartialEq, Eq)]
pub struct ReadBase {
    /// The physical block.
    pub block: u16,
    /// The word to be loaded, below q.
    pub word: u16,
}

impl ReadBase {
    ghost use Rattle.std.specs.Prelude.{◌≡◌};
    ghost use Rattle.partial_blocks.specs.ReadingBase.{read_base_of};

    /// A read of this physical block that has not begun.
    pub fn new(block: u16) -> ReadBase
        ensures { result ≡ read_base_of block }
    {
        ReadBase { block, word: 0 }
    }
}

impl Machine for ReadBase {
    ghost use Rattle.partial_blocks.specs.ReadingBase.{read_base_script, read_base_lowers};

    type Out = ();

    ghost script = { read_base_script };

    fn ask(&self, seat: &SeatState) -> Ask {
        let place = u32::from(self.block) * seat.geometry().q() + u32::from(self.word);
        Ask::Load(Place::Image(place))
    }

    fn tell(&mut self, seat: &mut SeatState, answer: u64) -> Turn<()> {
        seat.add_base_word(answer);
        if u32::from(self.word) + 1 < seat.geometry().q() {
            self.word += 1;
            Turn::Go
        } else {
            Turn::Done(())
        }
    }

    ghost lowers = { read_base_lowers };
}
