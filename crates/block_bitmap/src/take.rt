//! Takes blocks of one area.

ghost use Rattle.std.specs.Prelude.{◌≡◌};

use crate::take_bits::{last_word, least_bits, open_bits, own_blocks, word_of};
use log_entry::Area;
use pmem_words::{Ask, Machine, Place, SeatState, Turn};

/// How a pass over an area's bits ended.
#[derive(Clone, Copy, Debug, PartialEq, Eq)]
pub enum Taken {
    /// The seat has taken as many blocks as it was told to.
    Taken,
    /// Each block of this area was found taken, or the seat took it. Those that it took stay its own.
    NoSpace { area: Area },
}

/// Takes blocks of an area, at least one, and the seat's list of owned blocks has a free place for each. It goes once over the
/// area's words of the bitmap in ascending order and sets the least bits that are clear, at most as many as it still lacks. A
/// block whose bit another seat set first is not taken. It leaves a word when each of the area's bits was found set there.
#[derive(Clone, Copy, Debug, PartialEq, Eq)]
pub struct Take {
    /// The area whose blocks are taken.
    pub area: Area,
    /// How many blocks are still to be taken.
    pub count: u16,
    /// How many of the area's words of the bitmap were passed over.
    pub passed: u16,
    /// The bits of the next word that are known to be set; none before it is loaded.
    pub known: Option<u64>,
}

impl Take {
    ghost use Rattle.std.specs.Prelude.{◌≡◌, ◌≤◌};
    ghost use Rattle.block_bitmap.specs.TakeBits.{bits_of};
    ghost use Rattle.block_bitmap.specs.TakeScript.{take_of, wanted_at, settled, word_of as word_of_take, last_word as last_word_of};

    /// A pass that has not begun, for `count` blocks of the area.
    pub fn new(area: Area, count: u16) -> Take
        ensures { result ≡ take_of area count }
    {
        Take {
            area,
            count,
            passed: 0,
            known: None,
        }
    }

    /// The word of the bitmap at hand.
    #[inline]
    fn word(&self, seat: &SeatState) -> u32
        ensures { result ≡ word_of_take self.now seat.now }
    {
        word_of(seat.geometry(), self.area, self.passed)
    }

    /// Goes on with the same word where it has a block of the area whose bit is not among these, which are known to be set;
    /// else with the next word; and ends after the last one.
    #[inline]
    fn settle(&mut self, seat: &SeatState, known: u64) -> Turn<Taken>
        requires { word_of_take self.old seat.now ≤ last_word_of self.old.area seat.now }
        ensures machine { self.new ≡ (settled self.old seat.now known).machine }
        ensures turn { result ≡ (settled self.old seat.now known).turn }
    {
        let word = self.word(seat);
        if open_bits(seat.geometry(), self.area, word, known) != 0 {
            self.known = Some(known);
            Turn::Go
        } else if word < last_word(seat.geometry(), self.area) {
            self.passed += 1;
            self.known = None;
            Turn::Go
        } else {
            Turn::Done(Taken::NoSpace { area: self.area })
        }
    }

    /// The bits of the blocks that are to be taken next.
    #[inline]
    fn wanted(&self, seat: &SeatState, known: u64) -> u64
        ensures { result ≡ bits_of (wanted_at self.now seat.now known) }
    {
        let word = self.word(seat);
        least_bits(
            open_bits(seat.geometry(), self.area, word, known),
            self.count,
        )
    }
}

impl Machine for Take {
    ghost use Rattle.block_bitmap.specs.TakeScript.{take_script};
    ghost use Rattle.block_bitmap.specs.TakeLowering.{take_lowers};

    type Out = Taken;

    ghost script = { take_script };

    #[inline]
    fn ask(&self, seat: &SeatState) -> Ask {
        let place = Place::Map(self.word(seat));
        match self.known {
            None => Ask::Load(place),
            Some(known) => Ask::SetBits(place, self.wanted(seat, known)),
        }
    }

    #[inline]
    fn tell(&mut self, seat: &mut SeatState, answer: u64) -> Turn<Taken> {
        let word = self.word(seat);
        match self.known {
            None => {
                seat.add_found(word, answer);
                self.settle(seat, answer)
            }
            Some(known) => {
                let bits = self.wanted(seat, known);
                let gained = own_blocks(seat, word, bits & !answer, self.area);
                seat.add_found(word, answer | bits);
                self.count -= gained;
                if self.count == 0 {
                    Turn::Done(Taken::Taken)
                } else {
                    self.settle(seat, known | (answer | bits))
                }
            }
        }
    }

    ghost lowers = { take_lowers };
}
