//! Fills owned blocks.

use crate::words::{content_at, image_word, unfill};
use pmem_words::{Ask, Machine, Place, SeatState, Turn};

/// Stores the words of owned blocks in the image and makes them outlast a crash, block by block in the order of their list:
/// it stores all words of a block, in ascending order, and then marks them in that order. One fence comes at the end. So a
/// block of q words takes 2q steps.
#[derive(Clone, Copy, Debug, PartialEq, Eq)]
pub enum Fill {
    /// Word `word` of the block at place `place` of the owned list is to be stored. There are `left` blocks to be filled
    /// yet, this one among them.
    Store { place: u16, left: u16, word: u16 },
    /// The words of that block are stored, and this one is to be marked.
    Mark { place: u16, left: u16, word: u16 },
    /// All blocks are filled, and the fence is to come.
    Fence,
}

impl Fill {
    ghost use Rattle.std.specs.Prelude.{◌≡◌};
    ghost use Rattle.block_bitmap.specs.Filling.{fill_of};

    /// A fill of `count` owned blocks, at least one, from place `first` of their list on. It needs that many there.
    pub fn new(first: u16, count: u16) -> Fill
        ensures { result ≡ fill_of first count }
    {
        Fill::Store {
            place: first,
            left: count,
            word: 0,
        }
    }
}

impl Machine for Fill {
    ghost use Rattle.block_bitmap.specs.Filling.{fill_script, fill_lowers};

    type Out = ();

    ghost script = { fill_script };

    #[inline]
    fn ask(&self, seat: &SeatState) -> Ask {
        match self {
            Fill::Store { place, word, .. } => Ask::Store(
                Place::Image(image_word(seat, *place, *word)),
                content_at(seat, *place, *word),
            ),
            Fill::Mark { place, word, .. } => Ask::Mark(image_word(seat, *place, *word)),
            Fill::Fence => Ask::Fence,
        }
    }

    #[inline]
    fn tell(&mut self, seat: &mut SeatState, _answer: u64) -> Turn<()> {
        let q = seat.geometry().q();
        match *self {
            Fill::Store { place, left, word } => {
                unfill(seat, place);
                *self = if u32::from(word) + 1 < q {
                    Fill::Store {
                        place,
                        left,
                        word: word + 1,
                    }
                } else {
                    Fill::Mark {
                        place,
                        left,
                        word: 0,
                    }
                };
                Turn::Go
            }
            Fill::Mark { place, left, word } => {
                if u32::from(word) + 1 < q {
                    *self = Fill::Mark {
                        place,
                        left,
                        word: word + 1,
                    };
                } else {
                    seat.set_filled(place, true);
                    *self = if 1 < left {
                        Fill::Store {
                            place: place + 1,
                            left: left - 1,
                            word: 0,
                        }
                    } else {
                        Fill::Fence
                    };
                }
                Turn::Go
            }
            Fill::Fence => {
                seat.fence_filled();
                Turn::Done(())
            }
        }
    }

    ghost lowers = { fill_lowers };
}
