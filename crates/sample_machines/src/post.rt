//! Two machines in turn, again and again.

use crate::lay::Lay;
use crate::offer::Offer;
use pmem_words::{Ask, Machine, SeatState, Turn};

/// Where a post stands.
#[derive(Clone, Copy, Debug, PartialEq, Eq)]
pub enum Stage {
    Laying(Lay),
    Offering(Offer),
}

/// Lays the seat's bytes from word `first` on and offers a value at the tail slot. Where the slot was filled it begins
/// again at the next one, below `limit`.
#[derive(Clone, Copy, Debug, PartialEq, Eq)]
pub struct Post {
    /// The word of the first byte.
    pub first: u16,
    /// The value to put in.
    pub value: u64,
    /// The slots are below it.
    pub limit: u16,
    /// Where it stands.
    pub stage: Stage,
}

impl Post {
    ghost use Rattle.std.specs.Prelude.{◌≡◌};
    ghost use Rattle.sample_machines.specs.Posting.{post_of};

    /// A post that has not begun.
    pub fn new(first: u16, value: u64, limit: u16) -> Post
        ensures { result ≡ post_of first value limit }
    {
        Post {
            first,
            value,
            limit,
            stage: Stage::Laying(Lay { first, next: 0 }),
        }
    }
}

impl Machine for Post {
    ghost use Rattle.sample_machines.specs.Posting.{post_script, post_lowers};

    /// Whether the value was put in.
    type Out = bool;

    ghost script = { post_script };

    fn ask(&self, seat: &SeatState) -> Ask {
        match &self.stage {
            Stage::Laying(lay) => lay.ask(seat),
            Stage::Offering(offer) => offer.ask(seat),
        }
    }

    fn tell(&mut self, seat: &mut SeatState, answer: u64) -> Turn<bool> {
        match &mut self.stage {
            Stage::Laying(lay) => match lay.tell(seat, answer) {
                Turn::Go => Turn::Go,
                Turn::Done(()) => {
                    self.stage = Stage::Offering(Offer { value: self.value });
                    Turn::Go
                }
            },
            Stage::Offering(offer) => match offer.tell(seat, answer) {
                Turn::Go => Turn::Go,
                Turn::Done(true) => Turn::Done(true),
                Turn::Done(false) => {
                    if seat.tail_slot() < self.limit {
                        self.stage = Stage::Laying(Lay {
                            first: self.first,
                            next: 0,
                        });
                        Turn::Go
                    } else {
                        Turn::Done(false)
                    }
                }
            },
        }
    }

    ghost lowers = { post_lowers };
}
