//! One exchange.

use pmem_words::{Ask, Machine, Place, SeatState, Turn};

/// Puts a value into the image word at the seat's tail slot where that is 0; else the next slot is the tail.
#[derive(Clone, Copy, Debug, PartialEq, Eq)]
pub struct Offer {
    /// The value.
    pub value: u64,
}

impl Machine for Offer {
    ghost use Rattle.sample_machines.specs.Offering.{offer_script, offer_lowers};

    /// Whether the value was put in.
    type Out = bool;

    ghost script = { offer_script };

    fn ask(&self, seat: &SeatState) -> Ask {
        Ask::Exchange {
            place: Place::Image(u32::from(seat.tail_slot())),
            old: 0,
            new: self.value,
        }
    }

    fn tell(&mut self, seat: &mut SeatState, answer: u64) -> Turn<bool> {
        if answer == 0 {
            Turn::Done(true)
        } else {
            seat.set_tail_slot(seat.tail_slot() + 1);
            Turn::Done(false)
        }
    }

    ghost lowers = { offer_lowers };
}
