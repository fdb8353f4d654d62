//! Gives a pin up.

use crate::steps::store_pin;
use pmem_words::{Ask, Machine, Place, SeatState, Turn};

/// Stores 0 in the seat's pin word.
#[derive(Clone, Copy, Debug, PartialEq, Eq)]
pub struct Unpin {}

impl Unpin {
    ghost use Rattle.std.specs.Prelude.{◌≡◌};
    ghost use Rattle.pins.specs.Unpinning.{unpin_of};

    /// It stores once.
    pub fn new() -> Unpin
        ensures { result ≡ unpin_of }
    {
        Unpin {}
    }
}

impl Machine for Unpin {
    ghost use Rattle.pins.specs.Unpinning.{unpin_script, unpin_lowers};

    type Out = ();

    ghost script = { unpin_script };

    fn ask(&self, seat: &SeatState) -> Ask {
        Ask::Store(Place::Pin(seat.number()), 0)
    }

    fn tell(&mut self, seat: &mut SeatState, _answer: u64) -> Turn<()> {
        store_pin(seat, 0);
        Turn::Done(())
    }

    ghost lowers = { unpin_lowers };
}
