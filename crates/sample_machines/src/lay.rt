//! A loop over a list.

use pmem_words::{Ask, Machine, Place, SeatState, Turn};

/// Stores each byte of the seat's job in an image word of its own, from word `first` on.
#[derive(Clone, Copy, Debug, PartialEq, Eq)]
pub struct Lay {
    /// The word of the first byte.
    pub first: u16,
    /// The place of the next byte.
    pub next: u16,
}

impl Machine for Lay {
    ghost use Rattle.sample_machines.specs.Laying.{lay_script, lay_lowers};

    type Out = ();

    ghost script = { lay_script };

    fn ask(&self, seat: &SeatState) -> Ask {
        let byte = match seat.bytes().get(self.next as usize) {
            Some(byte) => u64::from(*byte),
            None => 0,
        };
        Ask::Store(
            Place::Image(u32::from(self.first) + u32::from(self.next)),
            byte,
        )
    }

    fn tell(&mut self, seat: &mut SeatState, _answer: u64) -> Turn<()> {
        self.next += 1;
        if (self.next as usize) < seat.bytes().len() {
            Turn::Go
        } else {
            Turn::Done(())
        }
    }

    ghost lowers = { lay_lowers };
}
