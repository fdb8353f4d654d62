//! Looks for a pin that keeps the blocks of a generation.

use crate::steps::see_pin;
use log_entry::Held;
use pmem_words::{Ask, Machine, Place, SeatState, Turn};

/// What a scan found.
#[derive(Clone, Copy, Debug, PartialEq, Eq)]
pub enum Scanned {
    /// Each pin word was 0 or of a greater generation.
    Clear,
    /// The first pin word that was not 0 and of no greater generation: whose it is, and the generation in it.
    Held(Held),
}

/// Loads the pin words of all seats in order, the own one too, until one is not 0 and at most `generation`. There have to
/// be 1 to 16 seats. A seat gives its own pin up before it scans, else the scan may answer that the seat itself holds.
#[derive(Clone, Copy, Debug, PartialEq, Eq)]
pub struct Scan {
    /// The generation whose blocks a pin may need.
    pub generation: u32,
    /// The seat whose pin word is next.
    pub next: u8,
}

impl Scan {
    ghost use Rattle.std.specs.Prelude.{◌≡◌};
    ghost use Rattle.pins.specs.Scanning.{scan_of};

    /// A scan that has not begun.
    pub fn new(generation: u32) -> Scan
        ensures { result ≡ scan_of generation }
    {
        Scan {
            generation,
            next: 0,
        }
    }
}

impl Machine for Scan {
    ghost use Rattle.pins.specs.Scanning.{scan_script, scan_lowers};

    type Out = Scanned;

    ghost script = { scan_script };

    fn ask(&self, _seat: &SeatState) -> Ask {
        Ask::Load(Place::Pin(self.next))
    }

    fn tell(&mut self, seat: &mut SeatState, answer: u64) -> Turn<Scanned> {
        let at = self.next;
        self.next += 1;
        see_pin(seat, at, answer);
        if 0 < answer && answer <= u64::from(self.generation) {
            Turn::Done(Scanned::Held(Held {
                seat: at,
                generation: answer as u32,
            }))
        } else if self.next < seat.seats() {
            Turn::Go
        } else {
            Turn::Done(Scanned::Clear)
        }
    }

    ghost lowers = { scan_lowers };
}
