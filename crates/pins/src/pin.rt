//! Takes a valid pin.

use crate::HEAD_WORD;
use crate::steps::{find_head, store_pin};
use log_entry::Head;
use log_entry::layouts::{HEAD_BLOCK, HEAD_GENERATION};
use pmem_words::{Ask, Machine, Place, SeatState, Turn};

/// Loads the head, stores its generation in the seat's pin word, and loads the head again: until that is of the generation
/// that was stored. Each further round is for a later generation.
#[derive(Clone, Copy, Debug, PartialEq, Eq)]
pub enum Pin {
    /// The head is to be loaded.
    Begin,
    /// The generation of the head found is to be stored.
    Publish,
    /// The head is to be loaded again.
    Confirm,
}

impl Pin {
    ghost use Rattle.std.specs.Prelude.{◌≡◌};
    ghost use Rattle.pins.specs.declared.pin.Pin.TheVariants.{Begin};

    /// A pin that has not begun.
    pub fn new() -> Pin
        ensures { result ≡ Begin }
    {
        Pin::Begin
    }
}

impl Machine for Pin {
    ghost use Rattle.pins.specs.Pinning.{pin_script, pin_lowers};

    /// The head whose generation is pinned.
    type Out = Head;

    ghost script = { pin_script };

    fn ask(&self, seat: &SeatState) -> Ask {
        match self {
            Pin::Begin | Pin::Confirm => Ask::Load(Place::Image(HEAD_WORD)),
            Pin::Publish => Ask::Store(Place::Pin(seat.number()), HEAD_GENERATION.of(seat.head())),
        }
    }

    fn tell(&mut self, seat: &mut SeatState, answer: u64) -> Turn<Head> {
        match self {
            Pin::Begin => {
                find_head(seat, answer);
                *self = Pin::Publish;
                Turn::Go
            }
            Pin::Publish => {
                store_pin(seat, HEAD_GENERATION.of(seat.head()) as u32);
                *self = Pin::Confirm;
                Turn::Go
            }
            Pin::Confirm => {
                let generation = HEAD_GENERATION.of(answer) as u32;
                let same = seat.pin() == generation;
                find_head(seat, answer);
                if same {
                    let block = HEAD_BLOCK.of(answer) as u16;
                    Turn::Done(Head { generation, block })
                } else {
                    *self = Pin::Publish;
                    Turn::Go
                }
            }
        }
    }

    ghost lowers = { pin_lowers };
}
