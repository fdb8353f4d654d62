//! Seals the tail's block.

use crate::committing::{exchange_slot, take_lost};
use crate::taking::take_seal;
use log_entry::layouts::{EMPTY, SEAL};
use pmem_words::{Ask, Machine, SeatState, Turn};

/// How an exchange of a slot for a seal ended.
#[derive(Clone, Copy, Debug, PartialEq, Eq)]
pub enum Sealed {
    /// The block takes no entry any more. The seat is at its end.
    Sealed,
    /// Another seat was faster, and the slot has this word, which is not 0. It is taken in, but for an indirect entry.
    Overtaken { word: u64 },
}

/// Seals the tail's block, in a collection: it exchanges the tail's slot, which is not the block's first, from 0 to a seal. It needs a
/// valid pin. Where an indirect entry was found the seat walks on (`Walk::behind`). No exchange counts as lost.
#[derive(Clone, Copy, Debug, PartialEq, Eq)]
pub struct Seal {}

impl Seal {
    ghost use Rattle.std.specs.Prelude.{◌≡◌};
    ghost use Rattle.log_blocks.specs.Sealing.{seal_of};

    /// It exchanges once.
    pub fn new() -> Seal
        ensures { result ≡ seal_of }
    {
        Seal {}
    }
}

impl Machine for Seal {
    ghost use Rattle.log_blocks.specs.Sealing.{seal_script, seal_lowers};

    type Out = Sealed;

    ghost script = { seal_script };

    fn ask(&self, seat: &SeatState) -> Ask {
        exchange_slot(seat, SEAL)
    }

    fn tell(&mut self, seat: &mut SeatState, answer: u64) -> Turn<Sealed> {
        if answer == EMPTY {
            take_seal(seat);
            seat.set_at_tail(true);
            Turn::Done(Sealed::Sealed)
        } else {
            take_lost(seat, answer);
            Turn::Done(Sealed::Overtaken { word: answer })
        }
    }

    ghost lowers = { seal_lowers };
}
