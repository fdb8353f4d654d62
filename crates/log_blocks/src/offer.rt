//! Puts an entry in at the tail.

use crate::committing::{commit, exchange_slot, take_lost};
use log_entry::layouts::EMPTY;
use log_entry::{Entry, encode};
use pmem_words::{Ask, Machine, SeatState, Turn};

/// How an exchange of a slot for an entry ended.
#[derive(Clone, Copy, Debug, PartialEq, Eq)]
pub enum Offered {
    /// The entry is in the log, and the seat at the tail behind it: at this position, below 2^40.
    Committed { position: u64 },
    /// Another seat was faster, and the slot has this word, which is not 0. It is taken in, but for an indirect entry.
    Overtaken { word: u64 },
}

/// Puts an entry in at the tail: it exchanges the tail's slot from 0 to the entry's word. The entry is that of the present call's write
/// at this position, and names blocks that the seat owns, filled and fenced. It needs a valid pin. A seat that was overtaken counts
/// one exchange more as lost, keeps its blocks, and may offer again at the tail; where an indirect entry was found it walks on
/// (`Walk::behind`).
#[derive(Clone, Copy, Debug, PartialEq, Eq)]
pub struct Offer {
    /// The entry's word.
    pub entry: u64,
}

impl Offer {
    ghost use Rattle.log_entry.specs.Words.{IsEncodable, IsEntryWord};

    /// An offer of this entry, which has 1 to 256 blocks and a leftover below 4096 where it is direct.
    pub fn new(entry: Entry) -> Offer
        requires { IsEncodable entry }
        ensures { IsEntryWord entry result.entry }
    {
        Offer {
            entry: encode(&entry),
        }
    }
}

impl Machine for Offer {
    ghost use Rattle.log_blocks.specs.Offering.{offer_script, offer_lowers};

    type Out = Offered;

    ghost script = { offer_script };

    fn ask(&self, seat: &SeatState) -> Ask {
        exchange_slot(seat, self.entry)
    }

    fn tell(&mut self, seat: &mut SeatState, answer: u64) -> Turn<Offered> {
        if answer == EMPTY {
            commit(seat, self.entry);
            Turn::Done(Offered::Committed {
                position: seat.position(),
            })
        } else {
            seat.set_lost(seat.lost().saturating_add(1));
            take_lost(seat, answer);
            Turn::Done(Offered::Overtaken { word: answer })
        }
    }

    ghost lowers = { offer_lowers };
}
