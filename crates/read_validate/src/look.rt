//! Looks at the file at the tail of the log.

use crate::joints::{seen, walked};
use crate::query::{Query, Seen, Stage};
use log_blocks::Walk;
use pins::{Pin, Unpin};
use pmem_words::{Ask, Machine, SeatState, Turn};

/// Looks at the file: it pins and goes to the tail, reads what is asked there, and gives its pin up. A range ends where the file ends. Its bytes
/// are then those of the call; it may have 1,048,576 at most. A look refuses nothing.
#[derive(Clone, Copy, Debug, PartialEq, Eq)]
pub struct Look {
    /// What is asked.
    pub query: Query,
    /// Where it stands.
    pub stage: Stage,
}

impl Look {
    ghost use Rattle.std.specs.Prelude.{◌≡◌};
    ghost use Rattle.read_validate.specs.Looking.{look_of};

    /// A look that has not begun.
    pub fn new(query: Query) -> Look
        ensures { result ≡ look_of query }
    {
        Look {
            query,
            stage: Stage::Pinning(Pin::new()),
        }
    }
}

impl Machine for Look {
    ghost use Rattle.read_validate.specs.Looking.{look_script, look_lowers};

    /// What it has seen.
    type Out = Seen;

    ghost script = { look_script };

    fn ask(&self, seat: &SeatState) -> Ask {
        match &self.stage {
            Stage::Pinning(part) => part.ask(seat),
            Stage::Walking(part) => part.ask(seat),
            Stage::Reading(part) => part.ask(seat),
            Stage::Unpinning(part) => part.ask(seat),
        }
    }

    fn tell(&mut self, seat: &mut SeatState, answer: u64) -> Turn<Seen> {
        match &mut self.stage {
            Stage::Pinning(part) => match part.tell(seat, answer) {
                Turn::Go => {}
                Turn::Done(_) => self.stage = Stage::Walking(Walk::new()),
            },
            Stage::Walking(part) => match part.tell(seat, answer) {
                Turn::Go => {}
                Turn::Done(_) => self.stage = walked(self.query, seat),
            },
            Stage::Reading(part) => match part.tell(seat, answer) {
                Turn::Go => {}
                Turn::Done(()) => self.stage = Stage::Unpinning(Unpin::new()),
            },
            Stage::Unpinning(part) => match part.tell(seat, answer) {
                Turn::Go => {}
                Turn::Done(()) => return Turn::Done(seen(self.query, seat)),
            },
        }
        Turn::Go
    }

    ghost lowers = { look_lowers };
}
