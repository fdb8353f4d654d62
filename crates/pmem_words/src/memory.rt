//! A memory performs asks.

ghost use Rattle.pmem_words.specs.Conducts.{Conduct};

use crate::seat::SeatState;
use asks::Ask;

/// Words that perform the asks of a seat.
pub trait Memory {
    /// Which asks it takes now from a seat in this state, and how the memory before, the state, an ask, its answer and the memory after
    /// belong together.
    ghost store: { Conduct Self };

    /// Performs one ask of a seat in this state that it takes now, and gives its answer.
    fn perform(&mut self, seat: &SeatState, ask: Ask) -> u64
        requires { store.takes self.old seat.now ask }
        ensures { store.step self.old seat.now ask result self.new };
}
