//! A plain memory whose steps the compiler does not see into.

ghost use Rattle.std.specs.Prelude.{◌≡◌, ◌+◌, ◌<◌, ◌≤◌, length};

use pmem_words::{Ask, Memory, Plain, SeatState, drive};
use sample_machines::Carry;
use std::marker::Model;

/// A plain memory. Each of its steps is a call, so that the time of a step's ask and answer shows.
#[derive(Drop)]
pub struct Closed {
    pub plain: Plain,
}

impl Model for Closed {
    ghost use Rattle.asks.specs.SharedWords.{SharedWords};

    ghost Value = { SharedWords };

    ghost view = { λ c. c.plain };
}

impl Memory for Closed {
    ghost use Rattle.pmem_words.specs.PlainWords.{plain};

    ghost store = { plain };

    #[inline(never)]
    fn perform(&mut self, seat: &SeatState, ask: Ask) -> u64 {
        self.plain.perform(seat, ask)
    }
}

/// Copies `count` image words, at least one, from word `from` on to those from word `to` on, which lie behind them.
pub fn carry_closed(seat: &mut SeatState, memory: &mut Closed, from: u16, to: u16, count: u16)
    requires some { 0 < count }
    requires apart { from + count ≤ to }
    requires room { to + count ≤ length memory.old.words }
    ensures { length memory.new.words ≡ length memory.old.words }
{
    let carry = Carry {
        from,
        to,
        count,
        next: 0,
        held: None,
    };
    drive(carry, seat, memory)
}
