//! The machines driven over a plain memory.

ghost use Rattle.std.specs.Prelude.{◌≡◌, ◌+◌, ◌<◌, ◌≤◌, drop, length};
ghost use Rattle.sample_machines.specs.Laid.{IsLaid};
ghost use Rattle.sample_machines.specs.Posted.{CanPost, IsPosted, with_words};

use crate::carry::Carry;
use crate::lay::Lay;
use crate::post::Post;
use pmem_words::{Plain, SeatState, drive};

/// Lays the seat's bytes, 1 to 65,535 of them, from image word `first` on.
pub fn lay_alone(seat: &mut SeatState, memory: &mut Plain, first: u16)
    requires some { 0 < length seat.old.calling.bytes }
    requires few { length seat.old.calling.bytes < 65536 }
    requires room { first + length seat.old.calling.bytes ≤ length memory.old.words }
    ensures seat { seat.new ≡ seat.old }
    ensures others { memory.new ≡ with_words memory.old memory.new.words }
    ensures laid { IsLaid first (length seat.old.calling.bytes) seat.old.calling.bytes memory.old.words memory.new.words }
{
    drive(Lay { first, next: 0 }, seat, memory)
}

/// Lays the seat's bytes from image word `first` on, and puts the value into the first empty slot from the seat's tail on
/// and below `limit`. The answer is whether there was one.
pub fn post_alone(
    seat: &mut SeatState,
    memory: &mut Plain,
    first: u16,
    value: u64,
    limit: u16,
) -> bool
    requires { CanPost first value limit seat.old memory.old }
    ensures { IsPosted first value limit seat.old memory.old result seat.new memory.new }
{
    drive(Post::new(first, value, limit), seat, memory)
}

/// Copies `count` image words, at least one, from word `from` on to those from word `to` on, which lie behind them.
pub fn carry_alone(seat: &mut SeatState, memory: &mut Plain, from: u16, to: u16, count: u16)
    requires some { 0 < count }
    requires apart { from + count ≤ to }
    requires room { to + count ≤ length memory.old.words }
    ensures seat { seat.new ≡ seat.old }
    ensures others { memory.new ≡ with_words memory.old memory.new.words }
    ensures carried { IsLaid to count (drop from memory.old.words) memory.old.words memory.new.words }
{
    let carry = Carry {
        from,
        to,
        count,
        next: 0,
        held: None,
    };
    drive(carry, seat, memory)
}
