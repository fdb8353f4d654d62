//! A seat fills a block again and again, and looks through a full bitmap.

ghost use Rattle.drive_bench.specs.Blocks.{OwnsOne, HasBits};

use block_bitmap::{Fill, Taken, take_alone};
use log_entry::{Area, Geometry};
use pmem_words::{Plain, SeatState, drive};
use std::alloc::{AllocError, Global};

/// The words of a block, and of a bitmap of nearly 65,535 blocks.
const BLOCK: u16 = 512;

const BITMAP: usize = 1_024;

/// Fills block 1 with its content.
fn fill_once(seat: &mut SeatState, memory: &mut Plain)
    requires { OwnsOne seat.old memory.old }
    ensures { OwnsOne seat.new memory.new }
{
    drive(Fill::new(0, 1), seat, memory)
}

/// The same so many times.
fn fill_rounds(seat: &mut SeatState, memory: &mut Plain, rounds: u32)
    requires { OwnsOne seat.old memory.old }
    ensures { OwnsOne seat.new memory.new }
{
    for _ in 0..rounds {
        fill_once(seat, memory);
    }
}

/// What the words of a memory come to after a block of 4096 bytes, of which the first word is 5 and the others 0, was filled so many
/// times.
pub fn fills(alloc: Global, rounds: u32) -> Result<u64, AllocError> {
    let Ok(geometry) = Geometry::new(65_000, 260, 4096) else {
        return Ok(0);
    };
    let mut seat = SeatState::new(alloc, geometry, 0, 16, 0)?;
    seat.own(1, Area::Data);
    seat.set_word(0, 0, 5);
    let words = vec![in alloc; 0u64; 2 * BLOCK as usize]?;
    let mut memory = Plain::new(alloc, words, Vec::new(alloc))?;
    fill_rounds(&mut seat, &mut memory, rounds);
    let (words, _) = memory.into_parts();
    Ok(sum(&words))
}

/// Looks for a free block of the data area, where the seat owns none; 1 where none is free.
fn pass_once(seat: &mut SeatState, memory: &mut Plain) -> u64
    requires { HasBits seat.old memory.old }
    ensures { HasBits seat.new memory.new }
{
    if seat.owned().len() != 0 {
        return 0;
    }
    match take_alone(seat, memory, Area::Data, 1) {
        Taken::Taken => 0,
        Taken::NoSpace { .. } => 1,
    }
}

/// The same so many times: how often none was free.
fn pass_rounds(seat: &mut SeatState, memory: &mut Plain, rounds: u32) -> u64
    requires { HasBits seat.old memory.old }
    ensures { HasBits seat.new memory.new }
{
    let mut full = 0u64;
    for _ in 0..rounds {
        full = full.wrapping_add(pass_once(seat, memory));
    }
    full
}

/// How often no block was free in so many passes over a full bitmap, and what the passes found.
pub fn passes(alloc: Global, rounds: u32) -> Result<u64, AllocError> {
    let Ok(geometry) = Geometry::new(65_000, 260, 4096) else {
        return Ok(0);
    };
    let mut seat = SeatState::new(alloc, geometry, 0, 16, 0)?;
    let taken = vec![in alloc; u64::MAX; BITMAP]?;
    let mut memory = Plain::new(alloc, Vec::new(alloc), taken)?;
    let full = pass_rounds(&mut seat, &mut memory, rounds);
    Ok(sum(seat.found()).wrapping_add(full))
}

/// What words come to.
fn sum(words: &[u64]) -> u64 {
    words
        .iter()
        .fold(0u64, |sum, word| sum.wrapping_mul(31).wrapping_add(*word))
}
