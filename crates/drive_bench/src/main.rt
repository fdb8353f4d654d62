//! Drives a machine of many loads and stores, makes seats, fills blocks and passes over a bitmap, and performs steps on cells and turns of a
//! world, so that all can be timed or weighed.
#![tactic(auto)]

ghost use Rattle.std.specs.Prelude.{◌≡◌, IfOk, length};

mod blocks;
mod cells;
mod closed;
mod world;
mod writes;

use blocks::{fills, passes};
use cells::drawn_steps;
use closed::{Closed, carry_closed};
use log_entry::Geometry;
use pmem_words::{Plain, SeatState};
use sample_machines::carry_alone;
use std::alloc::{AllocError, Global};
use std::io;
use world::world_steps;
use writes::{Rounds, Work, rounds_of};

/// How many words one round carries.
const CARRIED: u16 = 32_768;

/// A seat of an image with as much room as there is: blocks of 4096 bytes, and nearly 65,535 of them.
fn large_seat(alloc: Global, number: u8) -> Result<Option<SeatState>, AllocError> {
    match Geometry::new(65_000, 260, 4096) {
        Ok(geometry) => Ok(Some(SeatState::new(alloc, geometry, number, 16, 0)?)),
        Err(_) => Ok(None),
    }
}

/// Carries the first 32,768 of 65,536 image words behind them, so many times.
fn carry_rounds(seat: &mut SeatState, memory: &mut Plain, rounds: u32)
    requires { length memory.old.words ≡ 65536 }
    ensures { length memory.new.words ≡ 65536 }
{
    for _ in 0..rounds {
        carry_alone(seat, memory, 0, CARRIED, CARRIED);
    }
}

/// The same through a memory whose steps are calls.
fn closed_rounds(seat: &mut SeatState, memory: &mut Closed, rounds: u32)
    requires { length memory.old.words ≡ 65536 }
    ensures { length memory.new.words ≡ 65536 }
{
    for _ in 0..rounds {
        carry_closed(seat, memory, 0, CARRIED, CARRIED);
    }
}

/// A memory of 65,536 words, 5 in each of the first 32,768 and 0 behind them.
fn memory(alloc: Global) -> Result<Plain, AllocError>
    ensures { IfOk result (λ plain. length plain.words ≡ 65536) }
{
    let mut words = vec![in alloc; 5u64; 32_768]?;
    words.resize(65_536, 0)?;
    let memory = Plain::new(alloc, words, Vec::new(alloc))?;
    Ok(memory)
}

/// What the words of a memory come to.
fn sum(memory: Plain) -> u64 {
    let (words, _) = memory.into_parts();
    words
        .iter()
        .fold(0u64, |sum, word| sum.wrapping_mul(31).wrapping_add(*word))
}

/// What the words come to after so many rounds.
fn carry(alloc: Global, rounds: u32) -> Result<u64, AllocError> {
    let Some(mut seat) = large_seat(alloc, 0)? else {
        return Ok(0);
    };
    let mut memory = memory(alloc)?;
    carry_rounds(&mut seat, &mut memory, rounds);
    Ok(sum(memory))
}

/// The same through a memory whose steps are calls.
fn carry_by_calls(alloc: Global, rounds: u32) -> Result<u64, AllocError> {
    let Some(mut seat) = large_seat(alloc, 0)? else {
        return Ok(0);
    };
    let plain = memory(alloc)?;
    let mut memory = Closed { plain };
    closed_rounds(&mut seat, &mut memory, rounds);
    Ok(sum(memory.plain))
}

/// How many seats there are when so many were made.
fn seats(alloc: Global, count: u8) -> Result<u64, AllocError> {
    let mut made = Vec::new(alloc);
    for number in 0..count {
        made.push(large_seat(alloc, number)?)?;
    }
    Ok(made.len() as u64)
}

/// Does what a line asks: `carry`, `closed`, `fill` or `pass` and a number of rounds, `cells` or `world` and a number of steps, or `seats` and
/// a number of seats. Another line comes to 0.
fn answer(alloc: Global, line: &str) -> Result<u64, AllocError> {
    match line.split_once(' ') {
        Some(("carry", rounds)) => match rounds.parse::<u32>() {
            Ok(rounds) => carry(alloc, rounds),
            Err(_) => Ok(0),
        },
        Some(("closed", rounds)) => match rounds.parse::<u32>() {
            Ok(rounds) => carry_by_calls(alloc, rounds),
            Err(_) => Ok(0),
        },
        Some(("cells", steps)) => match steps.parse::<u32>() {
            Ok(steps) => drawn_steps(alloc, steps),
            Err(_) => Ok(0),
        },
        Some(("world", steps)) => match steps.parse::<u32>() {
            Ok(steps) => world_steps(alloc, steps),
            Err(_) => Ok(0),
        },
        Some(("fill", rounds)) => match rounds.parse::<u32>() {
            Ok(rounds) => fills(alloc, rounds),
            Err(_) => Ok(0),
        },
        Some(("pass", rounds)) => match rounds.parse::<u32>() {
            Ok(rounds) => passes(alloc, rounds),
            Err(_) => Ok(0),
        },
        Some(("seats", count)) => match count.parse::<u8>() {
            Ok(count) => seats(alloc, count),
            Err(_) => Ok(0),
        },
        _ => Ok(0),
    }
}

/// Does what a line asks whose rounds are timed one by one: `parts`, `steps`, `turns` or `walk` and a number of rounds. None for another line.
fn timed(rt: &HostRuntime, line: &str) -> io::Result<Option<Rounds>> {
    let (work, rounds) = match line.split_once(' ') {
        Some(("parts", rounds)) => (Work::Parts, rounds),
        Some(("steps", rounds)) => (Work::Steps, rounds),
        Some(("turns", rounds)) => (Work::Turns, rounds),
        Some(("walk", rounds)) => (Work::Walk, rounds),
        _ => return Ok(None),
    };
    match rounds.parse::<u32>() {
        Ok(rounds) => Ok(Some(rounds_of(rt, work, rounds)?)),
        Err(_) => Ok(None),
    }
}

fn main(rt: HostRuntime) -> io::Result<()> {
    for line in rt.lines(rt.alloc()) {
        let line = line?;
        match timed(&rt, line.as_str())? {
            Some(rounds) => {
                print!(rt; "{line}: {}", rounds.sum)?;
                for took in rounds.times.iter() {
                    print!(rt; " {took}")?;
                }
                println!(rt; "")?;
            }
            None => {
                let sum = answer(rt.alloc(), line.as_str())?;
                println!(rt; "{line}: {sum}")?;
            }
        }
    }
    Ok(())
}
