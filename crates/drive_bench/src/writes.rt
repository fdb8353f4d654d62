//! A seat writes a block to a just-made image, and walks over a full log, alone over a plain memory; and it writes one in a world. What lays the image
//! and the seat is not timed.

ghost use Rattle.std.specs.Prelude.{◌≡◌, ◌≤◌, ℕ, List, length, IfOk};
ghost use Rattle.crash_model.specs.Led.{IsResting, HasNoMarks};
ghost use Rattle.crash_model.specs.Worlds.{seat_of};
ghost use Rattle.drive_bench.specs.declared.writes.TheConstants.{TURNS};
ghost use Rattle.log_core.specs.Alone.{IsAlone};
ghost use Rattle.write_any.specs.WriteWithin.{MayWrite};
ghost use Rattle.world_tests.specs.WriteSeats.{MayBeginWrite};

use crash_model::{Choice, World};
use image_tools::mkfs;
use log_entry::{BlockKind, BlockWord, Entry, Geometry, encode};
use pmem_words::{Plain, SeatState};
use recovery::open_words;
use std::alloc::{AllocError, Global};
use std::io;
use std::time::Clock;
use world_tests::one_seat::{
    alone_on, pin_alone, walk_alone, walk_before, write_by_parts, write_by_steps, writing_on,
};
use world_tests::pair_turns::Resting;
use world_tests::write_turns::{begin_write, end_write};

/// Words of a block, and slots of a log block, which has three words before them.
const BLOCK: u32 = 512;

const SLOTS: u32 = BLOCK - 3;

/// The entries of the full log, each of one block, and its blocks.
const ENTRIES: u32 = 65_000;

const LOG_BLOCKS: u32 = 128;

/// More turns than a write takes.
const TURNS: u16 = 2_000;

/// What is done in each round.
#[derive(Clone, Copy)]
pub enum Work {
    /// A write of a block, part by part.
    Parts,
    /// The same, step by step.
    Steps,
    /// The same in a world, turn by turn, by a seat that has not walked yet.
    Turns,
    /// A walk over the full log.
    Walk,
}

/// What the rounds come to, and the nanoseconds that each took.
#[derive(Drop)]
pub struct Rounds {
    pub sum: u64,
    pub times: Vec<u64>,
}

/// The nanoseconds since a time before.
fn since(rt: &HostRuntime, begun: u64) -> io::Result<u64> {
    Ok(nanoseconds(rt)?.saturating_sub(begun))
}

fn nanoseconds(rt: &HostRuntime) -> io::Result<u64> {
    let time = rt.monotonic()?;
    Ok(
        time.as_secs()
            .wrapping_mul(1_000_000_000)
            .wrapping_add(u64::from(time.subsec_nanos())),
    )
}

/// The bytes of a block, each of them 7.
fn block_of_sevens(alloc: Global) -> Result<Vec<u8>, AllocError>
    ensures { IfOk result (λ bytes. length bytes.items ≡ 4096) }
{
    vec![in alloc; 7u8; 4096]
}

/// A seat that is to write a block to a just-made image, and has walked to its tail.
fn ready_to_write(
    alloc: Global,
    geometry: Geometry,
    bytes: &[u8],
) -> Result<(SeatState, Plain), AllocError>
    requires shape { geometry.block_bytes ≡ 4096 }
    requires bytes { length bytes.now ≡ 4096 }
    ensures { IfOk result (λ made. ∥ IsAlone (MayWrite 0) made.0 made.1 ∥₁) }
{
    let start = mkfs(alloc, geometry)?;
    let (mut seat, mut memory) = writing_on(alloc, start, 0, bytes)?;
    walk_before(&mut seat, &mut memory, 0);
    Ok((seat, memory))
}

/// One write: what the words come to, and its nanoseconds.
fn write_once(rt: &HostRuntime, by_parts: bool) -> io::Result<(u64, u64)> {
    let Ok(geometry) = Geometry::new(2, 1, 4096) else {
        return Ok((0, 0));
    };
    let bytes = block_of_sevens(rt.alloc())?;
    let (mut seat, mut memory) = ready_to_write(rt.alloc(), geometry, &bytes)?;
    let begun = nanoseconds(rt)?;
    let written = if by_parts {
        write_by_parts(&mut seat, &mut memory, 0)
    } else {
        write_by_steps(&mut seat, &mut memory, 0)
    };
    let took = since(rt, begun)?;
    let (words, _) = memory.into_parts();
    Ok((sum(&words).wrapping_mul(written.position), took))
}

/// A world of one seat on a just-made image, with room for 2,000 steps.
fn one_seat_world(alloc: Global, geometry: Geometry) -> Result<World, AllocError>
    requires { geometry.block_bytes ≡ 4096 }
    ensures resting { IfOk result (λ world. IsResting world) }
    ensures room { IfOk result (λ world. TURNS ≤ world.cells.room) }
    ensures many { IfOk result (λ world. length world.seats ≡ 1) }
    ensures may { IfOk result (λ world. (bytes : List ℕ) → length bytes ≡ 4096 → MayBeginWrite 0 bytes 0 (seat_of world 0)) }
    ensures no_marks { IfOk result (λ world. HasNoMarks world 0) }
{
    let start = mkfs(alloc, geometry)?;
    let mut world = World::new(alloc, start, 1)?;
    world.reserve(u64::from(TURNS))?;
    Ok(world)
}

/// One write in a world: what the words come to, and its nanoseconds.
fn turns_once(rt: &HostRuntime) -> io::Result<(u64, u64)> {
    let Ok(geometry) = Geometry::new(2, 1, 4096) else {
        return Ok((0, 0));
    };
    let mut world = one_seat_world(rt.alloc(), geometry)?;
    let bytes = block_of_sevens(rt.alloc())?;
    let write = begin_write(&mut world, 0, 0, &bytes);
    let begun = nanoseconds(rt)?;
    let ended = end_write(&mut world, 0, write, &Resting, TURNS);
    let took = since(rt, begun)?;
    let position = match ended {
        Ok(written) => written.position,
        Err(_) => 0,
    };
    let words = world.survivors(rt.alloc(), Choice::Newest)?;
    Ok((sum(&words).wrapping_mul(position), took))
}

/// What words come to.
fn sum(words: &[u64]) -> u64 {
    words
        .iter()
        .fold(0u64, |sum, word| sum.wrapping_mul(31).wrapping_add(*word))
}

/// Puts a word at a place, where there is one.
fn put(words: &mut [u64], place: u32, word: u64) {
    if let Some(there) = words.get_mut(place as usize) {
        *there = word;
    }
}

/// The words of an image with a full log, each of whose entries names one block.
fn full_log(alloc: Global) -> Result<Vec<u64>, AllocError> {
    let Ok(geometry) = Geometry::new(ENTRIES, LOG_BLOCKS, 4096) else {
        return Ok(Vec::new(alloc));
    };
    let (mut words, _) = mkfs(alloc, geometry)?.into_parts();
    for entry in 0..ENTRIES {
        let block = ENTRIES + 1 + entry / SLOTS;
        if entry % SLOTS == 0 {
            let second = BlockWord {
                kind: BlockKind::Log,
                base: u64::from(entry),
            };
            put(&mut words, block * BLOCK + 1, second.encode());
            if 0 < entry {
                put(&mut words, (block - 1) * BLOCK, u64::from(block));
            }
        }
        let direct = Entry::Direct {
            virt: entry as u16,
            block: (entry + 1) as u16,
            count: 1,
            leftover: 0,
        };
        put(
            &mut words,
            block * BLOCK + 3 + entry % SLOTS,
            encode(&direct),
        );
    }
    Ok(words)
}

/// One walk over these words: what it comes to, its nanoseconds, and the words.
fn walk_once(rt: &HostRuntime, words: Vec<u64>) -> io::Result<(u64, u64, Vec<u64>)> {
    let Ok(opened) = open_words(rt.alloc(), words) else {
        return Ok((0, 0, Vec::new(rt.alloc())));
    };
    let (mut seat, mut memory) = alone_on(rt.alloc(), opened.clear())?;
    pin_alone(&mut seat, &mut memory);
    let begun = nanoseconds(rt)?;
    walk_alone(&mut seat, &mut memory);
    let took = since(rt, begun)?;
    let last = u64::from(seat.block((ENTRIES - 1) as u16).unwrap_or(0));
    let sum = seat
        .position()
        .wrapping_mul(31)
        .wrapping_add(seat.size())
        .wrapping_mul(31)
        .wrapping_add(last);
    let (words, _) = memory.into_parts();
    Ok((sum, took, words))
}

/// So many rounds of this work.
pub fn rounds_of(rt: &HostRuntime, work: Work, rounds: u32) -> io::Result<Rounds> {
    let mut times = Vec::with_capacity(rt.alloc(), rounds as usize)?;
    let mut total = 0u64;
    match work {
        Work::Parts | Work::Steps => {
            let by_parts = matches!(work, Work::Parts);
            for _ in 0..rounds {
                let (came, took) = write_once(rt, by_parts)?;
                total = came;
                times.push(took)?;
            }
        }
        Work::Turns => {
            for _ in 0..rounds {
                let (came, took) = turns_once(rt)?;
                total = came;
                times.push(took)?;
            }
        }
        Work::Walk => {
            let mut words = full_log(rt.alloc())?;
            for _ in 0..rounds {
                let (came, took, same) = walk_once(rt, words)?;
                total = came;
                times.push(took)?;
                words = same;
            }
        }
    }
    Ok(Rounds { sum: total, times })
}
