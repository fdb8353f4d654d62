//! Drawn steps of sixteen seats on the cells of a memory.

ghost use Rattle.std.specs.Prelude.{◌≡◌, ◌+◌, ◌<◌, ◌≤◌, length, IfOk};
ghost use Rattle.persistence.specs.Memory.{Memory};
ghost use Rattle.persistence.specs.Cells.{MemoryTakes};
ghost use Rattle.drive_bench.specs.declared.cells.TheConstants.{WORDS};

use persistence::Cells;
use asks::{Ask, Place};
use std::alloc::{AllocError, Global};

/// The words of an image of 16,384 data blocks and 64 log blocks of 4096 bytes: 16,533 blocks of 512 words.
const WORDS: u32 = 8_464_896;

/// A step by a drawn number: of sixteen, seven store, four load, three mark, one exchanges 5 and one fences.
fn drawn_ask(draw: u64) -> Ask
    ensures { (memory : Memory) → length memory.now.words ≡ WORDS → MemoryTakes memory result }
{
    let word = ((draw >> 8) % WORDS as u64) as u32;
    let place = Place::Image(word);
    match (draw >> 4) & 15 {
        0..=6 => Ask::Store(place, draw),
        7..=10 => Ask::Load(place),
        11..=13 => Ask::Mark(word),
        14 => Ask::Exchange {
            place,
            old: 5,
            new: draw,
        },
        _ => Ask::Fence,
    }
}

/// One drawn step of a drawn seat.
fn turn(cells: &mut Cells, draw: u64) -> u64
    requires words { length cells.old.memory.now.words ≡ WORDS }
    requires room { 0 < cells.old.room }
    ensures words { length cells.new.memory.now.words ≡ WORDS }
    ensures room { cells.new.room + 1 ≡ cells.old.room }
{
    cells.perform((draw & 15) as u8, drawn_ask(draw))
}

/// So many drawn steps, and what their answers come to.
fn turns(cells: &mut Cells, steps: u32) -> u64
    requires words { length cells.old.memory.now.words ≡ WORDS }
    requires room { steps ≤ cells.old.room }
{
    let mut state = 1u64;
    let mut sum = 0u64;
    for _ in 0..steps {
        state = state
            .wrapping_mul(6_364_136_223_846_793_005)
            .wrapping_add(1_442_695_040_888_963_407);
        sum = sum.wrapping_mul(31).wrapping_add(turn(cells, state >> 16));
    }
    sum
}

/// A memory of so many words 5, for sixteen seats, with room for so many steps.
fn blank_cells(alloc: Global, words: u32, steps: u32) -> Result<Cells, AllocError>
    ensures words { IfOk result (λ cells. length cells.memory.now.words ≡ words) }
    ensures room { IfOk result (λ cells. steps ≤ cells.room) }
{
    let words = vec![in alloc; 5u64; words as usize]?;
    let mut cells = Cells::new(alloc, words, Vec::new(alloc), 16)?;
    cells.reserve(steps as u64)?;
    Ok(cells)
}

/// So many drawn steps on a memory of words 5, and what their answers come to.
pub fn drawn_steps(alloc: Global, steps: u32) -> Result<u64, AllocError> {
    let mut cells = blank_cells(alloc, WORDS, steps)?;
    Ok(turns(&mut cells, steps))
}
