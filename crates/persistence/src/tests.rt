ghost use Rattle.std.specs.Prelude.{◌≡◌, ◌<◌, ◌-◌, length};
ghost use Rattle.persistence.specs.Cells.{MemoryTakes};

use super::*;
use asks::{Ask, Place};
use std::test::Fail;

const WORD: Place = Place::Image(0);

const OTHER: Place = Place::Image(1);

/// One step, of which the proof of a test keeps only that the words are as many and that there is room for one step less.
fn step(cells: &mut Cells, seat: u8, ask: Ask) -> u64
    requires room { 0 < cells.old.room }
    requires place { MemoryTakes cells.old.memory ask }
    ensures words { length cells.new.memory.now.words ≡ length cells.old.memory.now.words }
    ensures room { cells.new.room ≡ cells.old.room - 1 }
{
    cells.perform(seat, ask)
}

#[test]
fn each_call_once(rt: HostRuntime) -> Result<(), Fail> {
    let words = vec![in rt.alloc(); 10, 20]?;
    let taken = vec![in rt.alloc(); 6]?;
    let mut cells = Cells::new(rt.alloc(), words, taken, 2)?;
    cells.reserve(1)?;
    assert_eq!(rt; cells.word(OTHER), 20);
    assert_eq!(rt; cells.word(Place::Map(0)), 6);
    assert_eq!(rt; cells.word(Place::Pin(1)), 0);
    assert_eq!(rt; cells.word(Place::FenceOf(200)), 0);
    assert_eq!(rt; cells.perform(1, Ask::Store(OTHER, 21)), 0);
    assert_eq!(rt; cells.word(OTHER), 21);
    let left = cells.survivors(rt.alloc(), Choice::Oldest)?;
    assert_eq!(rt; left.as_slice(), [10, 20].as_slice());
    Ok(())
}

#[test]
fn each_ask_has_one_answer(rt: HostRuntime) -> Result<(), Fail> {
    let words = vec![in rt.alloc(); 10, 0]?;
    let mut cells = Cells::new(rt.alloc(), words, Vec::new(rt.alloc()), 2)?;
    cells.reserve(6)?;
    let from_nothing = Ask::Exchange {
        place: OTHER,
        old: 0,
        new: 9,
    };
    assert_eq!(rt; step(&mut cells, 0, Ask::Load(WORD)), 10);
    assert_eq!(rt; step(&mut cells, 0, Ask::Store(WORD, 11)), 0);
    assert_eq!(rt; step(&mut cells, 0, Ask::Mark(0)), 11);
    assert_eq!(rt; step(&mut cells, 1, from_nothing), 0);
    assert_eq!(rt; step(&mut cells, 0, from_nothing), 9);
    assert_eq!(rt; step(&mut cells, 0, Ask::Fence), 0);
    assert_eq!(rt; cells.word(OTHER), 9);
    Ok(())
}

#[test]
fn pins_and_the_bitmap_are_words_too(rt: HostRuntime) -> Result<(), Fail> {
    let taken = vec![in rt.alloc(); 6]?;
    let mut cells = Cells::new(rt.alloc(), Vec::new(rt.alloc()), taken, 16)?;
    cells.reserve(4)?;
    assert_eq!(rt; cells.perform(3, Ask::SetBits(Place::Map(0), 9)), 6);
    assert_eq!(rt; cells.perform(3, Ask::ClearBits(Place::Map(0), 3)), 15);
    assert_eq!(rt; cells.perform(15, Ask::Store(Place::Pin(15), 3)), 0);
    assert_eq!(rt; cells.perform(0, Ask::Load(Place::Pin(15))), 3);
    assert_eq!(rt; cells.word(Place::Map(0)), 12);
    Ok(())
}

/// The oldest that is left rises with a fence of the seat that marked, to what it marked last, and with no other.
#[test]
fn a_fence_keeps_what_its_seat_marked(rt: HostRuntime) -> Result<(), Fail> {
    let words = vec![in rt.alloc(); 10]?;
    let mut cells = Cells::new(rt.alloc(), words, Vec::new(rt.alloc()), 2)?;
    cells.reserve(20)?;
    step(&mut cells, 0, Ask::Store(WORD, 11));
    step(&mut cells, 0, Ask::Mark(0));
    step(&mut cells, 1, Ask::Store(WORD, 12));
    step(&mut cells, 1, Ask::Mark(0));
    step(&mut cells, 1, Ask::Store(WORD, 13));
    let left = cells.survivors(rt.alloc(), Choice::Oldest)?;
    assert_eq!(rt; left.as_slice(), [10].as_slice());
    step(&mut cells, 0, Ask::Fence);
    let left = cells.survivors(rt.alloc(), Choice::Oldest)?;
    assert_eq!(rt; left.as_slice(), [11].as_slice());
    step(&mut cells, 0, Ask::Fence);
    let left = cells.survivors(rt.alloc(), Choice::Oldest)?;
    assert_eq!(rt; left.as_slice(), [11].as_slice());
    step(&mut cells, 1, Ask::Mark(0));
    step(&mut cells, 1, Ask::Fence);
    let left = cells.survivors(rt.alloc(), Choice::Oldest)?;
    assert_eq!(rt; left.as_slice(), [13].as_slice());
    let left = cells.survivors(rt.alloc(), Choice::Newest)?;
    assert_eq!(rt; left.as_slice(), [13].as_slice());
    Ok(())
}

/// The words that the reference code of PCG draws, by its XSH RR 64/32 with stream 0: of seed 0 these are 3837872008, 932996374 and
/// 1548399547, of seed 3 3380776849, 1947873360 and 3272186844. Word 0 has one value, and takes none of them. Word 1 has two left and
/// takes the first word modulo 2: 0 and 1. Word 2 has three left and takes the second modulo 3: 1 and 0. Word 3 has four left and
/// takes the third modulo 4: 3 and 0.
#[test]
fn a_choice_takes_one_value_of_each_word(rt: HostRuntime) -> Result<(), Fail> {
    let words = vec![in rt.alloc(); 5, 10, 20, 30]?;
    let mut cells = Cells::new(rt.alloc(), words, Vec::new(rt.alloc()), 1)?;
    cells.reserve(20)?;
    step(&mut cells, 0, Ask::Store(Place::Image(1), 11));
    step(&mut cells, 0, Ask::Store(Place::Image(3), 31));
    step(&mut cells, 0, Ask::Mark(1));
    step(&mut cells, 0, Ask::Fence);
    step(&mut cells, 0, Ask::Store(Place::Image(3), 32));
    step(&mut cells, 0, Ask::Store(Place::Image(2), 21));
    step(&mut cells, 0, Ask::Store(Place::Image(1), 12));
    step(&mut cells, 0, Ask::Store(Place::Image(2), 22));
    step(&mut cells, 0, Ask::Store(Place::Image(3), 33));
    let left = cells.survivors(rt.alloc(), Choice::Oldest)?;
    assert_eq!(rt; left.as_slice(), [5, 11, 20, 30].as_slice());
    let left = cells.survivors(rt.alloc(), Choice::Newest)?;
    assert_eq!(rt; left.as_slice(), [5, 12, 22, 33].as_slice());
    let left = cells.survivors(rt.alloc(), Choice::Drawn(0))?;
    assert_eq!(rt; left.as_slice(), [5, 11, 21, 33].as_slice());
    let left = cells.survivors(rt.alloc(), Choice::Drawn(3))?;
    assert_eq!(rt; left.as_slice(), [5, 12, 20, 30].as_slice());
    Ok(())
}
