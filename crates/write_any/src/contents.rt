//! What the blocks of a write hold, and the entry that names them.

ghost use Rattle.std.specs.Prelude.{◌≡◌, ◌<◌, ◌^◌};
ghost use Rattle.write_any.specs.Composing.{block_count, virt_at, HasBlocks, HasRuns, HasLast, are_one_run, composed, runs_composed, last_place, last_block, log_composed, entry_at};

use log_entry::{BlockKind, BlockWord, Entry, IndirectWord, RunWord};
use pmem_words::{OwnedBlock, SeatState};

/// How many blocks the bytes of the call fill.
pub fn block_count(seat: &SeatState) -> u16
    requires { block_count seat.now < 2 ^ 16 }
    ensures { result ≡ block_count seat.now }
{
    (seat.bytes().len() / seat.geometry().block_bytes() as usize) as u16
}

/// The virtual block at this byte of the file.
pub fn virt_at(seat: &SeatState, offset: u64) -> u16
    requires { virt_at offset seat.now < 2 ^ 16 }
    ensures { result ≡ virt_at offset seat.now }
{
    (offset / u64::from(seat.geometry().block_bytes())) as u16
}

/// Whether these blocks are one run, in the order of their list.
pub fn are_one_run(owned: &[OwnedBlock]) -> bool
    ensures { result ≡ are_one_run owned.now }
{
    if owned.len() == 0 {
        return true;
    }
    let mut last = owned[0].block;
    for place in 1..owned.len() {
        let block = owned[place].block;
        if u32::from(block) != u32::from(last) + 1 {
            return false;
        }
        last = block;
    }
    true
}

/// The first blocks of the list hold the bytes of the call; where there is one block more, it holds the runs of the others.
pub fn compose(seat: &mut SeatState, offset: u64)
    requires { HasBlocks offset seat.old }
    ensures { seat.new ≡ composed offset seat.old }
{
    let count = block_count(seat);
    let block_bytes = seat.geometry().block_bytes() as usize;
    for place in 0..count {
        seat.set_block(place, place as usize * block_bytes);
    }
    if (count as usize) < seat.owned().len() {
        compose_runs(seat, virt_at(seat, offset), count);
    }
}

/// The block at place `count` of the list holds the runs of the blocks before it.
fn compose_runs(seat: &mut SeatState, virt: u16, count: u16)
    requires { HasRuns count seat.old }
    ensures { seat.new ≡ runs_composed virt count seat.old }
{
    let mut run = RunWord {
        block: seat.owned()[0].block,
        count: 1,
    };
    let mut runs = 1;
    seat.set_word(count, 1, run.encode());
    for last in 0..count - 1 {
        let block = seat.owned()[last as usize + 1].block;
        if u32::from(run.block) + u32::from(run.count) == u32::from(block) {
            run.count += 1;
        } else {
            run = RunWord { block, count: 1 };
            runs += 1;
        }
        seat.set_word(count, runs, run.encode());
    }
    let first = IndirectWord {
        virt,
        count,
        runs,
        leftover: 0,
    };
    seat.set_word(count, 0, first.encode());
}

/// The last block of the list becomes a log block without entries, whose base is the position.
pub fn compose_log(seat: &mut SeatState)
    requires last { HasLast seat.old }
    requires inside { seat.old.walk.position < 2 ^ 40 }
    ensures { seat.new ≡ log_composed seat.old }
{
    let word = BlockWord {
        kind: BlockKind::Log,
        base: seat.position(),
    };
    let place = last_place(seat);
    seat.set_word(place, 1, word.encode());
}

/// The place of the last block of the list.
pub fn last_place(seat: &SeatState) -> u16
    requires { HasLast seat.now }
    ensures { result ≡ last_place seat.now }
{
    seat.owned().len() as u16 - 1
}

/// That block.
pub fn last_block(seat: &SeatState) -> u16
    requires { HasLast seat.now }
    ensures { result ≡ last_block seat.now }
{
    seat.owned()[last_place(seat) as usize].block
}

/// The entry for the blocks of the list: direct where there is one for each virtual block, else of the block with their runs.
pub fn entry_of(seat: &SeatState, offset: u64) -> Entry
    requires { HasBlocks offset seat.now }
    ensures { result ≡ entry_at offset seat.now }
{
    let count = block_count(seat);
    if count as usize == seat.owned().len() {
        Entry::Direct {
            virt: virt_at(seat, offset),
            block: seat.owned()[0].block,
            count,
            leftover: 0,
        }
    } else {
        Entry::Indirect {
            block: seat.owned()[count as usize].block,
        }
    }
}
