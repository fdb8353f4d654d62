//! The runs of the blocks of a write.

ghost use Rattle.std.specs.Prelude.{◌≡◌};
ghost use Rattle.partial_blocks.specs.Runs.{HasRuns, are_one_run, runs_composed};

use log_entry::{IndirectWord, RunWord};
use pmem_words::{OwnedBlock, SeatState};

/// Whether these blocks are one run, in the order of their list.
pub fn are_one_run(owned: &[OwnedBlock]) -> bool
    ensures { result ≡ are_one_run owned.now }
{
    if owned.len() == 0 {
        return true;
    }
    let mut last = owned[0].block;
    for place in 1..owned.len() {
        let block = owned[place].block;
        if u32::from(block) != u32::from(last) + 1 {
            return false;
        }
        last = block;
    }
    true
}

/// The block at place `count` of the list holds the runs of the blocks before it, of which the first holds virtual block `virt`. In the
/// last of them `leftover` bytes, below 4096, lie behind the entry's end.
pub fn compose_runs(seat: &mut SeatState, virt: u16, count: u16, leftover: u16)
    requires { HasRuns count leftover seat.old }
    ensures { seat.new ≡ runs_composed virt count leftover seat.old }
{
    let mut run = RunWord {
        block: seat.owned()[0].block,
        count: 1,
    };
    let mut runs = 1;
    seat.set_word(count, 1, run.encode());
    for last in 0..count - 1 {
        let block = seat.owned()[last as usize + 1].block;
        if u32::from(run.block) + u32::from(run.count) == u32::from(block) {
            run.count += 1;
        } else {
            run = RunWord { block, count: 1 };
            runs += 1;
        }
        seat.set_word(count, runs, run.encode());
    }
    let first = IndirectWord {
        virt,
        count,
        runs,
        leftover,
    };
    seat.set_word(count, 0, first.encode());
}
