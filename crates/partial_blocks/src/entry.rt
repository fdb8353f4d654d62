//! The entry that names the blocks of a write.

ghost use Rattle.std.specs.Prelude.{◌≡◌};
ghost use Rattle.partial_blocks.specs.Touching.{IsInFile};
ghost use Rattle.partial_blocks.specs.Entries.{leftover_of, entry_at, HasBlocks};

use crate::touching::{first_touched, last_touched, touched_count};
use log_entry::Entry;
use pmem_words::SeatState;

/// How many bytes of the last touched virtual block lie behind the call's last byte, below the bytes of a block. The file's size after
/// the write is the larger of the size before it and the end that an entry with this leftover says, which is the end of the call's bytes.
pub fn leftover_of(seat: &SeatState, offset: u64) -> u16
    requires { IsInFile offset seat.now }
    ensures { result ≡ leftover_of offset seat.now }
{
    let past = u64::from(last_touched(seat, offset)) + 1;
    let end = offset + seat.bytes().len() as u64;
    (past * u64::from(seat.geometry().block_bytes()) - end) as u16
}

/// The entry for the blocks of the list: direct where there is one for each touched virtual block, else of the block behind those, which
/// holds their runs.
pub fn entry_of(seat: &SeatState, offset: u64) -> Entry
    requires { HasBlocks offset seat.now }
    ensures { result ≡ entry_at offset seat.now }
{
    let count = touched_count(seat, offset) as u16;
    if count as usize == seat.owned().len() {
        Entry::Direct {
            virt: first_touched(seat, offset),
            block: seat.owned()[0].block,
            count,
            leftover: leftover_of(seat, offset),
        }
    } else {
        Entry::Indirect {
            block: seat.owned()[count as usize].block,
        }
    }
}
