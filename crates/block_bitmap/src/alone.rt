//! Blocks taken over a plain memory, where no other seat makes a step.

ghost use Rattle.std.specs.Prelude.{◌≡◌, ◌+◌, ◌*◌, ◌<◌, ◌≤◌, length, take};
ghost use Rattle.log_entry.specs.Shape.{total_of};
ghost use Rattle.pmem_words.specs.Seats.{owned_room};
ghost use Rattle.block_bitmap.specs.TakeScript.{with_taken_blocks};
ghost use Rattle.block_bitmap.specs.TakeAlone.{free_blocks, outcome, found_as, AreSet, HasPassed};

use crate::take::{Take, Taken};
use log_entry::Area;
use pmem_words::{Plain, SeatState, drive};

/// Takes the least clear blocks of an area, `count` of them or all where fewer are clear. The memory needs a bit for each block of
/// the image, and the seat's list of owned blocks a free place for each that is to be taken.
pub fn take_alone(seat: &mut SeatState, memory: &mut Plain, area: Area, count: u16) -> Taken
    requires some { 0 < count }
    requires room { length seat.old.blocks.owned + count ≤ owned_room seat.old.geometry }
    requires bits { total_of seat.old.geometry.data_blocks seat.old.geometry.log_blocks seat.old.geometry.block_bytes ≤ 64 * length memory.old.taken }
    ensures outcome { result ≡ outcome area count (length (free_blocks seat.old.geometry area memory.old.taken)) }
    ensures seat { seat.new ≡ found_as seat.new.blocks.found (with_taken_blocks area (take count (free_blocks seat.old.geometry area memory.old.taken)) seat.old) }
    ensures found { HasPassed area result seat.old memory.new.taken seat.new }
    ensures set { AreSet (take count (free_blocks seat.old.geometry area memory.old.taken)) memory.old.taken memory.new.taken }
    ensures memory { memory.new ≡ record memory.old { taken = memory.new.taken } }
{
    let _words = seat.found().len();
    drive(Take::new(area, count), seat, memory)
}
