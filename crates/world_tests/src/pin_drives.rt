//! A pin at a seat of a world, taken by driving its machine over the image to its end.

ghost use Rattle.std.specs.Prelude.{◌≡◌, ◌<◌, length, true};
ghost use Rattle.crash_model.specs.Worlds.{seat_of, world_of};
ghost use Rattle.crash_model.specs.Led.{IsResting};
ghost use Rattle.world_tests.specs.PinSeats.{MayTurn};

use crash_model::SharedImage;
use log_entry::Head;
use pins::Pin;
use pmem_words::{SeatState, drive};

/// A seat takes a pin of a world at rest, in three steps at most, between which no other seat makes one. The states of the seats stand in
/// the order of their numbers. Its pin is valid then, and of the generation answered, and each seat is at rest again.
pub fn pin_at(image: &mut SharedImage, seats: &mut [SeatState], seat: u8) -> Head
    requires room { 2 < image.old.cells.room }
    requires inside { seat < length seats.old }
    requires resting { IsResting (world_of image.old seats.old) }
    requires may { MayTurn seat (seat_of (world_of image.old seats.old) seat) }
    ensures resting { IsResting (world_of image.new seats.new) }
    ensures valid { (seat_of (world_of image.new seats.new) seat).hold.valid ≡ true }
    ensures pinned { (seat_of (world_of image.new seats.new) seat).hold.pin ≡ result.generation }
{
    drive(Pin::new(), &mut seats[seat as usize], image)
}
