//! Sixteen seats of a world take pins and give them up.

ghost use Rattle.std.specs.Prelude.{◌≡◌, ◌≢◌, ◌<◌, ◌≤◌, ◌+◌, ◌*◌, ℕ, length, IfOk};
ghost use Rattle.crash_model.specs.Worlds.{WorldNow, seat_of};
ghost use Rattle.crash_model.specs.Led.{IsResting, IsLed, HasLeft, IsTurnOf};
ghost use Rattle.world_tests.specs.PinSeats.{MayTurn};

use crash_model::World;
use image_tools::mkfs;
use log_entry::{Geometry, Head};
use std::alloc::{AllocError, Global};
use world_tests::Unfinished;
use world_tests::pin_turns::{pin_in, unpin_in};

/// A world of sixteen seats on a just-made image, with room for so many steps.
fn sixteen_seats(alloc: Global, geometry: Geometry, steps: u32) -> Result<World, AllocError>
    ensures resting { IfOk result (λ world. IsResting world) }
    ensures room { IfOk result (λ world. steps ≤ world.cells.room) }
    ensures many { IfOk result (λ world. length world.seats ≡ 16) }
    ensures may { IfOk result (λ world. (seat : ℕ) → seat < 16 → MayTurn seat (seat_of world seat)) }
{
    let start = mkfs(alloc, geometry)?;
    let mut world = World::new(alloc, start, 16)?;
    world.reserve(steps as u64)?;
    Ok(world)
}

/// A seat takes a pin and gives it up: four steps.
fn pin_and_unpin(world: &mut World, seat: u8) -> Result<Head, Unfinished>
    requires room { 4 ≤ world.old.cells.room }
    requires inside { seat < 16 }
    requires many { length world.old.seats ≡ 16 }
    requires resting { IsResting world.old }
    requires may { (other : ℕ) → other < 16 → MayTurn other (seat_of world.old other) }
    ensures resting { IfOk result (λ _. IsResting world.new) }
    ensures many { IfOk result (λ _. length world.new.seats ≡ 16) }
    ensures may { IfOk result (λ _. (other : ℕ) → other < 16 → MayTurn other (seat_of world.new other)) }
    ensures room { IfOk result (λ _. world.new.cells.room + 4 ≡ world.old.cells.room) }
{
    let head = pin_in(world, seat)?;
    unpin_in(world, seat);
    Ok(head)
}

/// The seats in turn take a pin and give it up, so many times in all; what the generations pinned come to.
fn pinnings(world: &mut World, times: u32) -> Result<u64, Unfinished>
    requires room { 4 * times ≤ world.old.cells.room }
    requires many { length world.old.seats ≡ 16 }
    requires resting { IsResting world.old }
    requires may { (seat : ℕ) → seat < 16 → MayTurn seat (seat_of world.old seat) }
{
    let mut sum = 0u64;
    for time in 0..times {
        let head = pin_and_unpin(world, (time % 16) as u8)?;
        sum = sum
            .wrapping_mul(31)
            .wrapping_add(u64::from(head.generation));
    }
    Ok(sum)
}

/// So many steps, less those over a multiple of four, of sixteen seats that in turn take a pin and give it up, on a just-made image of
/// 40 data blocks and 4 log blocks of 64 bytes. What the generations pinned come to, or 0 where a pin takes more than three turns.
pub fn world_steps(alloc: Global, steps: u32) -> Result<u64, AllocError> {
    let Ok(geometry) = Geometry::new(40, 4, 64) else {
        return Ok(0);
    };
    let mut world = sixteen_seats(alloc, geometry, steps)?;
    match pinnings(&mut world, steps / 4) {
        Ok(sum) => Ok(sum),
        Err(Unfinished) => Ok(0),
    }
}
