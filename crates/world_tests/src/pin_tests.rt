//! Two seats on one image of two data blocks and a log block: one takes a pin, the other scans.

ghost use Rattle.std.specs.Prelude.{◌≡◌, ◌≤◌, length, IfOk};
ghost use Rattle.crash_model.specs.Worlds.{seat_of};
ghost use Rattle.crash_model.specs.Led.{IsResting};
ghost use Rattle.world_tests.specs.PinSeats.{MayTurn, MayLook};

use crate::pair_turns::pin_and_scan;
use crate::pin_drives::pin_at;
use crate::pin_turns::{pin_in, scan_in, unpin_in};
use crash_model::{Choice, World};
use image_tools::mkfs;
use log_entry::{Geometry, Head, Held};
use pins::Scanned;
use std::alloc::{AllocError, Global};
use std::test::Fail;

/// A world of two seats on a just-made image.
fn two_seats(alloc: Global, geometry: Geometry) -> Result<World, AllocError>
    ensures resting { IfOk result (λ world. IsResting world) }
    ensures room { IfOk result (λ world. 20 ≤ world.cells.room) }
    ensures many { IfOk result (λ world. length world.seats ≡ 2) }
    ensures pin { IfOk result (λ world. MayTurn 0 (seat_of world 0)) }
    ensures scan { IfOk result (λ world. MayLook 1 2 (seat_of world 1)) }
{
    let start = mkfs(alloc, geometry)?;
    let mut world = World::new(alloc, start, 2)?;
    world.reserve(20)?;
    Ok(world)
}

#[test]
fn a_pin_is_found_by_another_seat(rt: HostRuntime) -> Result<(), Fail> {
    let Ok(geometry) = Geometry::new(2, 1, 64) else {
        return Ok(());
    };
    let mut world = two_seats(rt.alloc(), geometry)?;
    let head = pin_in(&mut world, 0)?;
    let first = Head {
        generation: 1,
        block: 3,
    };
    assert_eq!(rt; head, first);
    let found = scan_in(&mut world, 1, 1)?;
    let held = Held {
        seat: 0,
        generation: 1,
    };
    assert_eq!(rt; found, Scanned::Held(held));
    unpin_in(&mut world, 0);
    let found = scan_in(&mut world, 1, 1)?;
    assert_eq!(rt; found, Scanned::Clear);
    for choice in [Choice::Oldest, Choice::Newest, Choice::Drawn(7)] {
        let left = world.survivors(rt.alloc(), choice)?;
        assert_eq!(rt; left.len(), 192);
        assert_eq!(rt; left[0], 3_552_576_303_075_180_877);
        assert_eq!(rt; left[1], 393_217);
        assert_eq!(rt; left[2], 4_294_967_298);
        assert_eq!(rt; left[3], 4_294_967_299);
        assert_eq!(rt; left[25], 4_611_686_018_427_387_904);
        assert_eq!(rt; left.iter().filter(|word| **word != 0).count(), 5);
    }
    Ok(())
}

#[test]
fn a_pin_is_taken_while_another_seat_scans(rt: HostRuntime) -> Result<(), Fail> {
    let Ok(geometry) = Geometry::new(2, 1, 64) else {
        return Ok(());
    };
    let mut world = two_seats(rt.alloc(), geometry)?;
    let (head, found) = pin_and_scan(&mut world)?;
    let first = Head {
        generation: 1,
        block: 3,
    };
    assert_eq!(rt; head, first);
    assert_eq!(rt; found, Scanned::Clear);
    Ok(())
}

#[test]
fn a_pin_is_driven_at_one_seat(rt: HostRuntime) -> Result<(), Fail> {
    let Ok(geometry) = Geometry::new(2, 1, 64) else {
        return Ok(());
    };
    let world = two_seats(rt.alloc(), geometry)?;
    let (mut image, mut seats) = world.into_parts();
    let head = pin_at(&mut image, seats.as_mut_slice(), 0);
    let first = Head {
        generation: 1,
        block: 3,
    };
    assert_eq!(rt; head, first);
    let mut world = World::from_parts(image, seats);
    let seat = world.seat(0);
    assert_eq!(rt; (seat.pin(), seat.valid()), (1, true));
    Ok(())
}
