//! Two seats on one image of two data blocks and a log block take, fill and give blocks.

ghost use Rattle.std.specs.Prelude.{◌≡◌, ◌<◌, ◌≤◌, ℕ, length, [], IfOk};
ghost use Rattle.crash_model.specs.Worlds.{seat_of};
ghost use Rattle.crash_model.specs.Led.{IsResting};
ghost use Rattle.world_tests.specs.AloneSeats.{AreAlone};

use crate::block_turns::{begin_fill, end_fill, give_in, go_on, owns_only, set_all, take_in};
use block_bitmap::Taken;
use crash_model::{Choice, World};
use image_tools::mkfs;
use log_entry::{Area, Geometry};
use std::alloc::{AllocError, Global};
use std::test::Fail;

/// A world of two seats on a just-made image, with room for 40 steps.
fn two_seats(alloc: Global, geometry: Geometry) -> Result<World, AllocError>
    ensures resting { IfOk result (λ world. IsResting world) }
    ensures room { IfOk result (λ world. 40 ≤ world.cells.room) }
    ensures many { IfOk result (λ world. length world.seats ≡ 2) }
    ensures alone { IfOk result (λ world. AreAlone world) }
    ensures owned { IfOk result (λ world. (seat : ℕ) → seat < 2 → (seat_of world seat).blocks.owned ≡ []) }
{
    let start = mkfs(alloc, geometry)?;
    let mut world = World::new(alloc, start, 2)?;
    world.reserve(40)?;
    Ok(world)
}

#[test]
fn a_filled_block_outlasts_a_crash(rt: HostRuntime) -> Result<(), Fail> {
    let Ok(geometry) = Geometry::new(2, 1, 64) else {
        return Ok(());
    };
    let mut world = two_seats(rt.alloc(), geometry)?;
    let taken = take_in(&mut world, 0, Area::Data, 1)?;
    assert_eq!(rt; taken, Taken::Taken);
    assert_eq!(rt; owns_only(&mut world, 0, 1), true);
    set_all(&mut world, 0, 5);
    let mut fill = begin_fill(&mut world, 0);
    go_on(&mut world, 0, &mut fill, 16)?;
    let left = world.survivors(rt.alloc(), Choice::Oldest)?;
    assert_eq!(rt; left.len(), 192);
    assert_eq!(rt; left[8], 0);
    end_fill(&mut world, 0, fill)?;
    for choice in [Choice::Oldest, Choice::Newest, Choice::Drawn(7)] {
        let left = world.survivors(rt.alloc(), choice)?;
        assert_eq!(rt; left.len(), 192);
        assert_eq!(rt; &left[8..16], [5; 8].as_slice());
    }
    let taken = take_in(&mut world, 1, Area::Data, 2)?;
    assert_eq!(rt; taken, Taken::NoSpace { area: Area::Data });
    assert_eq!(rt; owns_only(&mut world, 1, 2), true);
    let given = give_in(&mut world, 1)?;
    assert_eq!(rt; given, 1);
    let taken = take_in(&mut world, 1, Area::Data, 1)?;
    assert_eq!(rt; taken, Taken::Taken);
    assert_eq!(rt; owns_only(&mut world, 1, 2), true);
    assert_eq!(rt; world.position(), 0);
    assert_eq!(rt; world.synced(), 0);
    Ok(())
}
