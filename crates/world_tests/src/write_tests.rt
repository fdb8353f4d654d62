//! Two seats on one image race for one slot of the log.

ghost use Rattle.std.specs.Prelude.{◌≡◌, ◌<◌, ◌≤◌, ℕ, List, length, IfOk};
ghost use Rattle.crash_model.specs.Worlds.{seat_of};
ghost use Rattle.crash_model.specs.Led.{Runs, IsAmong, IsResting, HasLeft, HasNoMarks};
ghost use Rattle.log_core.specs.Within.{no_record};
ghost use Rattle.write_any.specs.Writing.{write_script};
ghost use Rattle.world_tests.specs.WriteSeats.{MayBeginWrite};

use crate::pair_turns::Resting;
use crate::write_turns::{asked, begin_write, end_write, go_on_writing};
use crash_model::{Choice, World};
use image_tools::mkfs;
use log_entry::Geometry;
use pmem_words::{Ask, Place, Written};
use std::alloc::{AllocError, Global};
use std::test::Fail;
use write_any::Write;

/// A world of two seats on a just-made image with blocks of 64 bytes. Each seat may begin to write one block.
pub fn two_seats(alloc: Global, geometry: Geometry) -> Result<World, AllocError>
    requires bytes { geometry.block_bytes ≡ 64 }
    ensures resting { IfOk result (λ world. IsResting world) }
    ensures room { IfOk result (λ world. 100 ≤ world.cells.room) }
    ensures many { IfOk result (λ world. length world.seats ≡ 2) }
    ensures may { IfOk result (λ world. (seat : ℕ) → seat < 2 → (bytes : List ℕ) → length bytes ≡ 64 → MayBeginWrite 0 bytes seat (seat_of world seat)) }
    ensures no_marks { IfOk result (λ world. (seat : ℕ) → HasNoMarks world seat) }
{
    let start = mkfs(alloc, geometry)?;
    let mut world = World::new(alloc, start, 2)?;
    world.reserve(100)?;
    Ok(world)
}

/// Both seats begin to write one block each, before either makes a step.
fn begin_both(world: &mut World, slower: &[u8], faster: &[u8]) -> (Write, Write)
    requires resting { IsResting world.old }
    requires many { length world.old.seats ≡ 2 }
    requires may { (seat : ℕ) → seat < 2 → (bytes : List ℕ) → length bytes ≡ 64 → MayBeginWrite 0 bytes seat (seat_of world.old seat) }
    requires no_marks { (seat : ℕ) → HasNoMarks world.old seat }
    requires slower { length slower.now ≡ 64 }
    requires faster { length faster.now ≡ 64 }
    ensures led { IsAmong (Runs write_script no_record (λ out t v. HasLeft out t v) result.1) 0 (Runs write_script no_record (λ out t v. HasLeft out t v) result.0) world.new }
    ensures many { length world.new.seats ≡ 2 }
    ensures room { world.new.cells.room ≡ world.old.cells.room }
{
    let of_zero = begin_write(world, 0, 0, slower);
    let of_one = begin_write(world, 1, 0, faster);
    (of_zero, of_one)
}

#[test]
fn a_write_that_loses_a_slot_gets_the_next_one(rt: HostRuntime) -> Result<(), Fail> {
    let Ok(geometry) = Geometry::new(40, 4, 64) else {
        return Ok(());
    };
    let mut world = two_seats(rt.alloc(), geometry)?;
    let (mut slower, faster) = begin_both(&mut world, &[7; 64], &[9; 64]);
    go_on_writing(&mut world, 0, &mut slower, &faster, 24)?;
    let exchange = Ask::Exchange {
        place: Place::Image(331),
        old: 0,
        new: 262_145,
    };
    assert_eq!(rt; asked(&mut world, 0, &slower), exchange);
    let written = end_write(&mut world, 1, faster, &slower, 36)?;
    let first = Written {
        position: 1,
        at: 0,
        lost: 0,
        refusal: None,
    };
    assert_eq!(rt; written, first);
    assert_eq!(rt; world.position(), 1);
    let written = end_write(&mut world, 0, slower, &Resting, 36)?;
    let second = Written {
        position: 2,
        at: 0,
        lost: 1,
        refusal: None,
    };
    assert_eq!(rt; written, second);
    assert_eq!(rt; world.position(), 2);
    let left = world.survivors(rt.alloc(), Choice::Newest)?;
    assert_eq!(rt; left.len(), 632);
    assert_eq!(rt; left[331], 524_289);
    assert_eq!(rt; left[332], 262_145);
    assert_eq!(rt; &left[8..16], [0x0707_0707_0707_0707; 8].as_slice());
    assert_eq!(rt; &left[16..24], [0x0909_0909_0909_0909; 8].as_slice());
    Ok(())
}
