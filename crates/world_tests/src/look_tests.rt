//! A seat looks at what another has written.

ghost use Rattle.std.specs.Prelude.{◌≡◌, ◌<◌, ℕ, List, length, IfOk};
ghost use Rattle.crash_model.specs.Worlds.{seat_of};
ghost use Rattle.crash_model.specs.Led.{Runs, IsAmong, IsResting, HasLeft, HasNoMarks};
ghost use Rattle.log_core.specs.Within.{no_record};
ghost use Rattle.read_validate.specs.Looking.{look_script};
ghost use Rattle.write_any.specs.Writing.{write_script};
ghost use Rattle.world_tests.specs.LookSeats.{IsShort};
ghost use Rattle.world_tests.specs.WriteSeats.{MayBeginWrite};

use crate::look_turns::{begin_look, end_look};
use crate::pair_turns::Resting;
use crate::write_tests::two_seats;
use crate::write_turns::{begin_write, end_write};
use crash_model::World;
use log_entry::Geometry;
use read_validate::{Look, Query, Seen};
use std::alloc::Global;
use std::test::Fail;
use write_any::Write;

/// One seat begins to look and the other to write one block, before either makes a step.
fn begin_both(world: &mut World, query: Query, bytes: &[u8]) -> (Look, Write)
    requires resting { IsResting world.old }
    requires many { length world.old.seats ≡ 2 }
    requires may { (seat : ℕ) → seat < 2 → (bytes : List ℕ) → length bytes ≡ 64 → MayBeginWrite 0 bytes seat (seat_of world.old seat) }
    requires no_marks { (seat : ℕ) → HasNoMarks world.old seat }
    requires bytes { length bytes.now ≡ 64 }
    requires short { IsShort query }
    ensures led { IsAmong (Runs look_script no_record (λ out t v. HasLeft out t v) result.0) 1 (Runs write_script no_record (λ out t v. HasLeft out t v) result.1) world.new }
    ensures many { length world.new.seats ≡ 2 }
    ensures room { world.new.cells.room ≡ world.old.cells.room }
{
    let look = begin_look(world, 0, query);
    let write = begin_write(world, 1, 0, bytes);
    (look, write)
}

/// What a seat sees that has begun to look before another one wrote a block of 64 bytes 9, and the bytes of its call then.
fn seen(alloc: Global, geometry: Geometry, query: Query) -> Result<(Seen, World), Fail>
    requires block { geometry.block_bytes ≡ 64 }
    requires short { IsShort query }
    ensures many { IfOk result (λ made. length made.1.seats ≡ 2) }
{
    let mut world = two_seats(alloc, geometry)?;
    let (look, write) = begin_both(&mut world, query, &[9; 64]);
    end_write(&mut world, 1, write, &look, 36)?;
    let seen = end_look(&mut world, 0, look, &Resting, 24)?;
    Ok((seen, world))
}

#[test]
fn a_seat_sees_what_another_has_written(rt: HostRuntime) -> Result<(), Fail> {
    let Ok(geometry) = Geometry::new(40, 4, 64) else {
        return Ok(());
    };
    let (size, _) = seen(rt.alloc(), geometry, Query::Size)?;
    let whole = Seen {
        position: 1,
        number: 64,
    };
    assert_eq!(rt; size, whole);
    let range = Query::Range {
        offset: 59,
        length: 10,
    };
    let (last, mut world) = seen(rt.alloc(), geometry, range)?;
    let few = Seen {
        position: 1,
        number: 5,
    };
    assert_eq!(rt; last, few);
    assert_eq!(rt; world.seat(0).bytes(), [9; 5].as_slice());
    Ok(())
}
