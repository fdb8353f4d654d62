//! A seat of a world looks at the file, by turns, whatever the others are in the middle of.

ghost use Rattle.std.specs.Prelude.{◌≡◌, ◌≢◌, ◌<◌, ◌≤◌, ◌+◌, ℕ, length, IfOk};
ghost use Rattle.log_core.specs.Within.{no_record};
ghost use Rattle.crash_model.specs.Worlds.{seat_of};
ghost use Rattle.crash_model.specs.Led.{Rests, Runs, IsAmong, IsResting, HasLeft, HasNoMarks};
ghost use Rattle.read_validate.specs.Looking.{look_of, look_script};
ghost use Rattle.world_tests.specs.AloneSeats.{RunsAlone};
ghost use Rattle.world_tests.specs.LookSeats.{task_of, IsShort, IsToLook};

use crate::Unfinished;
use crate::pair_turns::{Beside, turn_among};
use block_bitmap::begin_alone;
use crash_model::World;
use pmem_words::{Task, Turn};
use read_validate::{Look, Query, Seen};

impl Beside for Look {
    ghost holds = { λ m. Runs look_script no_record (λ out t v. HasLeft out t v) m };
}

/// The call that asks this.
fn task_of(query: Query) -> Task
    ensures { result ≡ task_of query }
{
    match query {
        Query::Size => Task::Size,
        Query::Range { offset, length } => Task::Pread { offset, length },
    }
}

/// A seat of a world at rest begins to look.
pub fn begin_look(world: &mut World, seat: u8, query: Query) -> Look
    requires inside { seat < length world.old.seats }
    requires resting { IsResting world.old }
    requires may { RunsAlone seat (seat_of world.old seat) }
    requires no_marks { HasNoMarks world.old seat }
    requires short { IsShort query }
    ensures look { result ≡ look_of query }
    ensures resting { IsResting world.new }
    ensures begun { IsToLook query seat (seat_of world.new seat) }
    ensures others { (other : ℕ) → other ≢ seat → seat_of world.new other ≡ seat_of world.old other }
    ensures many { length world.new.seats ≡ length world.old.seats }
    ensures cells { world.new.cells ≡ world.old.cells }
{
    begin_alone(world.seat(seat), task_of(query));
    Look::new(query)
}

/// The turns of a seat that looks up to the last one, at most so many. The seat is at rest then, and its call has no record yet.
pub fn end_look<B: Beside>(
    world: &mut World,
    seat: u8,
    mut look: Look,
    beside: &B,
    turns: u16,
) -> Result<Seen, Unfinished>
    requires room { turns ≤ world.old.cells.room }
    requires led { IsAmong (B.holds beside.now) seat (Runs look_script no_record (λ out t v. HasLeft out t v) look) world.old }
    ensures rests { IfOk result (λ _. IsAmong (B.holds beside.now) seat Rests world.new) }
    ensures many { IfOk result (λ _. length world.new.seats ≡ length world.old.seats) }
    ensures room { IfOk result (λ _. world.old.cells.room ≤ world.new.cells.room + turns) }
{
    for _ in 0..turns {
        if let Turn::Done(seen) = turn_among(world, seat, &mut look, beside) {
            return Ok(seen);
        }
    }
    Err(Unfinished)
}
