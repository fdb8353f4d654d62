//! A seat of a world writes whole blocks, by turns, whatever the others are in the middle of.

ghost use Rattle.std.specs.Prelude.{◌≡◌, ◌≢◌, ◌<◌, ◌≤◌, ◌+◌, ℕ, length, slice_index, IfOk};
ghost use Rattle.log_core.specs.Within.{no_record};
ghost use Rattle.log_core.specs.Works.{Begins, state_after_work};
ghost use Rattle.crash_model.specs.Worlds.{seat_of};
ghost use Rattle.crash_model.specs.Led.{Rests, Runs, IsAmong, IsResting, HasLeft, HasNoMarks};
ghost use Rattle.pmem_words.specs.declared.TheConstants.{JOB_BYTES};
ghost use Rattle.pmem_words.specs.declared.machine.Turn.TheVariants.{Go, Done};
ghost use Rattle.write_any.specs.declared.stage.Target.TheVariants.{At};
ghost use Rattle.write_any.specs.Writing.{write_of, write_script};
ghost use Rattle.world_tests.specs.WriteSeats.{MayBeginWrite, IsToWrite};

use crate::Unfinished;
use crate::pair_turns::{Beside, turn_among};
use block_bitmap::begin_alone;
use crash_model::World;
use pmem_words::{Ask, Machine, SeatState, Task, Turn, Written};
use write_any::{Target, Write};

impl Beside for Write {
    ghost holds = { λ m. Runs write_script no_record (λ out t v. HasLeft out t v) m };
}

/// Begins a task with these bytes.
fn begin_with(seat: &mut SeatState, task: Task, bytes: &[u8])
    requires { length bytes.now ≤ JOB_BYTES }
    ensures { seat.new ≡ state_after_work seat.old (Begins task bytes.now) }
{
    begin_alone(seat, task);
    seat.put_bytes(bytes);
}

/// Does nothing: its contract says of bytes that they are below 256, which a contract over a list of numbers has to be told.
fn bound(bytes: &[u8])
    ensures { (place : ℕ) → slice_index bytes.now place < 256 }
{}

/// A seat of a world at rest begins to write these bytes, which fill whole blocks from a byte of the file on.
pub fn begin_write(world: &mut World, seat: u8, offset: u64, bytes: &[u8]) -> Write
    requires inside { seat < length world.old.seats }
    requires resting { IsResting world.old }
    requires may { MayBeginWrite offset bytes.now seat (seat_of world.old seat) }
    requires no_marks { HasNoMarks world.old seat }
    requires short { length bytes.now ≤ JOB_BYTES }
    ensures write { result ≡ write_of (At offset) }
    ensures resting { IsResting world.new }
    ensures begun { IsToWrite offset seat (seat_of world.new seat) }
    ensures others { (other : ℕ) → other ≢ seat → seat_of world.new other ≡ seat_of world.old other }
    ensures many { length world.new.seats ≡ length world.old.seats }
    ensures cells { world.new.cells ≡ world.old.cells }
{
    bound(bytes);
    begin_with(world.seat(seat), Task::Pwrite { offset }, bytes);
    Write::new(Target::At { offset })
}

/// What a seat that writes asks next.
pub fn asked(world: &mut World, seat: u8, write: &Write) -> Ask
    requires inside { seat < length world.old.seats }
    ensures asks { result ≡ write_script.asks write.now (seat_of world.old seat) }
    ensures same { world.new ≡ world.old }
{
    write.ask(world.seat(seat))
}

/// One turn of a seat that writes. What holds of the other seats stays.
pub fn turn_write<B: Beside>(
    world: &mut World,
    seat: u8,
    write: &mut Write,
    beside: &B,
) -> Turn<Written>
    requires room { 0 < world.old.cells.room }
    requires led { IsAmong (B.holds beside.now) seat (Runs write_script no_record (λ out t v. HasLeft out t v) write.old) world.old }
    ensures many { length world.new.seats ≡ length world.old.seats }
    ensures room { world.new.cells.room + 1 ≡ world.old.cells.room }
    ensures go { result ≡ Go → IsAmong (B.holds beside.now) seat (Runs write_script no_record (λ out t v. HasLeft out t v) write.new) world.new }
    ensures done { (out : _) → result ≡ Done out → IsAmong (B.holds beside.now) seat Rests world.new }
{
    turn_among(world, seat, write, beside)
}

/// So many turns of a seat that writes, none of them the last.
pub fn go_on_writing<B: Beside>(
    world: &mut World,
    seat: u8,
    write: &mut Write,
    beside: &B,
    turns: u16,
) -> Result<(), Unfinished>
    requires room { turns ≤ world.old.cells.room }
    requires led { IsAmong (B.holds beside.now) seat (Runs write_script no_record (λ out t v. HasLeft out t v) write.old) world.old }
    ensures led { IfOk result (λ _. IsAmong (B.holds beside.now) seat (Runs write_script no_record (λ out t v. HasLeft out t v) write.new) world.new) }
    ensures many { IfOk result (λ _. length world.new.seats ≡ length world.old.seats) }
    ensures room { IfOk result (λ _. world.new.cells.room + turns ≡ world.old.cells.room) }
{
    for _ in 0..turns {
        let Turn::Go = turn_write(world, seat, write, beside) else {
            return Err(Unfinished);
        };
    }
    Ok(())
}

/// The turns of a seat that writes up to the last one, at most so many. The seat is at rest then: its entry is in, or it was refused, and its
/// call has no record yet.
pub fn end_write<B: Beside>(
    world: &mut World,
    seat: u8,
    mut write: Write,
    beside: &B,
    turns: u16,
) -> Result<Written, Unfinished>
    requires room { turns ≤ world.old.cells.room }
    requires led { IsAmong (B.holds beside.now) seat (Runs write_script no_record (λ out t v. HasLeft out t v) write) world.old }
    ensures rests { IfOk result (λ _. IsAmong (B.holds beside.now) seat Rests world.new) }
    ensures many { IfOk result (λ _. length world.new.seats ≡ length world.old.seats) }
    ensures room { IfOk result (λ _. world.old.cells.room ≤ world.new.cells.room + turns) }
{
    for _ in 0..turns {
        if let Turn::Done(written) = turn_write(world, seat, &mut write, beside) {
            return Ok(written);
        }
    }
    Err(Unfinished)
}
