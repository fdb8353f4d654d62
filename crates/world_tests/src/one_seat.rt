//! A seat that makes steps alone, over a plain memory with the words of an image.

ghost use Rattle.std.specs.Prelude.{◌≡◌, ◌<◌, ◌≤◌, ◌^◌, ℕ, length, slice_index, IfOk};
ghost use Rattle.pmem_words.specs.declared.TheConstants.{JOB_BYTES};
ghost use Rattle.log_core.specs.Alone.{IsAlone};
ghost use Rattle.log_blocks.specs.WalkWithin.{MayWalk};
ghost use Rattle.write_any.specs.WriteWithin.{MayWrite};
ghost use Rattle.world_tests.specs.OneSeat.{MayPinAndWalk, FillsBlocks};

use log_blocks::{Tail, Walk};
use log_entry::Head;
use log_image::Start;
use pins::Pin;
use pmem_words::{Plain, SeatState, Task, Written, drive};
use std::alloc::{AllocError, Global};
use write_any::{Target, Write};

/// A seat that has made no step, and a memory of the words of the image.
pub fn alone_on(alloc: Global, start: Start) -> Result<(SeatState, Plain), AllocError>
    ensures { IfOk result (λ made. ∥ IsAlone MayPinAndWalk made.0 made.1 ∥₁) }
{
    let geometry = *start.geometry();
    let seat = SeatState::new(alloc, geometry, 0, 1, start.position())?;
    let (words, taken) = start.into_parts();
    bound(&words);
    let memory = Plain::new(alloc, words, taken)?;
    Ok((seat, memory))
}

/// The same, where the seat is to write these bytes, which fill whole blocks, at this byte of the file.
pub fn writing_on(
    alloc: Global,
    start: Start,
    offset: u64,
    bytes: &[u8],
) -> Result<(SeatState, Plain), AllocError>
    requires few { length bytes.now ≤ JOB_BYTES }
    requires whole { FillsBlocks start.geometry.block_bytes offset (length bytes.now) }
    ensures { IfOk result (λ made. ∥ IsAlone (MayWrite offset) made.0 made.1 ∥₁) }
{
    let geometry = *start.geometry();
    let mut seat = SeatState::new(alloc, geometry, 0, 1, start.position())?;
    seat.set_job(Task::Pwrite { offset });
    seat.put_bytes(bytes);
    let (words, taken) = start.into_parts();
    bound(&words);
    let memory = Plain::new(alloc, words, taken)?;
    Ok((seat, memory))
}

/// Takes a pin.
pub fn pin_alone(seat: &mut SeatState, memory: &mut Plain) -> Head
    requires { ∥ IsAlone MayPinAndWalk seat.old memory.old ∥₁ }
    ensures { ∥ IsAlone MayWalk seat.new memory.new ∥₁ }
{
    drive(Pin::new(), seat, memory)
}

/// Goes to the tail.
pub fn walk_alone(seat: &mut SeatState, memory: &mut Plain) -> Tail
    requires { ∥ IsAlone MayWalk seat.old memory.old ∥₁ }
{
    drive(Walk::new(), seat, memory)
}

/// A seat that is to write takes a pin and goes to the tail before, so that its table is ready.
pub fn walk_before(seat: &mut SeatState, memory: &mut Plain, offset: u64) -> Tail
    requires { ∥ IsAlone (MayWrite offset) seat.old memory.old ∥₁ }
    ensures { ∥ IsAlone (MayWrite offset) seat.new memory.new ∥₁ }
{
    drive(Pin::new(), seat, memory);
    drive(Walk::new(), seat, memory)
}

/// Writes the bytes of the call, step by step.
pub fn write_by_steps(seat: &mut SeatState, memory: &mut Plain, offset: u64) -> Written
    requires { ∥ IsAlone (MayWrite offset) seat.old memory.old ∥₁ }
{
    drive(Write::new(Target::At { offset }), seat, memory)
}

/// The same, part by part.
pub fn write_by_parts(seat: &mut SeatState, memory: &mut Plain, offset: u64) -> Written
    requires { ∥ IsAlone (MayWrite offset) seat.old memory.old ∥₁ }
{
    Write::new(Target::At { offset }).run(seat, memory)
}

/// Does nothing: its contract says of words that they have 64 bits, which a contract over a list of numbers has to be told.
fn bound(words: &[u64])
    ensures { (place : ℕ) → slice_index words.now place < 2 ^ 64 }
{}
