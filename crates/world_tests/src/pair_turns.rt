//! Two seats, turn by turn, each in the middle of a machine of its own: one takes a pin while the other scans.

ghost use Rattle.std.specs.Prelude.{◌≡◌, ◌<◌, ◌≤◌, ◌+◌, ℕ, length, IfOk};
ghost use Rattle.log_core.specs.Within.{no_record};
ghost use Rattle.log_core.specs.Origin.{Origin};
ghost use Rattle.log_core.specs.Views.{View};
ghost use Rattle.pmem_words.specs.Seats.{Seat};
ghost use Rattle.crash_model.specs.Worlds.{seat_of};
ghost use Rattle.crash_model.specs.Led.{Rests, Runs, IsAmong, IsResting, HasLeft};
ghost use Rattle.pmem_words.specs.declared.machine.Turn.TheVariants.{Go, Done};
ghost use Rattle.pins.specs.Pinning.{pin_script};
ghost use Rattle.pins.specs.Scanning.{scan_script};
ghost use Rattle.world_tests.specs.PinSeats.{MayTurn, MayLook};

use crate::Unfinished;
use crash_model::World;
use log_entry::Head;
use pins::{Pin, Scan, Scanned};
use pmem_words::{Machine, Turn};

/// What each other seat is in the middle of, as a value.
pub trait Beside {
    /// What holds of a seat, its state and its view.
    ghost holds: { Self → Origin → ℕ → Seat → View → Type 0 };
}

impl Beside for Pin {
    ghost holds = { λ m. Runs pin_script no_record (λ out t v. HasLeft out t v) m };
}

impl Beside for Scan {
    ghost holds = { λ m. Runs scan_script no_record (λ out t v. HasLeft out t v) m };
}

/// Each other seat is at rest.
#[derive(Clone, Copy, Debug)]
pub struct Resting;

impl Beside for Resting {
    ghost holds = { λ m. Rests };
}

/// One turn of a seat that is in the middle of a machine. What holds of the other seats stays.
pub fn turn_among<M: Machine, B: Beside>(
    world: &mut World,
    seat: u8,
    machine: &mut M,
    beside: &B,
) -> Turn<M::Out>
    requires room { 0 < world.old.cells.room }
    requires one { (m : _) (s : Seat) (a : ℕ) → IsProp (M.script.admits m s a) }
    requires led { IsAmong (B.holds beside.now) seat (Runs M.script no_record (λ out t v. HasLeft out t v) machine.old) world.old }
    ensures many { length world.new.seats ≡ length world.old.seats }
    ensures room { world.new.cells.room + 1 ≡ world.old.cells.room }
    ensures go { result ≡ Go → IsAmong (B.holds beside.now) seat (Runs M.script no_record (λ out t v. HasLeft out t v) machine.new) world.new }
    ensures done { (out : _) → result ≡ Done out → IsAmong (B.holds beside.now) seat Rests world.new }
{
    world.turn(seat, machine)
}

/// Takes a pin at seat 0 in three turns, and between them scans at seat 1 in two.
pub fn pin_and_scan(world: &mut World) -> Result<(Head, Scanned), Unfinished>
    requires room { 5 ≤ world.old.cells.room }
    requires many { length world.old.seats ≡ 2 }
    requires resting { IsResting world.old }
    requires may { MayTurn 0 (seat_of world.old 0) }
    requires look { MayLook 1 2 (seat_of world.old 1) }
    ensures resting { IfOk result (λ _. IsResting world.new) }
    ensures many { IfOk result (λ _. length world.new.seats ≡ 2) }
    ensures room { IfOk result (λ _. world.new.cells.room + 5 ≡ world.old.cells.room) }
{
    let mut pin = Pin::new();
    let mut scan = Scan::new(1);
    let Turn::Go = turn_among(world, 0, &mut pin, &scan) else {
        return Err(Unfinished);
    };
    let Turn::Go = turn_among(world, 1, &mut scan, &pin) else {
        return Err(Unfinished);
    };
    let Turn::Go = turn_among(world, 0, &mut pin, &scan) else {
        return Err(Unfinished);
    };
    let Turn::Done(found) = turn_among(world, 1, &mut scan, &pin) else {
        return Err(Unfinished);
    };
    let Turn::Done(head) = turn_among(world, 0, &mut pin, &Resting) else {
        return Err(Unfinished);
    };
    Ok((head, found))
}
