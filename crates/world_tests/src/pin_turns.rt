//! Pins at the seats of a world: taken, given up and scanned for, by turns.

ghost use Rattle.std.specs.Prelude.{◌≡◌, ◌≢◌, ◌<◌, ◌≤◌, ◌+◌, ℕ, length, IfOk};
ghost use Rattle.log_core.specs.Within.{no_record};
ghost use Rattle.crash_model.specs.Worlds.{seat_of};
ghost use Rattle.crash_model.specs.Led.{IsResting, IsLed, HasLeft, IsTurnOf};
ghost use Rattle.pmem_words.specs.declared.machine.Turn.TheVariants.{Go, Done};
ghost use Rattle.pins.specs.Pinning.{pin_script};
ghost use Rattle.pins.specs.Scanning.{scan_script};
ghost use Rattle.world_tests.specs.PinSeats.{MayTurn, MayLook};

use crate::Unfinished;
use crash_model::World;
use log_entry::Head;
use pins::{Pin, Scan, Scanned, Unpin};
use pmem_words::Turn;

/// One turn of a seat that takes a pin.
pub fn turn_pin(world: &mut World, seat: u8, pin: &mut Pin) -> Turn<Head>
    requires room { 0 < world.old.cells.room }
    requires led { IsLed seat pin_script no_record (λ out t v. HasLeft out t v) pin.old world.old }
    ensures keeps { IsTurnOf MayTurn world.old world.new seat }
    ensures go { result ≡ Go → IsLed seat pin_script no_record (λ out t v. HasLeft out t v) pin.new world.new }
    ensures done { (head : Head) → result ≡ Done head → IsResting world.new }
{
    world.turn(seat, pin)
}

/// Takes a pin in three turns.
pub fn pin_in(world: &mut World, seat: u8) -> Result<Head, Unfinished>
    requires room { 3 ≤ world.old.cells.room }
    requires inside { seat < length world.old.seats }
    requires resting { IsResting world.old }
    requires may { MayTurn seat (seat_of world.old seat) }
    ensures resting { IfOk result (λ _. IsResting world.new) }
    ensures may { IfOk result (λ _. MayTurn seat (seat_of world.new seat)) }
    ensures others { IfOk result (λ _. (other : ℕ) → other ≢ seat → seat_of world.new other ≡ seat_of world.old other) }
    ensures many { IfOk result (λ _. length world.new.seats ≡ length world.old.seats) }
    ensures room { IfOk result (λ _. world.new.cells.room + 3 ≡ world.old.cells.room) }
{
    let mut pin = Pin::new();
    let Turn::Go = turn_pin(world, seat, &mut pin) else {
        return Err(Unfinished);
    };
    let Turn::Go = turn_pin(world, seat, &mut pin) else {
        return Err(Unfinished);
    };
    match turn_pin(world, seat, &mut pin) {
        Turn::Go => Err(Unfinished),
        Turn::Done(head) => Ok(head),
    }
}

/// Gives a pin up in one turn.
pub fn unpin_in(world: &mut World, seat: u8)
    requires room { 1 ≤ world.old.cells.room }
    requires inside { seat < length world.old.seats }
    requires resting { IsResting world.old }
    requires may { MayTurn seat (seat_of world.old seat) }
    ensures resting { IsResting world.new }
    ensures keeps { IsTurnOf MayTurn world.old world.new seat }
{
    let mut unpin = Unpin::new();
    world.turn(seat, &mut unpin);
}

/// One turn of a seat that scans.
pub fn turn_scan(world: &mut World, seat: u8, scan: &mut Scan) -> Turn<Scanned>
    requires room { 0 < world.old.cells.room }
    requires led { IsLed seat scan_script no_record (λ out t v. HasLeft out t v) scan.old world.old }
    ensures keeps { IsTurnOf MayTurn world.old world.new seat }
    ensures look { (seats : ℕ) → MayLook seat seats (seat_of world.old seat) → MayLook seat seats (seat_of world.new seat) }
    ensures go { result ≡ Go → IsLed seat scan_script no_record (λ out t v. HasLeft out t v) scan.new world.new }
    ensures done { (out : Scanned) → result ≡ Done out → IsResting world.new }
{
    world.turn(seat, scan)
}

/// Scans the pins of two seats.
pub fn scan_in(world: &mut World, seat: u8, generation: u32) -> Result<Scanned, Unfinished>
    requires room { 2 ≤ world.old.cells.room }
    requires inside { seat < length world.old.seats }
    requires resting { IsResting world.old }
    requires may { MayLook seat (length world.old.seats) (seat_of world.old seat) }
    ensures resting { IfOk result (λ _. IsResting world.new) }
    ensures may { IfOk result (λ _. MayLook seat (length world.new.seats) (seat_of world.new seat)) }
    ensures others { IfOk result (λ _. (other : ℕ) → other ≢ seat → seat_of world.new other ≡ seat_of world.old other) }
    ensures many { IfOk result (λ _. length world.new.seats ≡ length world.old.seats) }
    ensures room { IfOk result (λ _. world.old.cells.room ≤ world.new.cells.room + 2) }
{
    let mut scan = Scan::new(generation);
    if let Turn::Done(out) = turn_scan(world, seat, &mut scan) {
        return Ok(out);
    }
    match turn_scan(world, seat, &mut scan) {
        Turn::Go => Err(Unfinished),
        Turn::Done(out) => Ok(out),
    }
}
