//! A scan driven over a plain memory, where no other seat makes a step.

ghost use Rattle.std.specs.Prelude.{◌≡◌, ◌<◌, ◌≤◌};
ghost use Rattle.pmem_words.specs.declared.TheConstants.{SEATS};
ghost use Rattle.pins.specs.Steps.{with_seen};
ghost use Rattle.pins.specs.Endings.{IsScan, IsFirst, loads};

use crate::scan::{Scan, Scanned};
use pmem_words::{Plain, SeatState, drive};

/// Scans the pin words of the seats, 1 to 16 of them, for one that is not 0 and at most `generation`.
pub fn scan_alone(seat: &mut SeatState, memory: &mut Plain, generation: u32) -> Scanned
    requires some { 0 < seat.old.seats }
    requires few { seat.old.seats ≤ SEATS }
    ensures scan { IsScan generation seat.old.seats memory.old.pins result }
    ensures each { (other : Scanned) → IsScan generation seat.old.seats memory.old.pins other → result ≡ other }
    ensures seen { IsFirst (loads seat.old.seats result) memory.old.pins seat.new.giving.pins_seen }
    ensures seat { seat.new ≡ with_seen seat.old seat.new.giving.pins_seen }
    ensures memory { memory.new ≡ memory.old }
{
    drive(Scan::new(generation), seat, memory)
}
