//! A look driven part by part.

ghost use Rattle.pmem_words.specs.Courses.{over};
ghost use Rattle.pmem_words.specs.Drives.{IsSafe, Ends, RanPart};
ghost use Rattle.read_validate.specs.Looking.{look_script};

use crate::joints::{seen, walked};
use crate::look::Look;
use crate::query::{Seen, Stage};
use log_blocks::Walk;
use pins::Unpin;
use pmem_words::{Memory, SeatState, Turn, drive};

impl Look {
    ghost use Rattle.std.specs.Prelude.{◌≡◌};
    ghost use Rattle.pmem_words.specs.declared.machine.Turn.TheVariants.{Go};
    ghost use Rattle.read_validate.specs.Looking.{at_stage};

    /// Drives the look to its end, each of its parts in a loop of its own: what it does is what `drive` of it does, in less time.
    pub fn run<W: Memory>(mut self, seat: &mut SeatState, memory: &mut W) -> Seen
        requires { IsSafe look_script (over look_script W.store) self seat.old memory.old }
        ensures { Ends look_script (over look_script W.store) self seat.old memory.old result seat.new memory.new }
    {
        loop {
            match self.run_part(seat, memory) {
                Turn::Go => {}
                Turn::Done(seen) => return seen,
            }
        }
    }

    /// Drives the present part to its end, and goes on to the next one or ends.
    fn run_part<W: Memory>(&mut self, seat: &mut SeatState, memory: &mut W) -> Turn<Seen>
        requires { IsSafe look_script (over look_script W.store) self.old seat.old memory.old }
        ensures { RanPart look_script (over look_script W.store) self.old seat.old memory.old result self.new seat.new memory.new }
    {
        match self.stage {
            Stage::Pinning(part) => {
                drive(part, seat, memory);
                self.go_on(Stage::Walking(Walk::new()))
            }
            Stage::Walking(part) => {
                drive(part, seat, memory);
                self.go_on(walked(self.query, seat))
            }
            Stage::Reading(part) => {
                drive(part, seat, memory);
                self.go_on(Stage::Unpinning(Unpin::new()))
            }
            Stage::Unpinning(part) => {
                drive(part, seat, memory);
                Turn::Done(seen(self.query, seat))
            }
        }
    }

    /// Goes on to this stage.
    fn go_on(&mut self, stage: Stage) -> Turn<Seen>
        ensures look { self.new ≡ at_stage self.old.query stage }
        ensures turn { result ≡ Go }
    {
        self.stage = stage;
        Turn::Go
    }
}
