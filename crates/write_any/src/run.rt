//! A write driven part by part.

ghost use Rattle.pmem_words.specs.Courses.{over};
ghost use Rattle.pmem_words.specs.Drives.{IsSafe, Ends, RanPart};
ghost use Rattle.write_any.specs.Writing.{write_script};

use crate::contents::last_block;
use crate::joints::{
    at_tail, grown, offered, taken, taken_log, taken_runs, unpinned, walked, written,
};
use crate::stage::Stage;
use crate::write::Write;
use log_blocks::{Grow, Walk};
use pmem_words::{Memory, SeatState, Turn, Written, drive};

impl Write {
    ghost use Rattle.std.specs.Prelude.{◌≡◌};
    ghost use Rattle.pmem_words.specs.declared.machine.Turn.TheVariants.{Go};
    ghost use Rattle.write_any.specs.Writing.{at_stage};

    /// Drives the write to its end, each of its parts in a loop of its own: what it does is what `drive` of it does, in less time.
    pub fn run<W: Memory>(mut self, seat: &mut SeatState, memory: &mut W) -> Written
        requires { IsSafe write_script (over write_script W.store) self seat.old memory.old }
        ensures { Ends write_script (over write_script W.store) self seat.old memory.old result seat.new memory.new }
    {
        loop {
            match self.run_part(seat, memory) {
                Turn::Go => {}
                Turn::Done(written) => return written,
            }
        }
    }

    /// Drives the present part to its end, and goes on to the next one or ends.
    fn run_part<W: Memory>(&mut self, seat: &mut SeatState, memory: &mut W) -> Turn<Written>
        requires { IsSafe write_script (over write_script W.store) self.old seat.old memory.old }
        ensures { RanPart write_script (over write_script W.store) self.old seat.old memory.old result self.new seat.new memory.new }
    {
        match self.stage {
            Stage::Pinning(part) => {
                drive(part, seat, memory);
                self.go_on(Stage::Walking(Walk::new()))
            }
            Stage::Walking(part) => {
                drive(part, seat, memory);
                self.go_on(walked(self.target, seat))
            }
            Stage::Taking(part) => {
                let out = drive(part, seat, memory);
                self.go_on(taken(self.target, out, seat))
            }
            Stage::TakingRuns(part) => {
                let out = drive(part, seat, memory);
                self.go_on(taken_runs(self.target, out, seat))
            }
            Stage::Filling(part) => {
                drive(part, seat, memory);
                self.go_on(at_tail(self.target, seat))
            }
            Stage::TakingLog(part) => {
                let out = drive(part, seat, memory);
                self.go_on(taken_log(self.target, out, seat))
            }
            Stage::FillingLog(part) => {
                drive(part, seat, memory);
                self.go_on(Stage::Growing(Grow::new(last_block(seat))))
            }
            Stage::Growing(part) => {
                let out = drive(part, seat, memory);
                self.go_on(grown(self.target, out, seat))
            }
            Stage::GivingLog(part) => {
                drive(part, seat, memory);
                self.go_on(Stage::Walking(Walk::new()))
            }
            Stage::Offering(part) => {
                let out = drive(part, seat, memory);
                self.go_on(offered(out))
            }
            Stage::Unpinning(refusal, part) => {
                drive(part, seat, memory);
                match unpinned(refusal, seat) {
                    Some(stage) => self.go_on(stage),
                    None => Turn::Done(written(self.target, refusal, seat)),
                }
            }
            Stage::Giving(refusal, part) => {
                drive(part, seat, memory);
                Turn::Done(written(self.target, refusal, seat))
            }
        }
    }

    /// Goes on to this stage.
    fn go_on(&mut self, stage: Stage) -> Turn<Written>
        ensures write { self.new ≡ at_stage self.old.target stage }
        ensures turn { result ≡ Go }
    {
        self.stage = stage;
        Turn::Go
    }
}
