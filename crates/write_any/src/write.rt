//! Writes at the tail of the log.

use crate::contents::last_block;
use crate::joints::{
    at_tail, grown, offered, taken, taken_log, taken_runs, unpinned, walked, written,
};
use crate::stage::{Stage, Target};
use log_blocks::{Grow, Walk};
use pins::Pin;
use pmem_words::{Ask, Machine, SeatState, Turn, Written};

/// Writes the bytes of the call, which fill whole blocks, from a block's first byte on. It pins and goes to the tail, takes and fills
/// a block for each virtual block that it touches, and puts an entry for them in at the tail; at a block's end it links a log block
/// first. Where another seat was faster it goes on to the new tail, with the blocks that it has, and tries there. It is refused at the
/// last position there is, or where a pass over the data or the log area finds too few free blocks. In the end it has no pin and owns
/// no block. There has to be 1 block at least, and no more than an entry has.
#[derive(Clone, Copy, Debug, PartialEq, Eq)]
pub struct Write {
    /// Where it begins.
    pub target: Target,
    /// Where it stands.
    pub stage: Stage,
}

impl Write {
    ghost use Rattle.std.specs.Prelude.{◌≡◌, ◌≢◌};
    ghost use Rattle.write_any.specs.declared.stage.Stage.TheVariants.{Filling};
    ghost use Rattle.write_any.specs.Writing.{write_of, write_script};

    /// A write that has not begun.
    pub fn new(target: Target) -> Write
        ensures { result ≡ write_of target }
    {
        Write {
            target,
            stage: Stage::Pinning(Pin::new()),
        }
    }

    /// Takes the answer to an ask of any part but the filling of the data blocks.
    #[inline(never)]
    fn tell_part(&mut self, seat: &mut SeatState, answer: u64) -> Turn<Written>
        requires part { (p : _) → self.old.stage ≢ Filling p }
        requires admits { write_script.admits self.old seat.old answer }
        ensures machine { self.new ≡ (write_script.after self.old seat.old answer).machine }
        ensures seat { seat.new ≡ (write_script.after self.old seat.old answer).seat }
        ensures turn { result ≡ (write_script.after self.old seat.old answer).turn }
    {
        match &mut self.stage {
            Stage::Pinning(part) => match part.tell(seat, answer) {
                Turn::Go => {}
                Turn::Done(_) => self.stage = Stage::Walking(Walk::new()),
            },
            Stage::Walking(part) => match part.tell(seat, answer) {
                Turn::Go => {}
                Turn::Done(_) => self.stage = walked(self.target, seat),
            },
            Stage::Taking(part) => match part.tell(seat, answer) {
                Turn::Go => {}
                Turn::Done(out) => self.stage = taken(self.target, out, seat),
            },
            Stage::TakingRuns(part) => match part.tell(seat, answer) {
                Turn::Go => {}
                Turn::Done(out) => self.stage = taken_runs(self.target, out, seat),
            },
            Stage::Filling(_) => {}
            Stage::TakingLog(part) => match part.tell(seat, answer) {
                Turn::Go => {}
                Turn::Done(out) => self.stage = taken_log(self.target, out, seat),
            },
            Stage::FillingLog(part) => match part.tell(seat, answer) {
                Turn::Go => {}
                Turn::Done(()) => self.stage = Stage::Growing(Grow::new(last_block(seat))),
            },
            Stage::Growing(part) => match part.tell(seat, answer) {
                Turn::Go => {}
                Turn::Done(out) => self.stage = grown(self.target, out, seat),
            },
            Stage::GivingLog(part) => match part.tell(seat, answer) {
                Turn::Go => {}
                Turn::Done(()) => self.stage = Stage::Walking(Walk::new()),
            },
            Stage::Offering(part) => match part.tell(seat, answer) {
                Turn::Go => {}
                Turn::Done(out) => self.stage = offered(out),
            },
            Stage::Unpinning(refusal, part) => match part.tell(seat, answer) {
                Turn::Go => {}
                Turn::Done(()) => match unpinned(*refusal, seat) {
                    Some(stage) => self.stage = stage,
                    None => return Turn::Done(written(self.target, *refusal, seat)),
                },
            },
            Stage::Giving(refusal, part) => match part.tell(seat, answer) {
                Turn::Go => {}
                Turn::Done(_) => return Turn::Done(written(self.target, *refusal, seat)),
            },
        }
        Turn::Go
    }
}

impl Machine for Write {
    ghost use Rattle.write_any.specs.Writing.{write_script, write_lowers};

    /// How it ended.
    type Out = Written;

    ghost script = { write_script };

    #[inline(always)]
    fn ask(&self, seat: &SeatState) -> Ask {
        match &self.stage {
            Stage::Pinning(part) => part.ask(seat),
            Stage::Walking(part) => part.ask(seat),
            Stage::Taking(part) | Stage::TakingRuns(part) | Stage::TakingLog(part) => part.ask(
                seat,
            ),
            Stage::Filling(part) | Stage::FillingLog(part) => part.ask(seat),
            Stage::Growing(part) => part.ask(seat),
            Stage::GivingLog(part) => part.ask(seat),
            Stage::Offering(part) => part.ask(seat),
            Stage::Unpinning(_, part) => part.ask(seat),
            Stage::Giving(_, part) => part.ask(seat),
        }
    }

    // most steps of a write fill its blocks: those stand here, and all others in a function of their own
    #[inline(always)]
    fn tell(&mut self, seat: &mut SeatState, answer: u64) -> Turn<Written> {
        match &mut self.stage {
            Stage::Filling(part) => match part.tell(seat, answer) {
                Turn::Go => {}
                Turn::Done(()) => self.stage = at_tail(self.target, seat),
            },
            _ => return self.tell_part(seat, answer),
        }
        Turn::Go
    }

    ghost lowers = { write_lowers };
}
