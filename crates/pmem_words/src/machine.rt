//! A machine asks, and is told the answers.

ghost use Rattle.std.specs.Prelude.{◌≡◌};
ghost use Rattle.pmem_words.specs.Scripts.{Script, Lowers};
ghost use Rattle.pmem_words.specs.Courses.{over};
ghost use Rattle.pmem_words.specs.Drives.{IsSafe, Ends};

use crate::memory::Memory;
use crate::seat::SeatState;
use asks::Ask;

/// Whether a machine goes on after an answer, or has ended.
#[derive(Debug, Drop)]
pub enum Turn<Out> {
    Go,
    Done(Out),
}

/// A call or a part of one, step by step: it has one ask at a time, and each answer moves it on. All that it knows
/// stands in it and in its seat's state.
pub trait Machine {
    /// What it ends with.
    type Out;

    /// Its present ask; which answers it admits to that; the machine, the seat's state and the turn after each of them;
    /// and a measure.
    ghost script: { Script Self Self.Out };

    /// The present ask.
    fn ask(&self, seat: &SeatState) -> Ask
        ensures { result ≡ script.asks self.now seat.now };

    /// Takes the answer to the present ask, which it has to admit.
    fn tell(&mut self, seat: &mut SeatState, answer: u64) -> Turn<Self::Out>
        requires { script.admits self.old seat.old answer }
        ensures machine { self.new ≡ (script.after self.old seat.old answer).machine }
        ensures seat { seat.new ≡ (script.after self.old seat.old answer).seat }
        ensures turn { result ≡ (script.after self.old seat.old answer).turn };

    /// Each admitted answer after which the machine goes on lowers the measure.
    ghost lowers: { Lowers script };
}

/// Performs each ask of the machine and tells it the answer, until it ends. On the way this memory has to take each ask,
/// and the machine to admit each answer that this memory may give. What it ends with, the seat and the memory are those
/// of one such list of answers. It takes no memory.
pub fn drive<M: Machine + Drop, W: Memory>(
    machine: M,
    seat: &mut SeatState,
    memory: &mut W,
) -> M::Out
    requires { IsSafe M.script (over M.script W.store) machine seat.old memory.old }
    ensures { Ends M.script (over M.script W.store) machine seat.old memory.old result seat.new memory.new }
{
    let mut machine = machine;
    loop {
        let ask = machine.ask(seat);
        let answer = memory.perform(seat, ask);
        match machine.tell(seat, answer) {
            Turn::Go => {}
            Turn::Done(out) => return out,
        }
    }
}
