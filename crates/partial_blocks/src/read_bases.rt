//! Reads the virtual blocks that a write touches in part.

ghost use Rattle.std.specs.Prelude.{◌≡◌};
ghost use Rattle.pmem_words.specs.Courses.{over};
ghost use Rattle.pmem_words.specs.Drives.{IsSafe, Ends};
ghost use Rattle.partial_blocks.specs.ReadingBases.{read_bases_script, bases_next, went_on, MayLook};

use crate::read_base::ReadBase;
use crate::touching::lacks_base;
use pmem_words::{Ask, Machine, Memory, SeatState, Turn, drive};

/// Reads the mapped virtual blocks that the bytes of the call touch in part and that the seat has not read: the first that they touch,
/// and then the last. It needs a valid pin, and a seat at its tail.
#[derive(Clone, Copy, Debug, PartialEq, Eq)]
pub struct ReadBases {
    /// The byte of the file at which the write begins.
    pub offset: u64,
    /// The block that is read.
    pub part: ReadBase,
}

impl ReadBases {
    /// Adds the next base that the call lacks, and is to read it; none where the call lacks none.
    pub fn begin(offset: u64, seat: &mut SeatState) -> Option<ReadBases>
        requires { MayLook offset seat.old }
        ensures { bases_next offset seat.old ≡ went_on result seat.new }
    {
        let virt = lacks_base(seat, offset)?;
        let block = seat.block(virt).unwrap_or(0);
        seat.add_base(virt);
        Some(ReadBases {
            offset,
            part: ReadBase::new(block),
        })
    }

    /// Drives it to its end, block by block: what it does is what `drive` of it does, in less time.
    pub fn run<W: Memory>(self, seat: &mut SeatState, memory: &mut W)
        requires { IsSafe read_bases_script (over read_bases_script W.store) self seat.old memory.old }
        ensures { Ends read_bases_script (over read_bases_script W.store) self seat.old memory.old result seat.new memory.new }
    {
        let mut reading = self;
        loop {
            drive(reading.part, seat, memory);
            match ReadBases::begin(reading.offset, seat) {
                Some(next) => reading = next,
                None => return,
            }
        }
    }
}

impl Machine for ReadBases {
    ghost use Rattle.partial_blocks.specs.ReadingBases.{read_bases_script, read_bases_lowers};

    type Out = ();

    ghost script = { read_bases_script };

    fn ask(&self, seat: &SeatState) -> Ask {
        self.part.ask(seat)
    }

    fn tell(&mut self, seat: &mut SeatState, answer: u64) -> Turn<()> {
        match self.part.tell(seat, answer) {
            Turn::Go => Turn::Go,
            Turn::Done(()) => match ReadBases::begin(self.offset, seat) {
                Some(next) => {
                    *self = next;
                    Turn::Go
                }
                None => Turn::Done(()),
            },
        }
    }

    ghost lowers = { read_bases_lowers };
}
