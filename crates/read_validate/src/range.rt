//! The bytes of a range, word by word.

ghost use Rattle.std.specs.Prelude.{◌≡◌, ◌+◌, ◌≤◌, length, replicate};
ghost use Rattle.pmem_words.specs.declared.TheConstants.{JOB_BYTES};
ghost use Rattle.read_validate.specs.Ranges.{IsInRange, rest_of, with_laid, zeros_laid};

use byteorder::{ByteOrder, LittleEndian};
use pmem_words::{Ask, Machine, Place, SeatState, Turn};

/// Loads the words of the mapped blocks of a range one after the other, and lays its bytes behind those that were laid: of an unmapped block zeros.
#[derive(Clone, Copy, Debug, PartialEq, Eq)]
pub struct ReadRange {
    /// The byte of the file that is read next. It is in a mapped block.
    pub place: u64,
    /// The first byte behind the range.
    pub end: u64,
    /// The word of the image that holds it.
    pub word: u32,
}

impl ReadRange {
    /// Begins a range that ends before `end` at this place: lays the zeros of unmapped blocks before the first mapped one. None where all are
    /// laid then.
    pub fn begin(seat: &mut SeatState, place: u64, end: u64) -> Option<ReadRange>
        requires { IsInRange end place seat.old }
        ensures rest { result ≡ rest_of end place seat.old }
        ensures seat { seat.new ≡ zeros_laid end place seat.old }
    {
        let next = next_mapped(seat, place, end);
        let until = match next {
            Some(range) => range.place,
            None => end,
        };
        lay_zeros(seat, until - place);
        next
    }
}

/// What is left of a range from a place on: the first byte of a mapped block before its end, with its word. None where there is none.
fn next_mapped(seat: &SeatState, place: u64, end: u64) -> Option<ReadRange>
    ensures { result ≡ rest_of end place seat.now }
{
    let block_bytes = u64::from(seat.geometry().block_bytes());
    let mut place = place;
    while place < end && place / block_bytes < 65_536 {
        let virt = place / block_bytes;
        if let Some(block) = seat.block(virt as u16) {
            let word = u32::from(block) * seat.geometry().q() + (place % block_bytes / 8) as u32;
            return Some(ReadRange { place, end, word });
        }
        place = (virt + 1) * block_bytes;
    }
    None
}

/// Lays so many zeros.
fn lay_zeros(seat: &mut SeatState, count: u64)
    requires { length seat.old.calling.bytes + count ≤ JOB_BYTES }
    ensures { seat.new ≡ with_laid (replicate count 0) seat.old }
{
    let mut left = count;
    while left > 0 {
        let some = left.min(64);
        lay_few(seat, some as usize);
        left -= some;
    }
}

/// Lays at most 64 zeros.
fn lay_few(seat: &mut SeatState, count: usize)
    requires few { count ≤ 64 }
    requires room { length seat.old.calling.bytes + count ≤ JOB_BYTES }
    ensures { seat.new ≡ with_laid (replicate count 0) seat.old }
{
    seat.lay_bytes(&[0; 64][..count]);
}

impl Machine for ReadRange {
    ghost use Rattle.read_validate.specs.Ranges.{range_script};
    ghost use Rattle.read_validate.specs.RangeLowering.{range_lowers};

    type Out = ();

    ghost script = { range_script };

    fn ask(&self, _seat: &SeatState) -> Ask {
        Ask::Load(Place::Image(self.word))
    }

    fn tell(&mut self, seat: &mut SeatState, answer: u64) -> Turn<()> {
        let mut lowest_first = [0; 8];
        LittleEndian::write_u64(&mut lowest_first, answer);
        let from = self.place % 8;
        let some = (8 - from).min(self.end - self.place);
        seat.lay_bytes(&lowest_first[from as usize..(from + some) as usize]);
        match ReadRange::begin(seat, self.place + some, self.end) {
            Some(next) => {
                *self = next;
                Turn::Go
            }
            None => Turn::Done(()),
        }
    }

    ghost lowers = { range_lowers };
}
