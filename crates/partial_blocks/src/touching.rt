//! Which virtual blocks the bytes of a call touch, and which of those that it touches in part it has not read.

ghost use Rattle.std.specs.Prelude.{◌≡◌, ◌<◌, ◌^◌, length};
ghost use Rattle.partial_blocks.specs.Touching.{IsInFile, first_touched, last_touched, touched_count, is_in_part, base_place, lacks, lacks_base};

use pmem_words::SeatState;

/// The first virtual block that the bytes of the call touch, where the first of them is byte `offset` of the file. They have to be
/// within the limit of a file, and one at least.
pub fn first_touched(seat: &SeatState, offset: u64) -> u16
    requires { IsInFile offset seat.now }
    ensures { result ≡ first_touched offset seat.now }
{
    (offset / u64::from(seat.geometry().block_bytes())) as u16
}

/// The last virtual block that they touch.
pub fn last_touched(seat: &SeatState, offset: u64) -> u16
    requires { IsInFile offset seat.now }
    ensures { result ≡ last_touched offset seat.now }
{
    let last = offset + seat.bytes().len() as u64 - 1;
    (last / u64::from(seat.geometry().block_bytes())) as u16
}

/// How many virtual blocks they touch, 1 to 65,536.
pub fn touched_count(seat: &SeatState, offset: u64) -> u32
    requires { IsInFile offset seat.now }
    ensures { result ≡ touched_count offset seat.now }
{
    u32::from(last_touched(seat, offset)) - u32::from(first_touched(seat, offset)) + 1
}

/// Whether a byte of this virtual block is none of the call's.
pub fn is_in_part(seat: &SeatState, offset: u64, virt: u16) -> bool
    requires { IsInFile offset seat.now }
    ensures { result ≡ is_in_part offset seat.now virt }
{
    let block_bytes = u64::from(seat.geometry().block_bytes());
    let start = u64::from(virt) * block_bytes;
    let end = offset + seat.bytes().len() as u64;
    !(offset <= start && start + block_bytes <= end)
}

/// The place of a virtual block among those whose bytes were read.
pub fn base_place(bases: &[u16], virt: u16) -> Option<usize>
    ensures { result ≡ base_place bases.now virt }
{
    for place in 0..bases.len() {
        if bases[place] == virt {
            return Some(place);
        }
    }
    None
}

/// Whether this virtual block is touched in part, is mapped, and was not read.
fn lacks(seat: &SeatState, offset: u64, virt: u16) -> bool
    requires { IsInFile offset seat.now }
    ensures { result ≡ lacks offset seat.now virt }
{
    is_in_part(seat, offset, virt)
        && seat.block(virt).is_some()
        && base_place(seat.bases(), virt).is_none()
}

/// The first virtual block that the bytes of the call touch, else the last, that is touched in part and mapped, and that was not read
/// or is to be read again since an entry that was taken in touches it. No other one can be touched in part.
pub fn lacks_base(seat: &SeatState, offset: u64) -> Option<u16>
    requires { IsInFile offset seat.now }
    ensures { result ≡ lacks_base offset seat.now }
{
    let first = first_touched(seat, offset);
    let last = last_touched(seat, offset);
    if lacks(seat, offset, first) {
        Some(first)
    } else if lacks(seat, offset, last) {
        Some(last)
    } else {
        None
    }
}
