//! What the blocks of a write hold: the bytes of the call where they lie, and elsewhere the bytes that are there.

ghost use Rattle.std.specs.Prelude.{◌≡◌, ◌+◌, ◌*◌, ◌<◌, Option, Some, length};
ghost use Rattle.std.specs.Option.{ForSome};
ghost use Rattle.pmem_words.specs.Seats.{q_of};
ghost use Rattle.partial_blocks.specs.Composing.{base_word, words_laid, place_composed, composed, MayComposePlace, MayLay, MayCompose};

use crate::bytes::laid_word;
use crate::touching::{base_place, first_touched, is_in_part, touched_count};
use pmem_words::SeatState;

/// A word of a virtual block as it was read, at this place among the bases; 0 where it has none.
fn base_word(seat: &SeatState, base: Option<usize>, word: u16) -> u64
    requires { ForSome base (λ place. place * q_of seat.now.geometry + word < length seat.now.calling.base_words) }
    ensures { result ≡ base_word seat.now base word }
{
    match base {
        Some(place) => seat.base_words()[place * seat.geometry().q() as usize + word as usize],
        None => 0,
    }
}

/// The owned block at this place becomes this virtual block with the bytes of the call laid over it, word by word.
fn lay_block(seat: &mut SeatState, offset: u64, place: u16, virt: u16)
    requires { MayLay offset place seat.old }
    ensures { seat.new ≡ words_laid offset place virt (q_of seat.old.geometry) seat.old }
{
    let base = base_place(seat.bases(), virt);
    let q = seat.geometry().q() as u16;
    let start = u64::from(virt) * u64::from(seat.geometry().block_bytes());
    for word in 0..q {
        let old = base_word(seat, base, word);
        let new = laid_word(old, start + 8 * u64::from(word), offset, seat.bytes());
        seat.set_word(place, word, new);
    }
}

/// The owned block at this place of their list becomes what the virtual block at this place among the touched ones is after the write:
/// the call's bytes where they lie in it, else the bytes that were read of it, or 0 where it is unmapped. The first of the call's bytes
/// is byte `offset` of the file. The block counts as neither filled nor fenced then.
pub fn compose_place(seat: &mut SeatState, offset: u64, place: u16)
    requires { MayComposePlace offset place seat.old }
    ensures { seat.new ≡ place_composed offset place seat.old }
{
    let virt = first_touched(seat, offset) + place;
    if is_in_part(seat, offset, virt) {
        lay_block(seat, offset, place, virt);
    } else {
        let start = u64::from(virt) * u64::from(seat.geometry().block_bytes());
        seat.set_block(place, (start - offset) as usize);
    }
}

/// So do the first owned blocks, one for each touched virtual block.
pub fn compose(seat: &mut SeatState, offset: u64)
    requires { MayCompose offset seat.old }
    ensures { seat.new ≡ composed offset seat.old }
{
    let count = touched_count(seat, offset) as u16;
    for place in 0..count {
        compose_place(seat, offset, place);
    }
}
