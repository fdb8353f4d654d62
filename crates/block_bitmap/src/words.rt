//! Words of owned blocks: where each stands in the image, and what it is to be.

ghost use Rattle.std.specs.Prelude.{◌≡◌, ◌<◌, length};
ghost use Rattle.block_bitmap.specs.OwnedWords.{owned_block_at, image_word, content_at, unfilled};

use pmem_words::SeatState;

/// The owned block at place `place` of their list; 0 past the list's end.
#[inline(always)]
pub fn owned_block_at(seat: &SeatState, place: u16) -> u16
    ensures { result ≡ owned_block_at seat.now place }
{
    match seat.owned().get(place as usize) {
        Some(owned) => owned.block,
        None => 0,
    }
}

/// The number of the image word that is word `word` of that block.
#[inline(always)]
pub fn image_word(seat: &SeatState, place: u16, word: u16) -> u32
    ensures { result ≡ image_word seat.now place word }
{
    u32::from(owned_block_at(seat, place)) * seat.geometry().q() + u32::from(word)
}

/// The word that belongs there, by the block's content; 0 past the contents' end.
#[inline(always)]
pub fn content_at(seat: &SeatState, place: u16, word: u16) -> u64
    ensures { result ≡ content_at seat.now place word }
{
    let at = place as usize * seat.geometry().q() as usize + word as usize;
    match seat.contents().get(at) {
        Some(content) => *content,
        None => 0,
    }
}

/// The block at this place counts as neither filled nor fenced: one of its words is stored.
#[inline(always)]
pub fn unfill(seat: &mut SeatState, place: u16)
    requires { place < length seat.old.blocks.owned }
    ensures { seat.new ≡ unfilled seat.old place }
{
    seat.set_filled(place, false);
    seat.set_fenced(place, false);
}
