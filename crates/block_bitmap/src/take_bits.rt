//! The bits of an area's blocks in one word of the bitmap.

ghost use Rattle.std.specs.Prelude.{◌≡◌, ℕ, ◌+◌, ◌-◌, ◌*◌, ◌/◌, ◌^◌, ◌<◌, ◌≤◌, length, min, take};
ghost use Rattle.log_entry.specs.Geometry.{count_of, first_of};
ghost use Rattle.pmem_words.specs.Seats.{owned_room};
ghost use Rattle.log_image.specs.Image.{shape_by};
ghost use Rattle.block_bitmap.specs.TakeBits.{blocks_in, bits_of, open_blocks};
ghost use Rattle.block_bitmap.specs.TakeScript.{with_taken_blocks};

use log_entry::{Area, Geometry};
use pmem_words::SeatState;

/// The word of the bitmap that comes `passed` words after the first one with a block of the area.
#[inline]
pub fn word_of(geometry: &Geometry, area: Area, passed: u16) -> u32
    ensures { result ≡ first_of geometry.now area / 64 + passed }
{
    geometry.first(area) / 64 + u32::from(passed)
}

/// The last word of the bitmap with a block of the area.
#[inline]
pub fn last_word(geometry: &Geometry, area: Area) -> u32
    ensures { result ≡ (first_of geometry.now area + count_of geometry.now area - 1) / 64 }
{
    (geometry.first(area) + geometry.count(area) - 1) / 64
}

/// The bits, in word `word` of the bitmap, of all blocks before `block`.
#[inline]
pub fn bits_below(word: u32, block: u32) -> u64
    ensures { result ≡ 2 ^ min (block - word * 64) 64 - 1 }
{
    let start = u64::from(word) * 64;
    let end = u64::from(block);
    if end <= start {
        0
    } else if end - start >= 64 {
        u64::MAX
    } else {
        (1u64 << (end - start)) - 1
    }
}

/// The bits, in word `word` of the bitmap, of the area's blocks that are not known to be taken.
#[inline]
pub fn open_bits(geometry: &Geometry, area: Area, word: u32, known: u64) -> u64
    ensures { blocks_in word result ≡ open_blocks (shape_by geometry.now) area word known }
{
    let first = geometry.first(area);
    let end = first + geometry.count(area);
    let bits = bits_below(word, end) - bits_below(word, first);
    bits & !known
}

/// The least `count` of these bits, or all where there are fewer.
pub fn least_bits(bits: u64, count: u16) -> u64
    ensures { (word : ℕ) → result ≡ bits_of (take count (blocks_in word bits)) }
{
    let mut rest = bits;
    let mut least = 0u64;
    let mut left = count;
    while rest != 0 && left != 0 {
        let bit = 1u64 << rest.trailing_zeros();
        least |= bit;
        rest &= !bit;
        left -= 1;
    }
    least
}

/// The seat owns the blocks of these bits of word `word` from now on, the least first. Answers how many they are. Their list
/// needs a free place for each.
pub fn own_blocks(seat: &mut SeatState, word: u32, bits: u64, area: Area) -> u16
    requires room { length seat.old.blocks.owned + length (blocks_in word bits) ≤ owned_room seat.old.geometry }
    requires inside { word < 1024 }
    ensures seat { seat.new ≡ with_taken_blocks area (blocks_in word bits) seat.old }
    ensures count { result ≡ length (blocks_in word bits) }
{
    let mut rest = bits;
    let mut count = 0u16;
    while rest != 0 {
        let place = rest.trailing_zeros();
        seat.own((word * 64 + place) as u16, area);
        rest &= !(1u64 << place);
        count += 1;
    }
    count
}
