//! The bits of owned blocks in the words of the bitmap.

ghost use Rattle.std.specs.Prelude.{◌≡◌, ◌+◌, ◌%◌, ◌^◌, ◌<◌, length};
ghost use Rattle.block_bitmap.specs.GivenBits.{least_word, with_bit, bits_in};
ghost use Rattle.block_bitmap.specs.Giving.{next_word, given_seat};

use pmem_words::{OwnedBlock, SeatState};

/// The least word of the bitmap with the bit of one of these blocks; 0 where there is none.
pub fn least_word(owned: &[OwnedBlock]) -> u32
    ensures { result ≡ least_word owned.now }
{
    let Some(first) = owned.first() else {
        return 0;
    };
    let mut least = u32::from(first.block) / 64;
    for place in 1..owned.len() {
        least = least.min(u32::from(owned[place].block) / 64);
    }
    least
}

/// A block's bit in its word of the bitmap.
fn bit_of(block: u16) -> u64
    ensures { result ≡ 2 ^ (block % 64) }
{
    1u64 << (block % 64)
}

/// These bits of word `word` of the bitmap, and the block's where it is of that word.
fn with_bit(word: u32, block: u16, bits: u64) -> u64
    ensures { result ≡ with_bit word block bits }
{
    if u32::from(block) / 64 == word {
        bits | bit_of(block)
    } else {
        bits
    }
}

/// The bits of these blocks in word `word` of the bitmap.
pub fn bits_in(word: u32, owned: &[OwnedBlock]) -> u64
    ensures { result ≡ bits_in word owned.now }
{
    let mut bits = 0;
    for place in 0..owned.len() {
        bits = with_bit(word, owned[place].block, bits);
    }
    bits
}

/// The seat has cleared the bits of its owned blocks in the least word of the bitmap that has some: they leave its list and
/// its bits of blocks found taken. Answers how many they are.
pub fn give_word(seat: &mut SeatState) -> u32
    requires inside { next_word seat.old < length seat.old.blocks.found }
    requires few { length seat.old.blocks.owned < 2 ^ 32 }
    ensures seat { seat.new ≡ given_seat seat.old }
    ensures count { result + length seat.new.blocks.owned ≡ length seat.old.blocks.owned }
{
    let word = least_word(seat.owned());
    let bits = bits_in(word, seat.owned());
    let before = seat.owned().len();
    seat.disown_in_word(word, bits);
    seat.remove_found(word, bits);
    (before - seat.owned().len()) as u32
}
