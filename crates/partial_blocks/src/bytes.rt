//! Bytes laid over a word.

ghost use Rattle.std.specs.Prelude.{◌≡◌, ℕ, ◌+◌, ◌^◌, ◌<◌, ◌≤◌, length, slice_index};
ghost use Rattle.partial_blocks.specs.Bytes.{laid_byte, laid_word};

use byteorder::{ByteOrder, LittleEndian};

/// A word whose first byte has this place in the file, after bytes are laid over it from byte `offset` of the file on.
pub fn laid_word(word: u64, place: u64, offset: u64, bytes: &[u8]) -> u64
    requires near { place + 8 < 2 ^ 63 }
    requires few { offset + length bytes.now < 2 ^ 63 }
    ensures { result ≡ laid_word offset bytes.now place word }
{
    let end = offset + bytes.len() as u64;
    if offset <= place && place + 8 <= end {
        return whole_word(bytes, place, offset, word);
    }
    if end <= place || place + 8 <= offset {
        return word;
    }
    part_word(word, place, offset, bytes)
}

/// The word where bytes are laid over all of it.
fn whole_word(bytes: &[u8], place: u64, offset: u64, word: u64) -> u64
    requires from { offset ≤ place }
    requires inside { place + 8 ≤ offset + length bytes.now }
    ensures { result ≡ laid_word offset bytes.now place word }
{
    let at = (place - offset) as usize;
    LittleEndian::read_u64(&bytes[at..])
}

/// A word over which bytes are laid that reach into it.
fn part_word(word: u64, place: u64, offset: u64, bytes: &[u8]) -> u64
    requires near { place + 8 < 2 ^ 63 }
    requires few { offset + length bytes.now < 2 ^ 63 }
    ensures { result ≡ laid_word offset bytes.now place word }
{
    let mut lowest_first = [0u8; 8];
    LittleEndian::write_u64(&mut lowest_first, word);
    lay_part(&mut lowest_first, place, offset, bytes);
    LittleEndian::read_u64(&lowest_first)
}

/// Lays the bytes that reach into it over some bytes from a place on.
fn lay_part(into: &mut [u8], place: u64, offset: u64, bytes: &[u8])
    requires near { place + length into.old < 2 ^ 63 }
    requires few { offset + length bytes.now < 2 ^ 63 }
    ensures { (k : ℕ) → k < length into.old → slice_index into.new k ≡ laid_byte offset bytes.now (place + k) (slice_index into.old k) }
{
    let end = offset + bytes.len() as u64;
    for k in 0..into.len() {
        let at = place + k as u64;
        if offset <= at && at < end {
            into[k] = bytes[(at - offset) as usize];
        }
    }
}
