//! The words of an image as its bytes, each word as eight bytes, the lowest first.

ghost use Rattle.std.specs.Prelude.{◌≡◌, ◌%◌, ◌*◌, ◌<◌, ◌^◌, List, ℕ, length, IfOk};
ghost use Rattle.std.specs.List.{All};
ghost use Rattle.log_entry.specs.WordBytes.{word_bytes};

use byteorder::{ByteOrder, LittleEndian};
use std::alloc::{AllocError, Global};

/// Bytes of a word.
const WORD_LENGTH: usize = 8;

/// The bytes of words, eight for each. Only want of memory refuses them.
pub fn to_bytes(alloc: Global, words: &[u64]) -> Result<Vec<u8>, AllocError>
    ensures value { IfOk result (λ bytes. bytes.items ≡ word_bytes words.now) }
    ensures eight_each { IfOk result (λ bytes. length bytes.items ≡ 8 * length words.now) }
{
    let mut bytes = Vec::with_capacity(alloc, WORD_LENGTH * words.len())?;
    for word in words {
        let mut lowest_first = [0u8; WORD_LENGTH];
        LittleEndian::write_u64(&mut lowest_first, *word);
        bytes.extend_from_slice(&lowest_first)?;
    }
    Ok(bytes)
}

/// The words that these bytes are, of which there are eight for each word. Only want of memory refuses them.
pub fn of_bytes(alloc: Global, bytes: &[u8]) -> Result<Vec<u64>, AllocError>
    requires { length bytes.now % 8 ≡ 0 }
    ensures eight_each { IfOk result (λ words. 8 * length words.items ≡ length bytes.now) }
    ensures only { IfOk result (λ words. word_bytes words.items ≡ bytes.now) }
    ensures each { IfOk result (λ words. (other : List ℕ) → All (λ word. word < 2 ^ 64) other → word_bytes other ≡ bytes.now → words.items ≡ other) }
{
    let mut words = Vec::with_capacity(alloc, bytes.len() / WORD_LENGTH)?;
    for index in 0..bytes.len() / WORD_LENGTH {
        words.push(LittleEndian::read_u64(&bytes[WORD_LENGTH * index..]))?;
    }
    Ok(words)
}
