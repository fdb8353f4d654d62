//! Changes of lists that have room for what they get. They take no memory.

ghost use Rattle.std.specs.Prelude.{◌≡◌, ◌+◌, ◌*◌, ◌<◌, ◌≤◌, ◌^◌, ◌++◌, length, replicate, vec_len, vec_capacity};
ghost use Rattle.std.specs.List.{remove_range};
ghost use Rattle.pmem_words.specs.ByteWords.{words_set};

use byteorder::{ByteOrder, LittleEndian};

/// Adds these values at the end. The list needs room for them.
pub fn append<T: Copy>(list: &mut Vec<T>, values: &[T])
    requires { vec_len list.old + length values.now ≤ vec_capacity list.old }
    ensures items { list.new.items ≡ list.old.items ++ values.now }
    ensures len { vec_len list.new ≡ vec_len list.old + length values.now }
    ensures room { vec_capacity list.old ≤ vec_capacity list.new }
{
    match list.extend_from_slice(values) {
        Ok(()) => {}
        Err(_) => unreachable!(),
    }
}

/// Adds `count` words 0 at the end. The list needs room for them.
pub fn append_zeros(words: &mut Vec<u64>, count: usize)
    requires { vec_len words.old + count ≤ vec_capacity words.old }
    ensures items { words.new.items ≡ words.old.items ++ replicate count 0 }
    ensures len { vec_len words.new ≡ vec_len words.old + count }
    ensures room { vec_capacity words.old ≤ vec_capacity words.new }
{
    let len = words.len() + count;
    match words.resize(len, 0) {
        Ok(()) => {}
        Err(_) => unreachable!(),
    }
}

/// Makes the words from place `start` on, `count` of them, what these bytes are: eight for each, the lowest first.
pub fn set_words(words: &mut [u64], start: usize, count: usize, bytes: &[u8])
    requires words { start + count ≤ length words.old }
    requires bytes { 8 * count ≤ length bytes.now }
    ensures { words.new ≡ words_set bytes.now words.old start count }
{
    for word in 0..count {
        words[start + word] = LittleEndian::read_u64(&bytes[8 * word..]);
    }
}

/// Removes the words from place `start` on, `count` of them where there are so many.
pub fn remove_words(words: &mut Vec<u64>, start: usize, count: usize)
    requires { start + count < 2 ^ 64 }
    ensures items { words.new.items ≡ remove_range words.old.items start (start + count) }
    ensures len { start + count ≤ vec_len words.old → vec_len words.new + count ≡ vec_len words.old }
    ensures room { vec_capacity words.old ≤ vec_capacity words.new }
{
    let end = start + count;
    if words.len() <= end {
        words.truncate(start);
    } else {
        words.drain(start..end);
    }
}
