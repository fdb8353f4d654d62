//! Reading all of a source into words, without a list of its bytes.

ghost use Rattle.std.specs.Prelude.{◌≡◌, ◌+◌, ◌*◌, ◌%◌, ◌<◌, ◌≤◌, ◌++◌, [], length, take, drop, vec_len, IfOk, IfErr, OnOk};
ghost use Rattle.io_ends.specs.Faults.{ReadCounts, ReadAllFaults};
ghost use Rattle.io_ends.specs.Taking.{IsGivenCount, ReadTakes, ReadAllTakes, TakesAll};
ghost use Rattle.log_entry.specs.WordBytes.{word_bytes};

use byteorder::{ByteOrder, LittleEndian};
use io_ends::{Got, ReadAll, Source};
use std::alloc::{AllocError, Global};

/// Bytes of a word.
const WORD_LENGTH: usize = 8;

// The most bytes that one read is asked for.
const PIECE: usize = 65536;

/// The bytes of a source: whole words of eight bytes each, the lowest first, and the bytes after them.
#[derive(Drop)]
pub struct WordsRead {
    /// The whole words.
    pub words: Vec<u64>,
    /// The bytes after the last whole word, fewer than 8.
    pub rest: Vec<u8>,
}

/// All the bytes that `source` has left, as words, if they are at most `limit` bytes.
///
/// Reads until the end. It stops at the first read that fails, with `ReadFault`; as soon as the
/// source gave `limit` + 1 bytes, with `TooLong`; and where the words find no room, with `NoMemory`.
pub fn read_words<S: Source>(
    alloc: Global,
    source: &mut S,
    limit: usize,
) -> Result<WordsRead, ReadAll>
    ensures few { IfOk result (λ read. vec_len read.rest < 8) }
    ensures fits { IfOk result (λ read. 8 * vec_len read.words + vec_len read.rest ≤ limit) }
    ensures all { IfOk result (λ read. TakesAll (S.left source.old) (S.left source.new) (word_bytes read.words.items ++ read.rest.items)) }
    ensures part { IfErr result (λ cause. ReadAllTakes cause (S.left source.old) (S.left source.new) limit) }
    ensures cause { ReadAllFaults S.exact result (S.faults source.old) (S.faults source.new) }
    ensures later { S.faults source.old ≤ S.faults source.new }
{
    let Ok(mut rest) = zeros(alloc, WORD_LENGTH + PIECE) else {
        return Err(ReadAll::NoMemory);
    };
    let mut words = Vec::new(alloc);
    match read_through(source, limit, &mut words, &mut rest) {
        Ok(left) => {
            rest.truncate(left);
            Ok(WordsRead { words, rest })
        }
        Err(cause) => Err(cause),
    }
}

// Reads a source to its end, through a buffer of a word and a piece: adds the whole words to `words`,
// of which there are none yet, and leaves the bytes after them at the front of the buffer. Says how
// many those are.
fn read_through<S: Source>(
    source: &mut S,
    limit: usize,
    words: &mut Vec<u64>,
    buffer: &mut [u8],
) -> Result<usize, ReadAll>
    requires empty { words.old.items ≡ [] }
    requires room { length buffer.old ≡ 8 + PIECE }
    ensures few { IfOk result (λ left. left < 8) }
    ensures fits { IfOk result (λ left. 8 * vec_len words.new + left ≤ limit) }
    ensures all { IfOk result (λ left. TakesAll (S.left source.old) (S.left source.new) (word_bytes words.new.items ++ take left buffer.new)) }
    ensures part { IfErr result (λ cause. ReadAllTakes cause (S.left source.old) (S.left source.new) limit) }
    ensures cause { ReadAllFaults S.exact result (S.faults source.old) (S.faults source.new) }
    ensures later { S.faults source.old ≤ S.faults source.new }
{
    let mut kept = 0;
    loop {
        let room = limit - (WORD_LENGTH * words.len() + kept);
        match read_behind(source, buffer, kept, one_more(room)) {
            Got::Bytes(count) => {
                if count > room {
                    return Err(ReadAll::TooLong);
                }
                kept = match move_words(words, buffer, kept + count) {
                    Ok(left) => left,
                    Err(_) => return Err(ReadAll::NoMemory),
                };
            }
            Got::End => return Ok(kept),
            Got::Failed => return Err(ReadAll::ReadFault),
        }
    }
}

// Reads at most `most` bytes into a buffer, behind its first `kept` ones.
fn read_behind<S: Source>(source: &mut S, buffer: &mut [u8], kept: usize, most: usize) -> Got
    requires some { 0 < most }
    requires inside { kept + most ≤ length buffer.old }
    ensures count { IsGivenCount result most }
    ensures bytes { ReadTakes result (S.left source.old) (S.left source.new) (drop kept buffer.new) }
    ensures front { take kept buffer.new ≡ take kept buffer.old }
    ensures cause { ReadCounts S.exact result (S.faults source.old) (S.faults source.new) }
    ensures later { S.faults source.old ≤ S.faults source.new }
{
    source.read(&mut buffer[kept..kept + most])
}

// Moves the whole words of the first `filled` bytes of `buffer` to the end of `words`, and the bytes
// after them to the front of `buffer`. Says how many those are. Only want of memory refuses it.
fn move_words(words: &mut Vec<u64>, buffer: &mut [u8], filled: usize) -> Result<usize, AllocError>
    requires { filled ≤ length buffer.old }
    ensures few { IfOk result (λ left. left < 8) }
    ensures count { IfOk result (λ left. 8 * vec_len words.new + left ≡ 8 * vec_len words.old + filled) }
    ensures same { IfOk result (λ left. word_bytes words.new.items ++ take left buffer.new ≡ word_bytes words.old.items ++ take filled buffer.old) }
{
    let whole = filled / WORD_LENGTH * WORD_LENGTH;
    push_words(words, &buffer[..whole])?;
    buffer.copy_within(whole..filled, 0);
    Ok(filled - whole)
}

// Adds the words of these bytes, of which there are eight for each word. Only want of memory refuses
// them.
fn push_words(words: &mut Vec<u64>, bytes: &[u8]) -> Result<(), AllocError>
    requires { length bytes.now % 8 ≡ 0 }
    ensures count { OnOk result (8 * vec_len words.new ≡ 8 * vec_len words.old + length bytes.now) }
    ensures same { OnOk result (word_bytes words.new.items ≡ word_bytes words.old.items ++ bytes.now) }
{
    let before = words.len();
    words.resize(before + bytes.len() / WORD_LENGTH, 0)?;
    LittleEndian::read_u64_into(bytes, &mut words[before..]);
    Ok(())
}

// `count` bytes, each of them 0.
fn zeros(alloc: Global, count: usize) -> Result<Vec<u8>, AllocError>
    ensures { IfOk result (λ bytes. vec_len bytes ≡ count) }
{
    vec![in alloc; 0u8; count]
}

// How many bytes to ask for where `room` are allowed: one more, so that an excess shows, and at most
// a piece.
fn one_more(room: usize) -> usize
    ensures some { 0 < result }
    ensures piece { result ≤ PIECE }
    ensures excess { result ≤ room + 1 }
{
    room.min(PIECE - 1) + 1
}
