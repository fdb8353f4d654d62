//! Opening an image: all conditions on it, or what it holds.

ghost use Rattle.std.specs.Prelude.{◌≡◌, ◌<◌, ◌*◌, ◌^◌, ◌++◌, ℕ, length, slice_index};
ghost use Rattle.log_entry.specs.WordBytes.{word_bytes};
ghost use Rattle.log_image.specs.Header.{shape_of};
ghost use Rattle.log_image.specs.Tails.{tail_of};
ghost use Rattle.recovery.specs.Openings.{as_tail};
ghost use Rattle.recovery.specs.OpenAnswers.{OpensWords, OpensBytes};
ghost use Rattle.recovery.specs.Passing.{PassesConditions};

use crate::tails::{Tail, tail_in};
use crate::opened::Opened;
use crate::passing::{Passed, pass};
use crate::reading::Reading;
use crate::refusals::OpenRefusal;
use chain_reader::block_at;
use log_entry::layouts::HEAD_GENERATION;
use log_entry::{Geometry, of_bytes};
use std::alloc::Global;

/// Bytes of a word.
const WORD_LENGTH: usize = 8;

/// Opens an image of these words, or refuses it for the first condition of the format that holds. Besides that only want of
/// memory refuses it: for the map, the bitmap and the chain's blocks, and no more for the words.
pub fn open_words(alloc: Global, words: Vec<u64>) -> Result<Opened, OpenRefusal>
    ensures { OpensWords result words.items }
{
    match pass(alloc, 8 * words.len() as u64, &words) {
        Err(refusal) => Err(refusal),
        Ok(passed) => Ok(opened_by(words, passed)),
    }
}

/// Opens an image of these bytes, or refuses it for the first condition of the format that holds. Besides that only want of
/// memory refuses it: for the words, the map, the bitmap and the chain's blocks.
pub fn open_bytes(alloc: Global, bytes: &[u8]) -> Result<Opened, OpenRefusal>
    ensures { OpensBytes result bytes.now }
{
    let whole = WORD_LENGTH * (bytes.len() / WORD_LENGTH);
    let Ok(words) = of_bytes(alloc, &bytes[..whole]) else {
        return Err(OpenRefusal::NoMemory);
    };
    open_words_with_rest(alloc, words, &bytes[whole..])
}

/// Opens an image of the bytes that these words are, eight for each, the lowest first, and of fewer than 8 bytes after them; or
/// refuses it for the first condition of the format that holds. Besides that only want of memory refuses it: for the map, the
/// bitmap and the chain's blocks, and no more for the words.
pub fn open_words_with_rest(
    alloc: Global,
    words: Vec<u64>,
    rest: &[u8],
) -> Result<Opened, OpenRefusal>
    requires { length rest.now < 8 }
    ensures { OpensBytes result (word_bytes words.items ++ rest.now) }
{
    note_range(&words);
    let bytes = WORD_LENGTH * words.len() + rest.len();
    match pass(alloc, bytes as u64, &words) {
        Err(refusal) => Err(refusal),
        Ok(passed) => Ok(opened_by(words, passed)),
    }
}

/// Says of words what their type says, for the clause of `open_words_with_rest`.
fn note_range(words: &[u64])
    ensures { (index : ℕ) → slice_index words.now index < 2 ^ 64 }
{
    let _count = words.len();
}

/// The opened image of these words, of which no condition holds.
fn opened_by(words: Vec<u64>, passed: Passed) -> Opened
    requires { PassesConditions (8 * length words.items) words.items passed.geometry passed.reading }
    ensures { result.words ≡ words }
{
    let Passed { geometry, reading } = passed;
    let generation = HEAD_GENERATION.of(words[3]) as u32;
    let tail = end_tail(&words, geometry, &reading);
    let size = reading.table.size();
    let position = reading.position;
    Opened::new(
        geometry,
        words,
        reading.into_taken(),
        generation,
        position,
        size,
        tail,
    )
}

/// The tail that the chain of an image ends with of which no condition holds.
fn end_tail(words: &[u64], geometry: Geometry, reading: &Reading) -> Tail
    requires { PassesConditions (8 * length words.now) words.now geometry reading.now }
    ensures { as_tail result ≡ tail_of words.now (shape_of words.now) reading.now.chain.items }
{
    let last = reading.chain[reading.chain.len() - 1];
    tail_in(last, block_at(words, geometry, u64::from(last)))
}
