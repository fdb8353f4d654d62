//! New content of blocks: the bytes that are there, with others laid over them.

ghost use Rattle.std.specs.Prelude.{◌≡◌, ◌≢◌, ℕ, ◌+◌, ◌-◌, ◌*◌, ◌^◌, ◌<◌, ◌≤◌, ◌⊎◌, ◌++◌, drop, length, slice_index, Option, Some, None, option_map};
ghost use Rattle.std.specs.Option.{ForSome};
ghost use Rattle.block_table.specs.FileMap.{block_at};
ghost use Rattle.block_table.specs.declared.TheConstants.{VIRTUAL_BLOCKS};
ghost use Rattle.log_image.specs.Image.{words_in, total, block_words, block_content, shape_by};
ghost use Rattle.plain_engine.specs.Bytes.{byte_of, laid_byte, present_byte, source_word, IsLaid};

use block_table::{MapRun, Table};
use byteorder::{ByteOrder, LittleEndian};
use log_entry::Geometry;

/// Stores the blocks of a run: what its virtual blocks hold at present, with bytes laid over it from an offset on.
pub fn store_run(
    words: &mut [u64],
    table: &Table,
    geometry: Geometry,
    run: MapRun,
    offset: u64,
    bytes: &[u8],
)
    requires whole { length words.old ≡ total (shape_by geometry) * words_in (shape_by geometry) }
    requires in_file { run.virt + run.count ≤ VIRTUAL_BLOCKS }
    requires in_image { run.block + run.count ≤ total (shape_by geometry) }
    requires few { offset + length bytes.now < 2 ^ 63 }
    requires apart { (virt block : ℕ) → block_at table.now virt ≡ Some block → (block < total (shape_by geometry)) × ((block < run.block) ⊎ (run.block + run.count ≤ block)) }
    ensures others { (block : ℕ) → (block < run.block) ⊎ (run.block + run.count ≤ block) → block_words words.new (shape_by geometry) block ≡ block_words words.old (shape_by geometry) block }
    ensures stored { (k at : ℕ) → k < run.count → at < geometry.block_bytes → slice_index (block_content words.new (shape_by geometry) (run.block + k)) at
        ≡ laid_byte offset bytes.now ((run.virt + k) * geometry.block_bytes + at) (present_byte words.old (shape_by geometry) (block_at table.now (run.virt + k)) at) }
{
    let count = geometry.q() as usize;
    for k in 0..run.count {
        let source = first_word(table, run.virt + k, count);
        let first = (run.block + k) as usize * count;
        let place = u64::from(run.virt + k) * u64::from(geometry.block_bytes());
        store_block(words, source, first, count, place, offset, bytes);
    }
}

/// The first word of the block that holds a virtual block, where blocks have this many words.
fn first_word(table: &Table, virt: u16, count: usize) -> Option<usize>
    requires { count ≤ 512 }
    ensures { result ≡ option_map (λ block. block * count) (block_at table.now virt) }
{
    let block = table.block(virt)?;
    Some(block as usize * count)
}

/// Stores the words of a block: those from `source` on, or 0 where there are none, with bytes laid over them.
fn store_block(
    words: &mut [u64],
    source: Option<usize>,
    first: usize,
    count: usize,
    place: u64,
    offset: u64,
    bytes: &[u8],
)
    requires room { first + count ≤ length words.old }
    requires source { ForSome source (λ from. (from + count ≤ length words.old) × ((from + count ≤ first) ⊎ (first + count ≤ from))) }
    requires near { place + 8 * count < 2 ^ 62 }
    requires few { offset + length bytes.now < 2 ^ 63 }
    ensures stored { (index : ℕ) → index < count → IsLaid offset bytes.now (place + 8 * index) (source_word words.old source index) (slice_index words.new (first + index)) }
    ensures others { (at : ℕ) → (at < first) ⊎ (first + count ≤ at) → slice_index words.new at ≡ slice_index words.old at }
{
    for index in 0..count {
        let word = word_from(words, source, index);
        words[first + index] = laid_word(word, place + 8 * index as u64, offset, bytes);
    }
}

/// The word at an index of those from `source` on, or 0 where there are none.
fn word_from(words: &[u64], source: Option<usize>, index: usize) -> u64
    requires { ForSome source (λ from. from + index < length words.now) }
    ensures { result ≡ source_word words.now source index }
{
    match source {
        Some(from) => words[from + index],
        None => 0,
    }
}

/// A word whose first byte has this place in the file, after bytes are laid over it from an offset on.
pub fn laid_word(word: u64, place: u64, offset: u64, bytes: &[u8]) -> u64
    requires near { place + 8 < 2 ^ 63 }
    requires few { offset + length bytes.now < 2 ^ 63 }
    ensures { IsLaid offset bytes.now place word result }
{
    let end = offset + bytes.len() as u64;
    if offset <= place && place + 8 <= end {
        return whole_word(bytes, (place - offset) as usize);
    }
    if end <= place || place + 8 <= offset {
        return word;
    }
    part_word(word, place, offset, bytes)
}

/// The word of eight bytes from a place on.
fn whole_word(bytes: &[u8], at: usize) -> u64
    requires { at + 8 ≤ length bytes.now }
    ensures { (k : ℕ) → k < 8 → byte_of result k ≡ slice_index bytes.now (at + k) }
{
    LittleEndian::read_u64(&bytes[at..])
}

/// A word over which bytes are laid that reach into it.
fn part_word(word: u64, place: u64, offset: u64, bytes: &[u8]) -> u64
    requires near { place + 8 < 2 ^ 63 }
    requires few { offset + length bytes.now < 2 ^ 63 }
    ensures { IsLaid offset bytes.now place word result }
{
    let mut lowest_first = [0u8; 8];
    LittleEndian::write_u64(&mut lowest_first, word);
    lay_part(&mut lowest_first, place, offset, bytes);
    LittleEndian::read_u64(&lowest_first)
}

/// Lays the bytes that reach into it over some bytes from a place on.
fn lay_part(into: &mut [u8], place: u64, offset: u64, bytes: &[u8])
    requires near { place + length into.old < 2 ^ 63 }
    requires few { offset + length bytes.now < 2 ^ 63 }
    ensures { (k : ℕ) → k < length into.old → slice_index into.new k ≡ laid_byte offset bytes.now (place + k) (slice_index into.old k) }
{
    let end = offset + bytes.len() as u64;
    for k in 0..into.len() {
        let at = place + k as u64;
        if offset <= at && at < end {
            into[k] = bytes[(at - offset) as usize];
        }
    }
}
