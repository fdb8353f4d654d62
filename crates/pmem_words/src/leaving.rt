//! Blocks that leave a seat's list together, by their bits in a word of the bitmap.

ghost use Rattle.std.specs.Prelude.{◌≡◌, ◌*◌, ◌<◌, ◌≤◌, ◌^◌, true, length, vec_len, vec_capacity};
ghost use Rattle.pmem_words.specs.Owned.{is_among, owned_but, contents_but, fenced_all};
ghost use Rattle.pmem_words.specs.Runs.{is_in_run, is_in_runs};

use crate::keeps::KeptWord;
use crate::owned::OwnedBlock;
use log_entry::layouts::{RUN_BLOCK, RUN_COUNT};

/// Whether the block's bit is among these bits of this word of the bitmap.
pub fn is_in_word(block: u16, word: u32, bits: u64) -> bool
    ensures { result ≡ is_among word bits block }
{
    u32::from(block) / 64 == word && bits >> (block % 64) & 1 == 1
}

/// Removes the contents, of `block_words` words each, of the blocks whose bits are among these bits of the word.
pub fn keep_contents(
    contents: &mut Vec<u64>,
    blocks: &[OwnedBlock],
    block_words: usize,
    word: u32,
    bits: u64,
)
    requires { vec_len contents.old ≡ length blocks.now * block_words }
    ensures items { contents.new.items ≡ contents_but block_words (is_among word bits) blocks.now contents.old.items }
    ensures room { vec_capacity contents.old ≤ vec_capacity contents.new }
{
    let mut to = 0;
    for place in 0..blocks.len() {
        if !is_in_word(blocks[place].block, word, bits) {
            let from = place * block_words;
            contents.copy_within(from..from + block_words, to);
            to += block_words;
        }
    }
    contents.truncate(to);
}

/// Removes the blocks whose bits are among these bits of the word.
pub fn keep_blocks(blocks: &mut Vec<OwnedBlock>, word: u32, bits: u64)
    ensures items { blocks.new.items ≡ owned_but (is_among word bits) blocks.old.items }
    ensures room { vec_capacity blocks.old ≤ vec_capacity blocks.new }
{
    let mut to = 0;
    for place in 0..blocks.len() {
        let owned = blocks[place];
        if !is_in_word(owned.block, word, bits) {
            blocks[to] = owned;
            to += 1;
        }
    }
    blocks.truncate(to);
}

/// Each filled block counts as fenced.
pub fn fence_blocks(blocks: &mut Vec<OwnedBlock>)
    ensures items { blocks.new.items ≡ fenced_all blocks.old.items }
    ensures room { vec_capacity blocks.old ≤ vec_capacity blocks.new }
{
    for place in 0..blocks.len() {
        if blocks[place].filled {
            blocks[place].fenced = true;
        }
    }
}

/// Whether the block is one of the `count` from `first` on.
fn is_in_run(block: u16, first: u64, count: u64) -> bool
    ensures { result ≡ is_in_run first count block }
{
    let block = u64::from(block);
    first <= block && block - first < count
}

/// Whether the block is one of the `count` from `first` on, or of a run that one of these words says.
pub fn is_in_runs(block: u16, first: u16, count: u16, runs: &[KeptWord]) -> bool
    ensures { result ≡ is_in_runs first count runs.now block }
{
    let mut is = false;
    for place in 0..runs.len() {
        let run = runs[place].word;
        is = is || is_in_run(block, RUN_BLOCK.of(run), RUN_COUNT.of(run));
    }
    is || is_in_run(block, u64::from(first), u64::from(count))
}

/// Removes the contents, of `block_words` words each, of the `count` blocks from `first` on, and of the blocks of these runs.
pub fn keep_contents_outside(
    contents: &mut Vec<u64>,
    blocks: &[OwnedBlock],
    block_words: usize,
    first: u16,
    count: u16,
    runs: &[KeptWord],
)
    requires { vec_len contents.old ≡ length blocks.now * block_words }
    ensures items { contents.new.items ≡ contents_but block_words (is_in_runs first count runs.now) blocks.now contents.old.items }
    ensures room { vec_capacity contents.old ≤ vec_capacity contents.new }
{
    let mut to = 0;
    for place in 0..blocks.len() {
        if !is_in_runs(blocks[place].block, first, count, runs) {
            let from = place * block_words;
            contents.copy_within(from..from + block_words, to);
            to += block_words;
        }
    }
    contents.truncate(to);
}

/// Removes the `count` blocks from `first` on, and the blocks of these runs.
pub fn keep_blocks_outside(blocks: &mut Vec<OwnedBlock>, first: u16, count: u16, runs: &[KeptWord])
    ensures items { blocks.new.items ≡ owned_but (is_in_runs first count runs.now) blocks.old.items }
    ensures room { vec_capacity blocks.old ≤ vec_capacity blocks.new }
{
    let mut to = 0;
    for place in 0..blocks.len() {
        let owned = blocks[place];
        if !is_in_runs(owned.block, first, count, runs) {
            blocks[to] = owned;
            to += 1;
        }
    }
    blocks.truncate(to);
}
