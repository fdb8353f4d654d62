//! Whether a word may stand in a slot of a chain block.

ghost use Rattle.std.specs.Prelude.{◌≡◌, ◌≤◌, ◌<◌, ◌+◌, ◌*◌, ◌^◌, ℕ, length, slice_index, true, drop};
ghost use Rattle.std.specs.List.{list_all, flat_map, range_with_len};
ghost use Rattle.log_entry.specs.Fields.{field};
ghost use Rattle.log_image.specs.Image.{total, words_in, is_in_data as is_data_block, is_in_log as is_log_area_block, shape_by};
ghost use Rattle.log_image.specs.Entries.{direct_meaning, indirect_meaning, run_words, run_blocks};
ghost use Rattle.log_image.specs.Format.{fits, is_run as is_run_word, all_zero, is_indirect_block as is_block_of_runs, is_log_entry as is_entry_of_log, is_snapshot_entry as is_entry_of_snapshot};
ghost use Rattle.recovery.specs.Limits.{are_limits};

use chain_reader::{block_at, runs_in};
use log_entry::Geometry;
use log_entry::layouts::{
    DIRECT, DIRECT_BLOCK, DIRECT_COUNT, DIRECT_LEFTOVER, DIRECT_UNNAMED, DIRECT_VIRT, ENTRY_KIND,
    INDIRECT, INDIRECT_BLOCK, INDIRECT_UNNAMED, RUN_BLOCK, RUN_COUNT, RUN_UNNAMED, RUNS_COUNT,
    RUNS_LEFTOVER, RUNS_RUNS, RUNS_UNNAMED, RUNS_VIRT,
};

/// Whether a block is of the data area.
pub fn is_in_data(geometry: Geometry, block: u64) -> bool
    ensures { result ≡ is_data_block (shape_by geometry) block }
{
    1 <= block && block <= u64::from(geometry.data_blocks)
}

/// Whether a block is of the log or spare area.
pub fn is_in_log(geometry: Geometry, block: u64) -> bool
    ensures { result ≡ is_log_area_block (shape_by geometry) block }
{
    u64::from(geometry.data_blocks) < block && block < u64::from(geometry.total())
}

/// Whether `count` blocks from `block` on, at least one, are of the data area.
fn are_in_data(geometry: Geometry, block: u64, count: u64) -> bool
    requires some { 1 ≤ count }
    requires small { block + count < 2 ^ 32 }
    ensures { result ≡ list_all (is_data_block (shape_by geometry)) (range_with_len block count) }
{
    1 <= block && block + count <= u64::from(geometry.data_blocks) + 1
}

/// Whether an entry of `count` blocks has at least one and at most `longest`, its virtual blocks are the file's, and its leftover
/// is less than a block.
fn is_in_limits(geometry: Geometry, longest: u32, virt: u64, count: u64, leftover: u64) -> bool
    requires { virt + count < 2 ^ 32 }
    ensures { result ≡ are_limits geometry.block_bytes longest virt count leftover }
{
    1 <= count
        && count <= u64::from(longest)
        && virt + count <= 65536
        && leftover < u64::from(geometry.block_bytes)
}

/// Whether the entry of a direct entry's word has at most `longest` blocks, and lies in the file and in the data area.
fn direct_fits(geometry: Geometry, longest: u32, word: u64) -> bool
    ensures { result ≡ fits (shape_by geometry) longest (direct_meaning word) }
{
    let count = DIRECT_COUNT.of(word) + 1;
    if !is_in_limits(
        geometry,
        longest,
        DIRECT_VIRT.of(word),
        count,
        DIRECT_LEFTOVER.of(word),
    ) {
        return false;
    }
    are_in_data(geometry, DIRECT_BLOCK.of(word), count)
}

/// Whether a snapshot block may have this word as an entry.
pub fn is_snapshot_entry(geometry: Geometry, word: u64) -> bool
    ensures { result ≡ is_entry_of_snapshot (shape_by geometry) word }
{
    ENTRY_KIND.of(word) == DIRECT
        && DIRECT_UNNAMED.of(word) == 0
        && DIRECT_LEFTOVER.of(word) == 0
        && direct_fits(geometry, 256, word)
}

/// Whether a word is a run of at least one block.
fn is_run(run: u64) -> bool
    ensures { result ≡ is_run_word run }
{
    1 <= RUN_COUNT.of(run) && RUN_UNNAMED.of(run) == 0
}

/// Whether each word is a run.
fn are_runs(runs: &[u64]) -> bool
    ensures { result ≡ list_all is_run_word runs.now }
{
    runs.iter().all(|&run| is_run(run))
}

/// Whether each word is 0.
fn are_zero(words: &[u64]) -> bool
    ensures { result ≡ all_zero words.now }
{
    words.iter().all(|&word| word == 0)
}

/// The number of the blocks of runs.
fn block_count(runs: &[u64]) -> u64
    requires { length runs.now ≤ 65535 }
    ensures { result ≡ length (flat_map run_blocks runs.now) }
{
    let mut count = 0;
    for run in runs {
        count += RUN_COUNT.of(*run);
    }
    count
}

/// Whether each block of runs is of the data area.
fn runs_in_data(geometry: Geometry, runs: &[u64]) -> bool
    requires { list_all is_run_word runs.now ≡ true }
    ensures { result ≡ list_all (is_data_block (shape_by geometry)) (flat_map run_blocks runs.now) }
{
    for run in runs {
        if !are_in_data(geometry, RUN_BLOCK.of(*run), RUN_COUNT.of(*run)) {
            return false;
        }
    }
    true
}

/// The words of a block from one on.
pub fn words_from(block: &[u64], from: usize) -> &[u64]
    requires { from ≤ length block.now }
    ensures { result.now ≡ drop from block.now }
{
    &block[from..]
}

/// Whether the words of a block are those of an indirect block.
fn is_indirect_block(geometry: Geometry, block: &[u64]) -> bool
    requires { length block.now ≡ words_in (shape_by geometry) }
    ensures { result ≡ is_block_of_runs (shape_by geometry) block.now }
{
    let head = block[0];
    let count = RUNS_RUNS.of(head) as usize;
    if RUNS_UNNAMED.of(head) != 0 || count == 0 || count >= block.len() {
        return false;
    }
    let runs = runs_in(block);
    are_runs(runs)
        && block_count(runs) == RUNS_COUNT.of(head)
        && are_zero(words_from(block, 1 + count))
}

/// Whether the entry of an indirect block has at most `longest` blocks, and lies in the file and in the data area.
fn runs_fit(geometry: Geometry, longest: u32, block: &[u64]) -> bool
    requires whole { length block.now ≡ words_in (shape_by geometry) }
    requires good { is_block_of_runs (shape_by geometry) block.now ≡ true }
    ensures { (holder : ℕ) → result ≡ fits (shape_by geometry) longest (indirect_meaning holder block.now) }
{
    let head = block[0];
    if !is_in_limits(
        geometry,
        longest,
        RUNS_VIRT.of(head),
        RUNS_COUNT.of(head),
        RUNS_LEFTOVER.of(head),
    ) {
        return false;
    }
    runs_in_data(geometry, runs_in(block))
}

/// Whether a log block may have this word as an entry.
pub fn is_log_entry(words: &[u64], geometry: Geometry, word: u64) -> bool
    requires { length words.now ≡ total (shape_by geometry) * words_in (shape_by geometry) }
    ensures { result ≡ is_entry_of_log words.now (shape_by geometry) word }
{
    if ENTRY_KIND.of(word) == DIRECT {
        return DIRECT_UNNAMED.of(word) == 0 && direct_fits(geometry, geometry.longest(), word);
    }
    let holder = INDIRECT_BLOCK.of(word);
    if ENTRY_KIND.of(word) != INDIRECT
        || INDIRECT_UNNAMED.of(word) != 0
        || !is_in_data(geometry, holder)
    {
        return false;
    }
    let block = block_at(words, geometry, holder);
    is_indirect_block(geometry, block) && runs_fit(geometry, geometry.longest(), block)
}
