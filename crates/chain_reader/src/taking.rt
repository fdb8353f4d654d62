//! One entry of a chain taken into a table.

ghost use Rattle.std.specs.Prelude.{◌≡◌, ◌≤◌, ◌<◌, ◌+◌, ◌-◌, ◌*◌, ◌++◌, ◌∷◌, [], List, ℕ, IsTrue, length, slice_index};
ghost use Rattle.log_entry.specs.Fields.{field};
ghost use Rattle.log_image.specs.Image.{total, words_in, block_words, shape_by};
ghost use Rattle.log_image.specs.Entries.{Meaning, direct_meaning, indirect_meaning, meaning, run_words, run_blocks};
ghost use Rattle.log_image.specs.Format.{fits, is_indirect_block, is_log_entry, is_snapshot_entry};
ghost use Rattle.chain_reader.specs.Tables.{HasMap, HasSize};

use block_table::Table;
use log_entry::Geometry;
use log_entry::layouts::{
    DIRECT, DIRECT_BLOCK, DIRECT_COUNT, DIRECT_LEFTOVER, DIRECT_VIRT, ENTRY_KIND, INDIRECT_BLOCK,
    RUN_BLOCK, RUN_COUNT, RUNS_LEFTOVER, RUNS_RUNS, RUNS_VIRT,
};

/// Maps the blocks of a snapshot's entry, whose word may stand in a snapshot block of an image of this geometry. The size is the
/// snapshot's own, so an entry leaves it as it is.
pub fn take_in_snapshot(table: &mut Table, _geometry: Geometry, word: u64)
    requires { IsTrue (is_snapshot_entry (shape_by _geometry) word) }
    ensures map { (entries : List Meaning) → HasMap table.old entries → HasMap table.new (entries ++ direct_meaning word ∷ []) }
    ensures size { table.new.size ≡ table.old.size }
    ensures unit { table.new.block_bytes ≡ table.old.block_bytes }
{
    table.apply(
        DIRECT_VIRT.of(word) as u16,
        DIRECT_BLOCK.of(word) as u16,
        DIRECT_COUNT.of(word) as u16 + 1,
    );
}

/// Maps the blocks of a log entry, whose word may stand in a log block of the image of these words, and makes the size at least
/// its end.
pub fn take_in(table: &mut Table, words: &[u64], geometry: Geometry, word: u64)
    requires whole { length words.now ≡ total (shape_by geometry) * words_in (shape_by geometry) }
    requires entry { IsTrue (is_log_entry words.now (shape_by geometry) word) }
    ensures map { (entries : List Meaning) → HasMap table.old entries → HasMap table.new (entries ++ meaning words.now (shape_by geometry) word ∷ []) }
    ensures size { (before : ℕ) (entries : List Meaning) → HasSize table.old (shape_by geometry) before entries →
        HasSize table.new (shape_by geometry) before (entries ++ meaning words.now (shape_by geometry) word ∷ []) }
    ensures unit { table.new.block_bytes ≡ table.old.block_bytes }
{
    if ENTRY_KIND.of(word) == DIRECT {
        take_in_direct(table, geometry, word);
    } else {
        let holder = INDIRECT_BLOCK.of(word);
        take_in_runs(table, geometry, holder, block_at(words, geometry, holder));
    }
}

/// Maps the blocks of a direct entry, and makes the size at least its end.
fn take_in_direct(table: &mut Table, geometry: Geometry, word: u64)
    requires { IsTrue (fits (shape_by geometry) 256 (direct_meaning word)) }
    ensures map { (entries : List Meaning) → HasMap table.old entries → HasMap table.new (entries ++ direct_meaning word ∷ []) }
    ensures size { (before : ℕ) (entries : List Meaning) → HasSize table.old (shape_by geometry) before entries →
        HasSize table.new (shape_by geometry) before (entries ++ direct_meaning word ∷ []) }
    ensures unit { table.new.block_bytes ≡ table.old.block_bytes }
{
    let virt = DIRECT_VIRT.of(word);
    let count = DIRECT_COUNT.of(word) + 1;
    table.apply(virt as u16, DIRECT_BLOCK.of(word) as u16, count as u16);
    table.grow(end_of(geometry, virt + count, DIRECT_LEFTOVER.of(word)));
}

/// Maps the blocks of an indirect entry, whose runs this block holds, and makes the size at least its end.
fn take_in_runs(table: &mut Table, geometry: Geometry, holder: u64, block: &[u64])
    requires whole { length block.now ≡ words_in (shape_by geometry) }
    requires runs { IsTrue (is_indirect_block (shape_by geometry) block.now) }
    requires fits { IsTrue (fits (shape_by geometry) 256 (indirect_meaning holder block.now)) }
    ensures map { (entries : List Meaning) → HasMap table.old entries → HasMap table.new (entries ++ indirect_meaning holder block.now ∷ []) }
    ensures size { (before : ℕ) (entries : List Meaning) → HasSize table.old (shape_by geometry) before entries →
        HasSize table.new (shape_by geometry) before (entries ++ indirect_meaning holder block.now ∷ []) }
    ensures unit { table.new.block_bytes ≡ table.old.block_bytes }
{
    let mut virt = RUNS_VIRT.of(block[0]);
    for run in runs_in(block) {
        let count = RUN_COUNT.of(*run);
        table.apply(virt as u16, RUN_BLOCK.of(*run) as u16, count as u16);
        virt += count;
    }
    table.grow(end_of(geometry, virt, RUNS_LEFTOVER.of(block[0])));
}

/// The run words of an indirect block.
pub fn runs_in(block: &[u64]) -> &[u64]
    requires some { 1 ≤ length block.now }
    requires inside { field RUNS_RUNS (slice_index block.now 0) < length block.now }
    ensures { result.now ≡ run_words block.now }
{
    let runs = RUNS_RUNS.of(block[0]) as usize;
    &block[1..1 + runs]
}

/// The bytes up to `leftover` bytes before the end of virtual block `past - 1`.
fn end_of(geometry: Geometry, past: u64, leftover: u64) -> u64
    requires { past ≤ 65536 }
    ensures { result ≡ past * geometry.block_bytes - leftover }
{
    (past * u64::from(geometry.block_bytes())).saturating_sub(leftover)
}

/// The words of a block.
pub fn block_at(words: &[u64], geometry: Geometry, block: u64) -> &[u64]
    requires whole { length words.now ≡ total (shape_by geometry) * words_in (shape_by geometry) }
    requires inside { block < total (shape_by geometry) }
    ensures value { result.now ≡ block_words words.now (shape_by geometry) block }
    ensures whole { length result.now ≡ words_in (shape_by geometry) }
{
    let count = geometry.q() as usize;
    let first = block as usize * count;
    &words[first..first + count]
}
