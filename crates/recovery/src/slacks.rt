//! The look for bytes past the end of the file that are not 0.

ghost use Rattle.std.specs.Prelude.{◌≡◌, ℕ, ◌*◌, ◌<◌, ◌≤◌, List, drop, length, true, false, Some};
ghost use Rattle.log_entry.specs.WordBytes.{word_bytes};
ghost use Rattle.log_image.specs.Image.{total, words_in, shape_by};
ghost use Rattle.log_image.specs.Entries.{Meaning};
ghost use Rattle.log_image.specs.Maps.{map_of};
ghost use Rattle.chain_reader.specs.Tables.{HasMap};
ghost use Rattle.opening_rules.specs.Slack.{HasSlack};
ghost use Rattle.recovery.specs.Slacks.{is_some_nonzero, MapsInside, LooksForSlack};

use block_table::Table;
use chain_reader::block_at;
use log_entry::Geometry;

/// The block of the first virtual block that has a byte past the end of the file that is not 0. Only virtual blocks that do not
/// lie wholly before the end can have one.
pub fn first_slack(words: &[u64], geometry: Geometry, table: &Table) -> Option<u16>
    requires whole { length words.now ≡ total (shape_by geometry) * words_in (shape_by geometry) }
    requires inside { MapsInside (shape_by geometry) table.now }
    ensures { (entries : List Meaning) → HasMap table.now entries → LooksForSlack result words.now (shape_by geometry) entries table.now.size }
{
    let mut from = end_block(geometry, table.size());
    'mapped: while let Some(run) = table.next_run(from) {
        if has_slack(words, geometry, table.size(), run.virt, run.block) {
            return Some(run.block);
        }
        from = u32::from(run.virt) + 1;
    }
    None
}

/// The virtual block in which a file of this many bytes ends, or 65,536 where it ends after all of them.
fn end_block(geometry: Geometry, size: u64) -> u32
    ensures before { result * geometry.block_bytes ≤ size }
    ensures small { result ≤ 65536 }
{
    (size / u64::from(geometry.block_bytes())).min(65_536) as u32
}

/// Whether this virtual block, which is mapped to this block, has a byte past the end of a file of this many bytes that is not 0.
fn has_slack(words: &[u64], geometry: Geometry, size: u64, virt: u16, block: u16) -> bool
    requires whole { length words.now ≡ total (shape_by geometry) * words_in (shape_by geometry) }
    requires inside { block < total (shape_by geometry) }
    ensures yes { (entries : List Meaning) → map_of entries virt ≡ Some block → result ≡ true → HasSlack words.now (shape_by geometry) entries size virt block }
    ensures no { (entries : List Meaning) (other : ℕ) → map_of entries virt ≡ Some block → result ≡ false → HasSlack words.now (shape_by geometry) entries size virt other → ⊥ }
{
    let first = u64::from(virt) * u64::from(geometry.block_bytes());
    has_byte_from(
        block_at(words, geometry, u64::from(block)),
        size.saturating_sub(first),
    )
}

/// Whether one of the bytes of these words is not 0, without the first `kept` of them.
fn has_byte_from(words: &[u64], kept: u64) -> bool
    ensures { result ≡ is_some_nonzero (drop kept (word_bytes words.now)) }
{
    let whole = (kept / 8) as usize;
    if whole >= words.len() {
        return false;
    }
    words[whole] >> (8 * (kept % 8)) != 0 || has_word(&words[whole + 1..])
}

/// Whether one of these words is not 0.
fn has_word(words: &[u64]) -> bool
    ensures { result ≡ is_some_nonzero words.now }
{
    words.iter().any(|word| *word != 0)
}
