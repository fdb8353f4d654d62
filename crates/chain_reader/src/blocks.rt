//! The blocks of a chain, one at a time.

ghost use Rattle.std.specs.Prelude.{◌≡◌, ◌<◌, ◌≤◌, ◌+◌, ◌*◌, ◌==◌, ◌&&◌, not, ◌++◌, List, ℕ, IsTrue, length, map, max, take, if◌then◌else◌, Some, None};
ghost use Rattle.std.specs.List.{list_all};
ghost use Rattle.log_entry.specs.declared.layouts.TheConstants.{EMPTY, SEAL};
ghost use Rattle.log_image.specs.Image.{total, words_in, block_words, shape_by};
ghost use Rattle.log_image.specs.Entries.{Meaning, direct_meaning, meaning};
ghost use Rattle.log_image.specs.Blocks.{link_of, is_snapshot, entry_count, slots_of, entry_words, is_closed, leads_on, kept_words};
ghost use Rattle.log_image.specs.Format.{is_log_entry, is_snapshot_entry};
ghost use Rattle.chain_reader.specs.Tables.{HasMap, HasSize};
ghost use Rattle.chain_reader.specs.Ends.{end_slot};
ghost use Rattle.log_image.specs.Positions.{block_entries};
ghost use Rattle.chain_reader.specs.ChainBlocks.{is_sound, size_past};

use crate::taking::{take_in, take_in_snapshot};
use block_table::Table;
use log_entry::Geometry;
use log_entry::layouts::{BLOCK_KIND, EMPTY, SEAL, SNAPSHOT, SNAPSHOT_COUNT, SNAPSHOT_SIZE};

/// The slots of a block of at least three words.
pub fn slots_in(block: &[u64]) -> &[u64]
    requires { 3 ≤ length block.now }
    ensures { result.now ≡ slots_of block.now }
{
    &block[3..]
}

/// Whether a slot holds an entry: it is neither empty nor a seal.
fn holds_entry(slot: u64) -> bool
    ensures { result ≡ (not (slot == EMPTY) && not (slot == SEAL)) }
{
    slot != EMPTY && slot != SEAL
}

/// How many of some slots hold entries: those before the first that is empty or a seal.
pub fn count_entries(slots: &[u64]) -> usize
    ensures count { result ≡ length (entry_words slots.now) }
    ensures front { entry_words slots.now ≡ take result slots.now }
{
    for (index, slot) in slots.iter().enumerate() {
        if !holds_entry(*slot) {
            return index;
        }
    }
    slots.len()
}

/// The words of the entries of a block of at least three words.
pub fn entries_in(block: &[u64]) -> &[u64]
    requires { 3 ≤ length block.now }
    ensures { result.now ≡ entry_words (slots_of block.now) }
{
    let slots = slots_in(block);
    &slots[..count_entries(slots)]
}

/// Whether some slots are full, or their first that holds no entry is a seal.
pub fn is_closed_by(slots: &[u64]) -> bool
    ensures { result ≡ is_closed slots.now }
{
    for slot in slots {
        if *slot == EMPTY {
            return false;
        }
        if *slot == SEAL {
            return true;
        }
    }
    true
}

/// The slots of a snapshot block that hold its entries. The block has as many as it says.
pub fn kept_in(block: &[u64]) -> &[u64]
    requires some { 3 ≤ length block.now }
    requires inside { 3 + entry_count block.now ≤ length block.now }
    ensures { result.now ≡ kept_words block.now }
{
    &slots_in(block)[..SNAPSHOT_COUNT.of(block[2]) as usize]
}

/// The number of the slot that the entries of a block end before: its first empty one, or the number of its words where it is full
/// or sealed.
pub fn end_slot_in(geometry: Geometry, block: &[u64]) -> u16
    requires { length block.now ≡ words_in (shape_by geometry) }
    ensures { result ≡ end_slot (shape_by geometry) block.now }
{
    let slots = slots_in(block);
    if is_closed_by(slots) {
        return geometry.q() as u16;
    }
    3 + count_entries(slots) as u16
}

/// Whether a block of at least three words is a snapshot block.
pub fn is_snapshot_in(block: &[u64]) -> bool
    requires { 3 ≤ length block.now }
    ensures { result ≡ is_snapshot block.now }
{
    BLOCK_KIND.of(block[1]) == SNAPSHOT
}

/// The link of a block that leads on to another block of its chain. None exactly where it leads on to none.
pub fn next_block(block: &[u64]) -> Option<u64>
    requires { 3 ≤ length block.now }
    ensures { result ≡ (if leads_on block.now then Some (link_of block.now) else None) }
{
    let leads = is_snapshot_in(block) || (is_closed_by(slots_in(block)) && block[0] != 0);
    leads.then_some(block[0])
}

/// Maps the blocks of a snapshot's entries, in order.
fn take_in_kept(table: &mut Table, geometry: Geometry, slots: &[u64])
    requires { IsTrue (list_all (is_snapshot_entry (shape_by geometry)) slots.now) }
    ensures map { (entries : List Meaning) → HasMap table.old entries → HasMap table.new (entries ++ map direct_meaning slots.now) }
    ensures size { table.new.size ≡ table.old.size }
    ensures unit { table.new.block_bytes ≡ table.old.block_bytes }
{
    for word in slots {
        take_in_snapshot(table, geometry, *word);
    }
}

/// Maps the blocks of log entries, in order, and makes the size at least their ends.
fn take_in_entries(table: &mut Table, words: &[u64], geometry: Geometry, entries: &[u64])
    requires whole { length words.now ≡ total (shape_by geometry) * words_in (shape_by geometry) }
    requires each { IsTrue (list_all (is_log_entry words.now (shape_by geometry)) entries.now) }
    ensures map { (before : List Meaning) → HasMap table.old before → HasMap table.new (before ++ map (meaning words.now (shape_by geometry)) entries.now) }
    ensures size { (size : ℕ) (before : List Meaning) → HasSize table.old (shape_by geometry) size before →
        HasSize table.new (shape_by geometry) size (before ++ map (meaning words.now (shape_by geometry)) entries.now) }
    ensures unit { table.new.block_bytes ≡ table.old.block_bytes }
{
    for word in entries {
        take_in(table, words, geometry, *word);
    }
}

/// Takes in the entries of a block of a chain, and the size that a snapshot block says.
pub fn take_in_block(table: &mut Table, words: &[u64], geometry: Geometry, block: &[u64])
    requires whole { length words.now ≡ total (shape_by geometry) * words_in (shape_by geometry) }
    requires block { length block.now ≡ words_in (shape_by geometry) }
    requires sound { IsTrue (is_sound words.now (shape_by geometry) block.now) }
    ensures map { (entries : List Meaning) → HasMap table.old entries → HasMap table.new (entries ++ block_entries words.now (shape_by geometry) block.now) }
    ensures size { table.new.size ≡ size_past words.now (shape_by geometry) table.old.size block.now }
    ensures unit { table.new.block_bytes ≡ table.old.block_bytes }
{
    if is_snapshot_in(block) {
        table.grow(SNAPSHOT_SIZE.of(block[2]));
        take_in_kept(table, geometry, kept_in(block));
    } else {
        take_in_entries(table, words, geometry, entries_in(block));
    }
}
