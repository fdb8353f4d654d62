//! The slots of a chain block, checked in order and taken in.

ghost use Rattle.std.specs.Prelude.{◌≡◌, ◌≢◌, ◌+◌, ◌*◌, ◌^◌, ◌≤◌, ◌<◌, ◌++◌, ◌∷◌, [], List, ℕ, true, false, length, map, take, IfOk};
ghost use Rattle.log_image.specs.Image.{total, words_in, shape_by};
ghost use Rattle.log_image.specs.Entries.{Meaning, direct_meaning, meaning, names, all_names};
ghost use Rattle.log_image.specs.Maps.{size_after};
ghost use Rattle.log_image.specs.Format.{is_log_entry, is_snapshot_entry};
ghost use Rattle.opening_rules.specs.SlotChecks.{share_checks, log_slot_checks, snapshot_slot_checks, is_bad_slot as is_bad_log_slot};
ghost use Rattle.recovery.specs.Slots.{HasEntries, ReadsEntries, entries_in, used_slot_checks, ReadsLogSlots, entries_if, one_slot_checks};

use crate::{rules, shares};
use block_table::Table;
use chain_reader::{take_in, take_in_snapshot};
use log_entry::Geometry;
use log_entry::layouts::{EMPTY, SEAL};
use opening_rules::BadImage;

/// What the slots of a log block come to.
#[derive(Clone, Copy, Debug, PartialEq, Eq)]
pub struct LogSlots {
    /// Whether they are full or end with a seal.
    pub closed: bool,
    /// The number of their entries.
    pub entries: u64,
}

/// A slot of a chain block.
#[derive(Clone, Copy)]
struct Slot {
    /// The block.
    block: u16,
    /// The slot's number of word in it, 3 or more.
    number: u16,
    /// Its word.
    word: u64,
}

/// Takes the entry of a log block's word in, or refuses the first of its blocks that was taken before.
fn take_log_entry(
    table: &mut Table,
    taken: &mut [u64],
    words: &[u64],
    geometry: Geometry,
    word: u64,
) -> Result<(), BadImage>
    requires whole { length words.now ≡ total (shape_by geometry) * words_in (shape_by geometry) }
    requires entry { is_log_entry words.now (shape_by geometry) word ≡ true }
    ensures { (chain : List ℕ) (size : ℕ) (entries : List Meaning) → HasEntries (shape_by geometry) table.old taken.old chain size entries →
        ReadsEntries result (shape_by geometry) table.new taken.new chain
        (share_checks (all_names entries) (names (meaning words.now (shape_by geometry) word)))
        (size_after (shape_by geometry) size (meaning words.now (shape_by geometry) word ∷ []))
        (entries ++ meaning words.now (shape_by geometry) word ∷ []) }
{
    shares::take_names(taken, words, geometry, word)?;
    take_in(table, words, geometry, word);
    Ok(())
}

/// Takes the entry of a snapshot block's word in, or refuses the first of its blocks that was taken before.
fn take_snapshot_entry(
    table: &mut Table,
    taken: &mut [u64],
    geometry: Geometry,
    word: u64,
) -> Result<(), BadImage>
    requires { is_snapshot_entry (shape_by geometry) word ≡ true }
    ensures { (chain : List ℕ) (size : ℕ) (entries : List Meaning) → HasEntries (shape_by geometry) table.old taken.old chain size entries →
        ReadsEntries result (shape_by geometry) table.new taken.new chain
        (share_checks (all_names entries) (names (direct_meaning word))) size (entries ++ direct_meaning word ∷ []) }
{
    shares::take_direct(taken, geometry, word)?;
    take_in_snapshot(table, geometry, word);
    Ok(())
}

/// Whether a used slot may not stand in a log block, where its entry would be the one after this position.
fn is_bad_slot(words: &[u64], geometry: Geometry, position: u64, number: u16, word: u64) -> bool
    requires whole { length words.now ≡ total (shape_by geometry) * words_in (shape_by geometry) }
    requires small { position ≤ 2 ^ 40 }
    ensures { result ≡ is_bad_log_slot words.now (shape_by geometry) position number word }
{
    if word == SEAL {
        number == 3
    } else {
        !rules::is_log_entry(words, geometry, word) || position + 1 >= 0x100_0000_0000
    }
}

/// Checks a used slot of a log block, after a position and after a seal or not, and takes its entry in.
fn read_log_slot(
    table: &mut Table,
    taken: &mut [u64],
    words: &[u64],
    geometry: Geometry,
    position: u64,
    after_seal: bool,
    slot: Slot,
) -> Result<(), BadImage>
    requires whole { length words.now ≡ total (shape_by geometry) * words_in (shape_by geometry) }
    requires small { position ≤ 2 ^ 40 }
    ensures below { IfOk result (λ done. slot.word ≢ SEAL → position + 1 < 2 ^ 40) }
    ensures answer { (chain : List ℕ) (size : ℕ) (entries : List Meaning) → HasEntries (shape_by geometry) table.old taken.old chain size entries →
        ReadsEntries result (shape_by geometry) table.new taken.new chain
        (used_slot_checks words.now (shape_by geometry) slot.block position entries after_seal slot.number slot.word)
        (size_after (shape_by geometry) size (entries_in words.now (shape_by geometry) slot.word))
        (entries ++ entries_in words.now (shape_by geometry) slot.word) }
{
    if after_seal || is_bad_slot(words, geometry, position, slot.number, slot.word) {
        return Err(BadImage::BadEntry {
            block: slot.block,
            slot: slot.number,
            word: slot.word,
        });
    }
    if slot.word == SEAL {
        return Ok(());
    }
    take_log_entry(table, taken, words, geometry, slot.word)
}

/// Checks the slots of a log block up to the first empty one, the first after this position, and takes their entries in.
pub fn read_log_slots(
    table: &mut Table,
    taken: &mut [u64],
    words: &[u64],
    geometry: Geometry,
    block: u16,
    position: u64,
    slots: &[u64],
) -> Result<LogSlots, BadImage>
    requires whole { length words.now ≡ total (shape_by geometry) * words_in (shape_by geometry) }
    requires few { length slots.now ≤ 509 }
    requires small { position < 2 ^ 40 }
    ensures below { IfOk result (λ read. position + read.entries < 2 ^ 40) }
    ensures answer { (chain : List ℕ) (size : ℕ) (entries : List Meaning) → HasEntries (shape_by geometry) table.old taken.old chain size entries →
        ReadsLogSlots result words.now (shape_by geometry) table.new taken.new chain
        (log_slot_checks words.now (shape_by geometry) block position entries false 3 slots.now) size entries slots.now }
{
    let mut after_seal = false;
    let mut entries = 0;
    for i in 0..slots.len() {
        let word = slots[i];
        if word == EMPTY {
            return Ok(LogSlots {
                closed: after_seal,
                entries,
            });
        }
        let slot = Slot {
            block,
            number: 3 + i as u16,
            word,
        };
        let before = position + entries;
        read_log_slot(table, taken, words, geometry, before, after_seal, slot)?;
        after_seal = word == SEAL;
        if !after_seal {
            entries += 1;
        }
    }
    Ok(LogSlots {
        closed: true,
        entries,
    })
}

/// Checks a slot of a snapshot block, which is to hold an entry or 0, and takes its entry in.
fn read_snapshot_slot(
    table: &mut Table,
    taken: &mut [u64],
    geometry: Geometry,
    used: bool,
    slot: Slot,
) -> Result<(), BadImage>
    ensures { (chain : List ℕ) (size : ℕ) (entries : List Meaning) → HasEntries (shape_by geometry) table.old taken.old chain size entries →
        ReadsEntries result (shape_by geometry) table.new taken.new chain
        (one_slot_checks (shape_by geometry) slot.block entries used slot.number slot.word) size (entries ++ entries_if used slot.word) }
{
    if used && rules::is_snapshot_entry(geometry, slot.word) {
        return take_snapshot_entry(table, taken, geometry, slot.word);
    }
    if used || slot.word != 0 {
        return Err(BadImage::BadEntry {
            block: slot.block,
            slot: slot.number,
            word: slot.word,
        });
    }
    Ok(())
}

/// Checks the slots of a snapshot block, of which the first `count` are to hold entries and the others 0, and takes the entries in.
pub fn read_snapshot_slots(
    table: &mut Table,
    taken: &mut [u64],
    geometry: Geometry,
    block: u16,
    count: u64,
    slots: &[u64],
) -> Result<(), BadImage>
    requires { length slots.now ≤ 509 }
    ensures { (chain : List ℕ) (size : ℕ) (entries : List Meaning) → HasEntries (shape_by geometry) table.old taken.old chain size entries →
        ReadsEntries result (shape_by geometry) table.new taken.new chain
        (snapshot_slot_checks (shape_by geometry) block entries count 3 slots.now) size (entries ++ map direct_meaning (take count slots.now)) }
{
    for i in 0..slots.len() {
        let slot = Slot {
            block,
            number: 3 + i as u16,
            word: slots[i],
        };
        read_snapshot_slot(table, taken, geometry, (i as u64) < count, slot)?;
    }
    Ok(())
}
