//! One block of a chain, read at a place of the walk.

ghost use Rattle.std.specs.Prelude.{◌≡◌, ◌≤◌, ◌<◌, ◌+◌, ◌-◌, ◌*◌, ◌^◌, ◌==◌, ◌&&◌, ◌||◌, not, nat_lt, if◌then◌else◌, ◌++◌, ◌∷◌, [], ℕ, List, length, slice_index, true, false, IfOk};
ghost use Rattle.log_entry.specs.Shape.{limit_of};
ghost use Rattle.log_image.specs.Image.{Shape, total, words_in, is_in_log, shape_by};
ghost use Rattle.log_image.specs.Blocks.{kind_of, is_snapshot as is_snapshot_block, base_of, entry_count, file_size, slots_of, is_closed, leads_on as is_followed};
ghost use Rattle.opening_rules.specs.BlockChecks.{Place, is_first, is_bad_second as is_second_not_due, is_bad_third as is_third_not_due, place_after};
ghost use Rattle.opening_rules.specs.SlotChecks.{is_named_in};
ghost use Rattle.recovery.specs.Readings.{ReadsUpTo};
ghost use Rattle.recovery.specs.Names.{HasNamed};
ghost use Rattle.recovery.specs.Slots.{HasEntries};
ghost use Rattle.recovery.specs.BlockAnswers.{ChecksWords, ReadsSlots, FollowsLink, ChecksBlock};
ghost use Rattle.recovery.specs.ReadBlocks.{ReadsBlock};

use crate::reading::Reading;
use crate::refusals::OpenRefusal;
use crate::{bits, rules, slots};
use block_table::Table;
use chain_reader::block_at;
use log_entry::Geometry;
use log_entry::layouts::{
    BLOCK_BASE, BLOCK_KIND, BLOCK_UNNAMED, LOG, SNAPSHOT, SNAPSHOT_COUNT, SNAPSHOT_SIZE,
};
use opening_rules::BadImage;

/// How a block ends.
#[derive(Clone, Copy, Debug, PartialEq, Eq)]
struct Ended {
    /// Whether another block may follow: this one is of a snapshot, or its slots are full or end with a seal.
    pub closed: bool,
    /// The position after the block.
    pub position: u64,
}

/// Whether the block of these words is a snapshot block.
fn is_snapshot(own: &[u64]) -> bool
    requires { 3 ≤ length own.now }
    ensures { result ≡ is_snapshot_block own.now }
{
    BLOCK_KIND.of(own[1]) == SNAPSHOT
}

/// Whether the kind of a block is not due, where a log block was passed or not.
fn is_bad_kind(in_logs: bool, own: &[u64]) -> bool
    requires { 3 ≤ length own.now }
    ensures { result ≡ not (kind_of own.now == LOG || (is_snapshot_block own.now && not in_logs)) }
{
    !(BLOCK_KIND.of(own[1]) == LOG || (is_snapshot(own) && !in_logs))
}

/// Whether the base of a block is not due after a position, where it is the first or not.
fn is_bad_base(first: bool, position: u64, own: &[u64]) -> bool
    requires { 3 ≤ length own.now }
    ensures { result ≡ not ((is_snapshot_block own.now && first) || base_of own.now == position) }
{
    !((is_snapshot(own) && first) || BLOCK_BASE.of(own[1]) == position)
}

/// Whether the second word of a block is not due.
fn is_bad_second(in_logs: bool, first: bool, position: u64, own: &[u64]) -> bool
    requires { 3 ≤ length own.now }
    ensures { (place : Place) → place.in_logs ≡ in_logs → is_first place.before ≡ first → place.position ≡ position → result ≡ is_second_not_due place own.now }
{
    is_bad_kind(in_logs, own) || BLOCK_UNNAMED.of(own[1]) != 0 || is_bad_base(first, position, own)
}

/// Whether the third word of a snapshot block is not due, where the file has so many bytes, and the block is the first or not.
fn is_bad_size(geometry: Geometry, first: bool, size: u64, own: &[u64]) -> bool
    requires { length own.now ≡ words_in (shape_by geometry) }
    ensures { result ≡ (nat_lt (words_in (shape_by geometry) - 3) (entry_count own.now) || nat_lt (limit_of geometry.block_bytes) (file_size own.now)
        || not (first || file_size own.now == size)) }
{
    u64::from(geometry.q() - 3) < SNAPSHOT_COUNT.of(own[2])
        || geometry.limit() < SNAPSHOT_SIZE.of(own[2])
        || !(first || SNAPSHOT_SIZE.of(own[2]) == size)
}

/// Whether the third word of a block is not due.
fn is_bad_third(geometry: Geometry, first: bool, size: u64, own: &[u64]) -> bool
    requires { length own.now ≡ words_in (shape_by geometry) }
    ensures { (place : Place) → is_first place.before ≡ first → place.size ≡ size → result ≡ is_third_not_due (shape_by geometry) place own.now }
{
    if is_snapshot(own) {
        is_bad_size(geometry, first, size, own)
    } else {
        own[2] != 0
    }
}

/// Checks the second and the third word of a block.
fn check_words(
    reading: &Reading,
    geometry: Geometry,
    block: u16,
    own: &[u64],
) -> Result<(), BadImage>
    requires { length own.now ≡ words_in (shape_by geometry) }
    ensures { (place : Place) → ReadsUpTo (shape_by geometry) reading.now place → ChecksWords result (shape_by geometry) place block own.now }
{
    let first = reading.chain.is_empty();
    if is_bad_second(reading.in_logs, first, reading.position, own) {
        return Err(BadImage::BadBase {
            block,
            word: own[1],
        });
    }
    if is_bad_third(geometry, first, reading.table.size(), own) {
        return Err(BadImage::BadBase {
            block,
            word: own[2],
        });
    }
    Ok(())
}

/// Checks the slots of a block whose second and third word are due, and takes its entries in.
fn read_slots(
    table: &mut Table,
    taken: &mut [u64],
    words: &[u64],
    geometry: Geometry,
    block: u16,
    own: &[u64],
) -> Result<Ended, BadImage>
    requires whole { length words.now ≡ total (shape_by geometry) * words_in (shape_by geometry) }
    requires own { length own.now ≡ words_in (shape_by geometry) }
    ensures below { IfOk result (λ ended. ended.position < 2 ^ 40) }
    ensures answer { (chain : List ℕ) (place : Place) → HasEntries (shape_by geometry) table.old taken.old chain place.size place.entries → (is_first place.before ≡ true → place.size ≡ 0) →
        is_second_not_due place own.now ≡ false → is_third_not_due (shape_by geometry) place own.now ≡ false →
        ReadsSlots result words.now (shape_by geometry) table.new taken.new chain place block own.now }
{
    let slots = rules::words_from(own, 3);
    let base = BLOCK_BASE.of(own[1]);
    if is_snapshot(own) {
        slots::read_snapshot_slots(
            table,
            taken,
            geometry,
            block,
            SNAPSHOT_COUNT.of(own[2]),
            slots,
        )?;
        table.grow(SNAPSHOT_SIZE.of(own[2]));
        return Ok(Ended {
            closed: true,
            position: base,
        });
    }
    let read = slots::read_log_slots(table, taken, words, geometry, block, base, slots)?;
    Ok(Ended {
        closed: read.closed,
        position: base + read.entries,
    })
}

/// Whether the link of a block is followed, where another block may follow it or not.
fn leads_on(own: &[u64], closed: bool) -> bool
    requires { 3 ≤ length own.now }
    ensures { closed ≡ (is_snapshot_block own.now || is_closed (slots_of own.now)) → result ≡ is_followed own.now }
{
    is_snapshot(own) || (closed && own[0] != 0)
}

/// Whether a link leads to no block of the log or spare area, or to one that was passed.
fn is_bad_target(taken: &[u64], geometry: Geometry, link: u64) -> bool
    ensures inside { result ≡ false → is_in_log (shape_by geometry) link ≡ true }
    ensures answer { (passed named : List ℕ) → HasNamed (shape_by geometry) taken.now passed named → result ≡ (not (is_in_log (shape_by geometry) link) || is_named_in link passed) }
{
    if !rules::is_in_log(geometry, link) {
        return true;
    }
    bits::is_set(taken, link as u16)
}

/// Where the link of a block leads, which another block may follow or not; none where the link is not followed.
fn follow(
    taken: &[u64],
    geometry: Geometry,
    block: u16,
    own: &[u64],
    closed: bool,
) -> Result<Option<u16>, BadImage>
    requires { 3 ≤ length own.now }
    ensures { (passed named : List ℕ) → HasNamed (shape_by geometry) taken.now passed named → closed ≡ (is_snapshot_block own.now || is_closed (slots_of own.now)) →
        FollowsLink result (shape_by geometry) passed block own.now }
{
    if !leads_on(own, closed) {
        return Ok(None);
    }
    let link = own[0];
    if is_bad_target(taken, geometry, link) {
        return Err(BadImage::BadLink { block, word: link });
    }
    Ok(Some(link as u16))
}

/// Checks a block and takes in what it says, its number apart.
fn check_block(
    reading: &mut Reading,
    words: &[u64],
    geometry: Geometry,
    block: u16,
) -> Result<Option<u16>, BadImage>
    requires whole { length words.now ≡ total (shape_by geometry) * words_in (shape_by geometry) }
    requires inside { is_in_log (shape_by geometry) block ≡ true }
    ensures chain { reading.new.chain ≡ reading.old.chain }
    ensures answer { (place : Place) → ReadsUpTo (shape_by geometry) reading.old place → ChecksBlock result words.now (shape_by geometry) place block reading.new }
{
    let own = block_at(words, geometry, u64::from(block));
    check_words(reading, geometry, block, own)?;
    bits::set(&mut reading.taken, block);
    let ended = read_slots(
        &mut reading.table,
        &mut reading.taken,
        words,
        geometry,
        block,
        own,
    )?;
    reading.in_logs = !is_snapshot(own);
    reading.position = ended.position;
    follow(&reading.taken, geometry, block, own, ended.closed)
}

/// Reads a block of the chain that is not among the reading's: checks it, takes in what it says, and answers the block that its
/// link leads to, `None` where the chain ends with it. An error names the first condition that holds of it, or is for want of
/// memory; after one the reading is of no use.
pub fn read_block(
    reading: &mut Reading,
    words: &[u64],
    geometry: Geometry,
    block: u16,
) -> Result<Option<u16>, OpenRefusal>
    requires whole { length words.now ≡ total (shape_by geometry) * words_in (shape_by geometry) }
    requires inside { is_in_log (shape_by geometry) block ≡ true }
    ensures answer { (place : Place) → ReadsUpTo (shape_by geometry) reading.old place → is_named_in block place.before ≡ false →
        ReadsBlock result words.now (shape_by geometry) place block reading.new }
{
    match check_block(reading, words, geometry, block) {
        Err(why) => Err(OpenRefusal::Bad(why)),
        Ok(next) => match reading.chain.push(block) {
            Ok(()) => Ok(next),
            Err(_) => Err(OpenRefusal::NoMemory),
        },
    }
}
