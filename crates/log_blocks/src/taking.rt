//! What a walk makes of its seat with a word that was loaded.

ghost use Rattle.std.specs.Prelude.{◌≡◌, ◌+◌, ◌*◌, ◌<◌, ◌≤◌, ◌^◌, ◌∷◌, [], false, IsTrue, length, map, drop};
ghost use Rattle.std.specs.List.{range_with_len};
ghost use Rattle.log_image.specs.Image.{words_in};
ghost use Rattle.log_image.specs.Entries.{Meaning, direct_meaning, indirect_meaning};
ghost use Rattle.log_image.specs.Format.{fits, is_indirect_block};
ghost use Rattle.pmem_words.specs.Seats.{kept_room, image_blocks};
ghost use Rattle.log_core.specs.Works.{seat_shape, words_of, front, begun_at_front, blocks_noted};
ghost use Rattle.log_blocks.specs.Taking.{with_kept, table_kept, log_begun, snapshot_begun, run_taken, next_begun, reading_ended, taken, HasRoom, HasFewBases, kept_words, seal_taken, followed, tail_found, passed, IsOfBlocks, dropped};

use log_entry::layouts::{
    DIRECT_BLOCK, DIRECT_COUNT, DIRECT_LEFTOVER, DIRECT_VIRT, HEAD_BLOCK, RUN_BLOCK, RUN_COUNT,
    RUNS_LEFTOVER, RUNS_RUNS, RUNS_VIRT,
};
use pmem_words::{KeptWord, SeatState, Task};

/// The first block of the chain whose head was found last.
#[inline]
pub fn front_of(seat: &SeatState) -> u16
    ensures { result ≡ front seat.now }
{
    HEAD_BLOCK.of(seat.head()) as u16
}

/// Keeps a word of a block. It needs a free place.
#[inline]
pub fn keep(seat: &mut SeatState, block: u16, slot: u16, word: u64)
    requires { length seat.old.walk.kept < kept_room seat.old.geometry }
    ensures { seat.new ≡ with_kept seat.old block slot word }
{
    seat.keep(KeptWord { block, slot, word });
}

/// Takes the kept table again, for a chain that begins at this position.
#[inline(never)]
pub fn keep_table(seat: &mut SeatState, base: u64)
    ensures { seat.new ≡ table_kept seat.old base }
{
    seat.set_ready(true);
    seat.set_snapshot_base(base);
    if base == seat.tail_base() {
        seat.set_first_log(seat.tail_block());
    }
    seat.set_reading_block(0);
    seat.set_reading_place(0);
    seat.set_noting(false);
    seat.clear_kept();
}

/// In a collection the blocks that the chain names are noted from its first one on; in another call none are.
fn note_front(seat: &mut SeatState)
    requires { front seat.old < image_blocks seat.old.geometry }
    ensures { seat.new ≡ begun_at_front seat.old seat.old.walk }
{
    let collects = seat.job() == Task::Collect;
    seat.set_noting(collects);
    if collects {
        let block = front_of(seat);
        seat.note_first(block);
    }
}

/// Notes `count` blocks from `first` on, where they are noted.
#[inline(always)]
pub fn note_run(seat: &mut SeatState, first: u16, count: u16)
    requires { first + count ≤ image_blocks seat.old.geometry }
    ensures { seat.new ≡ record seat.old { blocks = blocks_noted seat.old (range_with_len first count) } }
{
    if seat.noting() {
        note_each(seat, first, count);
    }
}

/// The same one by one. Only a collection notes blocks, so this stands by itself, and other walks do not carry it.
#[inline(never)]
fn note_each(seat: &mut SeatState, first: u16, count: u16)
    requires { first + count ≤ image_blocks seat.old.geometry }
    ensures { seat.new ≡ record seat.old { blocks = blocks_noted seat.old (range_with_len first count) } }
{
    for block in first..first + count {
        seat.note(block);
    }
}

/// Begins at the first log block of a chain without a snapshot.
#[inline(never)]
pub fn begin_log(seat: &mut SeatState, base: u64)
    requires { front seat.old < image_blocks seat.old.geometry }
    ensures { seat.new ≡ log_begun seat.old base }
{
    note_front(seat);
    let block = front_of(seat);
    seat.set_position(base);
    seat.reset_table(0);
    seat.set_tail_block(block);
    seat.set_tail_slot(3);
    seat.set_tail_base(base);
    seat.set_snapshot_base(base);
    seat.set_first_log(block);
    seat.set_at_tail(false);
    seat.set_ready(true);
    end_of_reading(seat);
    seat.clear_kept();
}

/// Begins to read the snapshot of this position and size at the front of the chain.
#[inline(never)]
pub fn begin_snapshot(seat: &mut SeatState, base: u64, size: u64)
    requires { front seat.old < image_blocks seat.old.geometry }
    ensures { seat.new ≡ snapshot_begun seat.old base size }
{
    note_front(seat);
    let block = front_of(seat);
    seat.set_position(base);
    seat.reset_table(size);
    seat.set_first_log(0);
    seat.set_at_tail(false);
    seat.set_ready(false);
    seat.set_reading(true);
    seat.set_reading_generation(seat.generation());
    seat.set_reading_block(block);
    seat.set_reading_slot(3);
    seat.set_reading_place(0);
    seat.clear_kept();
}

/// Takes in an entry of a snapshot block.
#[inline(never)]
pub fn take_run(seat: &mut SeatState, word: u64)
    requires fits { IsTrue (fits (seat_shape seat.old) 256 (direct_meaning word)) }
    requires inside { seat.old.walk.reading_slot + 1 < 2 ^ 16 }
    ensures { seat.new ≡ run_taken seat.old word }
{
    let block = DIRECT_BLOCK.of(word) as u16;
    let count = DIRECT_COUNT.of(word) as u16 + 1;
    seat.apply(DIRECT_VIRT.of(word) as u16, block, count);
    note_run(seat, block, count);
    seat.set_reading_slot(seat.reading_slot() + 1);
    seat.clear_kept();
}

/// Goes on to the next block of the snapshot.
#[inline(never)]
pub fn next_snapshot(seat: &mut SeatState, block: u16)
    requires place { seat.old.walk.reading_place + 1 < 2 ^ 16 }
    requires inside { block < image_blocks seat.old.geometry }
    ensures { seat.new ≡ next_begun seat.old block }
{
    seat.set_reading_block(block);
    seat.set_reading_slot(3);
    seat.set_reading_place(seat.reading_place() + 1);
    seat.note(block);
    seat.clear_kept();
}

/// The snapshot was read whole, and this log block follows it.
#[inline(never)]
pub fn end_reading(seat: &mut SeatState, block: u16)
    requires { block < image_blocks seat.old.geometry }
    ensures { seat.new ≡ reading_ended seat.old block }
{
    let base = seat.position();
    seat.set_tail_block(block);
    seat.set_tail_slot(3);
    seat.set_tail_base(base);
    seat.set_snapshot_base(base);
    seat.set_first_log(block);
    seat.set_ready(true);
    end_of_reading(seat);
    seat.note(block);
    seat.clear_kept();
}

fn end_of_reading(seat: &mut SeatState)
    ensures { seat.new ≡ record seat.old { walk = record seat.old.walk { reading = false; reading_generation = 0; reading_block = 0; reading_slot = 0; reading_place = 0 } } }
{
    seat.set_reading(false);
    seat.set_reading_generation(0);
    seat.set_reading_block(0);
    seat.set_reading_slot(0);
    seat.set_reading_place(0);
}

/// Takes in the direct entry at the tail's slot.
#[inline(always)]
pub fn take_direct(seat: &mut SeatState, word: u64)
    requires fits { IsTrue (fits (seat_shape seat.old) 256 (direct_meaning word)) }
    requires room { HasRoom seat.old.walk }
    requires few { HasFewBases (words_of seat.old) seat.old.calling }
    ensures { seat.new ≡ taken seat.old (direct_meaning word) }
{
    let virt = DIRECT_VIRT.of(word);
    let block = DIRECT_BLOCK.of(word) as u16;
    let count = DIRECT_COUNT.of(word) + 1;
    seat.apply(virt as u16, block, count as u16);
    note_run(seat, block, count as u16);
    pass_entry(seat, virt, count, DIRECT_LEFTOVER.of(word));
}

/// Takes in the indirect entry at the tail's slot. The words of its block, this one, are kept behind its own.
#[inline(never)]
pub fn take_indirect(seat: &mut SeatState, block: u16)
    requires whole { length (kept_words seat.old) ≡ words_in (seat_shape seat.old) }
    requires runs { IsTrue (is_indirect_block (seat_shape seat.old) (kept_words seat.old)) }
    requires fits { IsTrue (fits (seat_shape seat.old) 256 (indirect_meaning block (kept_words seat.old))) }
    requires room { HasRoom seat.old.walk }
    requires few { HasFewBases (words_of seat.old) seat.old.calling }
    requires inside { block < image_blocks seat.old.geometry }
    ensures { seat.new ≡ taken seat.old (indirect_meaning block (kept_words seat.old)) }
{
    seat.note(block);
    let first = seat.kept()[1].word;
    let virt = RUNS_VIRT.of(first);
    let mut past = virt;
    for place in 0..RUNS_RUNS.of(first) as usize {
        let run = seat.kept()[2 + place].word;
        let count = RUN_COUNT.of(run);
        let block = RUN_BLOCK.of(run) as u16;
        seat.apply(past as u16, block, count as u16);
        note_run(seat, block, count as u16);
        past += count;
    }
    pass_entry(seat, virt, past - virt, RUNS_LEFTOVER.of(first));
}

/// The entry of these virtual blocks is in the table: the size and the tail go past it, and partly touched blocks that it
/// touches are to be read again.
#[inline(always)]
fn pass_entry(seat: &mut SeatState, virt: u64, count: u64, leftover: u64)
    requires inside { virt + count ≤ 65536 }
    requires room { HasRoom seat.old.walk }
    requires few { HasFewBases (words_of seat.old) seat.old.calling }
    ensures { (entry : Meaning) → IsOfBlocks virt count leftover entry → seat.new ≡ passed seat.old entry }
{
    let end = (virt + count) * u64::from(seat.geometry().block_bytes());
    seat.grow(end.saturating_sub(leftover));
    drop_touched(seat, 1, virt, count);
    drop_touched(seat, 0, virt, count);
    seat.set_position(seat.position() + 1);
    seat.set_tail_slot(seat.tail_slot() + 1);
    seat.set_at_tail(false);
    seat.clear_kept();
}

/// Drops the partly touched block at this place where it is one of these virtual blocks.
#[inline(always)]
fn drop_touched(seat: &mut SeatState, place: u8, virt: u64, count: u64)
    requires { virt + count ≤ 65536 }
    ensures { seat.new ≡ dropped virt count place seat.old }
{
    if (place as usize) < seat.bases().len() {
        drop_at(seat, place, virt, count);
    }
}

/// The same where a block was touched partly. Most walks have none, and do not carry it.
#[inline(never)]
fn drop_at(seat: &mut SeatState, place: u8, virt: u64, count: u64)
    requires inside { virt + count ≤ 65536 }
    requires there { place < length seat.old.calling.bases }
    ensures { seat.new ≡ dropped virt count place seat.old }
{
    let base = u64::from(seat.bases()[place as usize]);
    if virt <= base && base < virt + count {
        seat.drop_base(place);
    }
}

/// Goes over the seal at the tail's slot, to the end of its block.
#[inline]
pub fn take_seal(seat: &mut SeatState)
    ensures { seat.new ≡ seal_taken seat.old }
{
    seat.set_tail_slot(seat.geometry().q() as u16);
    seat.clear_kept();
}

/// Follows the link at the end of the tail's block, to this block.
#[inline]
pub fn follow(seat: &mut SeatState, block: u16)
    requires { block < image_blocks seat.old.geometry }
    ensures { seat.new ≡ followed seat.old block }
{
    seat.set_tail_block(block);
    seat.set_tail_slot(3);
    seat.set_tail_base(seat.position());
    seat.note(block);
    seat.clear_kept();
}

/// The word at the tail was found empty.
#[inline]
pub fn find_tail(seat: &mut SeatState)
    ensures { seat.new ≡ tail_found seat.old }
{
    seat.set_at_tail(true);
    seat.clear_kept();
}
