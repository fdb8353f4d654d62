//! What an exchange puts into the chain: its blocks leave the seat's list, and an entry is taken in.

ghost use Rattle.std.specs.Prelude.{◌≡◌, ◌≢◌, ◌==◌, ◌+◌, ◌++◌, ◌≤◌, ◌∷◌, [], true, false, ℕ, IsTrue, length};
ghost use Rattle.log_entry.specs.Fields.{field};
ghost use Rattle.log_image.specs.Image.{words_in};
ghost use Rattle.log_image.specs.Entries.{names, direct_meaning, indirect_meaning};
ghost use Rattle.log_image.specs.Format.{fits, is_indirect_block};
ghost use Rattle.log_image.specs.Chains.{is_listed};
ghost use Rattle.pmem_words.specs.Seats.{kept_room};
ghost use Rattle.log_core.specs.Needs.{owned_numbers};
ghost use Rattle.log_core.specs.Works.{seat_shape, words_of};
ghost use Rattle.log_core.specs.Steps.{blocks_but, content_of};
ghost use Rattle.log_blocks.specs.Taking.{kept_words, HasRoom, HasFewBases};
ghost use Rattle.log_blocks.specs.Committing.{slot_exchange, owned_place, rows, runs_kept, taken_out, committed, IsOwnedRuns, IsOffered, lost_taken};
ghost use Rattle.log_blocks.specs.Walking.{IsSlotWord};

use crate::taking::{keep, take_direct, take_indirect, take_seal};
use log_entry::layouts::{
    DIRECT, DIRECT_BLOCK, DIRECT_COUNT, EMPTY, ENTRY_KIND, INDIRECT, INDIRECT_BLOCK, RUNS_RUNS,
    SEAL,
};
use pmem_words::{Ask, KeptWord, OwnedBlock, Place, SeatState};

/// The exchange of the tail's slot from 0 to this word.
pub fn exchange_slot(seat: &SeatState, word: u64) -> Ask
    ensures { result ≡ slot_exchange word seat.now }
{
    let place = u32::from(seat.tail_block()) * seat.geometry().q() + u32::from(seat.tail_slot());
    Ask::Exchange {
        place: Place::Image(place),
        old: EMPTY,
        new: word,
    }
}

/// This block leaves the list.
pub fn leave_block(seat: &mut SeatState, block: u16)
    ensures { seat.new ≡ record seat.old { blocks = blocks_but (words_of seat.old) (λ (other : ℕ). other == block) seat.old.blocks } }
{
    seat.disown_run(block, 1);
}

/// The blocks of a direct entry leave it.
fn leave_direct(seat: &mut SeatState, entry: u64)
    ensures { seat.new ≡ record seat.old { blocks = blocks_but (words_of seat.old) (λ (other : ℕ). is_listed (names (direct_meaning entry)) other) seat.old.blocks } }
{
    seat.disown_run(
        DIRECT_BLOCK.of(entry) as u16,
        DIRECT_COUNT.of(entry) as u16 + 1,
    );
}

/// The block of an indirect entry and those of its runs leave it. The words of the block are kept behind the entry's.
fn leave_indirect(seat: &mut SeatState, block: u16)
    requires whole { length (kept_words seat.old) ≡ words_in (seat_shape seat.old) }
    requires runs { IsTrue (is_indirect_block (seat_shape seat.old) (kept_words seat.old)) }
    requires fits { IsTrue (fits (seat_shape seat.old) 256 (indirect_meaning block (kept_words seat.old))) }
    ensures { seat.new ≡ record seat.old { blocks = blocks_but (words_of seat.old) (λ (other : ℕ). is_listed (names (indirect_meaning block (kept_words seat.old))) other) seat.old.blocks } }
{
    let runs = RUNS_RUNS.of(seat.kept()[1].word) as usize;
    seat.disown_kept_runs(block, 2, 2 + runs);
}

/// The first place of this block in the list; the list's length where it is not there.
fn place_of(owned: &[OwnedBlock], block: u16) -> usize
    ensures { result ≡ owned_place block owned.now }
{
    let mut place = 0;
    while place < owned.len() && owned[place].block != block {
        place += 1;
    }
    place
}

/// Keeps the words of this owned block's content.
fn keep_content(seat: &mut SeatState, block: u16)
    requires owned { IsTrue (is_listed (owned_numbers seat.old.blocks.owned) block) }
    requires room { length seat.old.walk.kept + words_of seat.old ≤ kept_room seat.old.geometry }
    ensures { seat.new ≡ record seat.old { walk = record seat.old.walk { kept = seat.old.walk.kept ++ rows block 0 (content_of seat.old block) } } }
{
    let place = place_of(seat.owned(), block);
    let q = seat.geometry().q() as u16;
    for word in 0..q {
        let value = seat.contents()[place * q as usize + word as usize];
        seat.keep(KeptWord {
            block,
            slot: word,
            word: value,
        });
    }
}

/// Keeps the entry's word, and behind it those of its indirect block.
fn keep_runs(seat: &mut SeatState, entry: u64, block: u16)
    requires none_kept { seat.old.walk.kept ≡ [] }
    requires wide { 1 ≤ words_of seat.old }
    requires owned { IsTrue (is_listed (owned_numbers seat.old.blocks.owned) block) }
    ensures { seat.new ≡ runs_kept entry block seat.old }
{
    let tail_block = seat.tail_block();
    let tail_slot = seat.tail_slot();
    keep(seat, tail_block, tail_slot, entry);
    keep_content(seat, block);
}

/// Takes in the indirect entry that the seat has put in.
fn commit_indirect(seat: &mut SeatState, entry: u64, block: u16)
    requires none_kept { seat.old.walk.kept ≡ [] }
    requires wide { 1 ≤ words_of seat.old }
    requires room { HasRoom seat.old.walk }
    requires few { HasFewBases (words_of seat.old) seat.old.calling }
    requires quiet { seat.old.calling.noting ≡ false }
    requires runs { IsOwnedRuns seat.old block }
    ensures { seat.new ≡ taken_out (indirect_meaning block (content_of seat.old block)) seat.old }
{
    keep_runs(seat, entry, block);
    leave_indirect(seat, block);
    take_indirect(seat, block);
}

/// The seat has put in this entry at its tail: its blocks leave the list, the table has them, and the tail goes past it.
pub fn commit(seat: &mut SeatState, entry: u64)
    requires { IsOffered entry seat.old }
    ensures { seat.new ≡ committed entry seat.old }
{
    if ENTRY_KIND.of(entry) == DIRECT {
        leave_direct(seat, entry);
        take_direct(seat, entry);
    } else {
        commit_indirect(seat, entry, INDIRECT_BLOCK.of(entry) as u16);
    }
    seat.set_at_tail(true);
    seat.set_won(true);
}

/// The word that an exchange of the tail's slot found is taken in where that needs no further one: a direct entry, or a seal. An
/// indirect entry is kept.
pub fn take_lost(seat: &mut SeatState, word: u64)
    requires some { word ≢ 0 }
    requires none_kept { seat.old.walk.kept ≡ [] }
    requires found { IsSlotWord seat.old word }
    ensures { seat.new ≡ lost_taken word seat.old }
{
    seat.set_at_tail(false);
    if word == SEAL {
        take_seal(seat);
    } else if ENTRY_KIND.of(word) == INDIRECT {
        let tail_block = seat.tail_block();
        let tail_slot = seat.tail_slot();
        keep(seat, tail_block, tail_slot, word);
    } else {
        take_direct(seat, word);
    }
}
