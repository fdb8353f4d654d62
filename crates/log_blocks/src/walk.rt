//! Goes to the tail of the log.

use crate::taking::{
    begin_log, begin_snapshot, end_reading, find_tail, follow, front_of, keep, keep_table,
    next_snapshot, take_direct, take_indirect, take_run, take_seal,
};
use log_entry::layouts::{
    BLOCK_BASE, BLOCK_KIND, EMPTY, ENTRY_KIND, INDIRECT, INDIRECT_BLOCK, SEAL, SNAPSHOT,
    SNAPSHOT_SIZE,
};
use pmem_words::{Ask, Machine, Place, SeatState, Turn};

/// The tail of the log.
#[derive(Clone, Copy, Debug, PartialEq, Eq)]
pub enum Tail {
    /// An empty slot, 3 to q - 1, of this block.
    Slot { block: u16, slot: u16 },
    /// The end of this block, which is full or sealed and has no link.
    End { block: u16 },
}

/// Goes to the tail. A seat that is not ready takes its kept table again where the base of its tail's block is not before the
/// chain's; else it begins at the chain's front, with the snapshot where there is one. Then it takes in each entry, goes over each
/// seal and follows each link, up to the first word that is 0. It needs a valid pin.
#[derive(Clone, Copy, Debug, PartialEq, Eq)]
pub enum Walk {
    /// The word at the tail is to be loaded; or, where the seat is not ready, the second word of the chain's first block.
    Begin,
    /// The chain begins with a snapshot of this position, and the word with its size is to be loaded.
    Size { base: u64 },
    /// A slot of the snapshot block come to is to be loaded.
    Run,
    /// That block has no entry more, and its link is to be loaded.
    Link,
    /// The second word of the block that it links to is to be loaded.
    Next { block: u16 },
    /// An indirect entry was found at the tail, and this word of its block is to be loaded.
    Indirect { block: u16, word: u16 },
}

impl Walk {
    ghost use Rattle.std.specs.Prelude.{◌≡◌, ◌<◌, true, false, length};
    ghost use Rattle.pmem_words.specs.Seats.{kept_room};
    ghost use Rattle.log_blocks.specs.declared.walk.Walk.TheVariants.{Begin};
    ghost use Rattle.log_blocks.specs.Walking.{walk_from, block_at, word_at, begin_after, BeginAdmits};

    /// A walk that has not begun.
    pub fn new() -> Walk
        ensures { result ≡ Begin }
    {
        Walk::Begin
    }

    /// A walk behind an exchange that was lost to this word at the tail: an indirect entry is still to be taken in.
    pub fn behind(word: u64) -> Walk
        ensures { result ≡ walk_from word }
    {
        if ENTRY_KIND.of(word) == INDIRECT {
            Walk::Indirect {
                block: INDIRECT_BLOCK.of(word) as u16,
                word: 0,
            }
        } else {
            Walk::Begin
        }
    }

    /// Takes the second word of the chain's first block.
    #[inline(never)]
    fn tell_front(&mut self, seat: &mut SeatState, answer: u64)
        requires begin { self.old ≡ Begin }
        requires room { length seat.old.walk.kept < kept_room seat.old.geometry }
        requires word { BeginAdmits false seat.old answer }
        ensures machine { self.new ≡ (begin_after false seat.old answer).machine }
        ensures seat { seat.new ≡ (begin_after false seat.old answer).seat }
    {
        let base = BLOCK_BASE.of(answer);
        if seat.tail_block() != 0 && !seat.reading() && base <= seat.tail_base() {
            keep_table(seat, base);
        } else if BLOCK_KIND.of(answer) == SNAPSHOT {
            let block = front_of(seat);
            keep(seat, block, 1, answer);
            *self = Walk::Size { base };
        } else {
            begin_log(seat, base);
        }
    }

    /// Takes the word at the tail of a seat that is ready.
    #[inline(always)]
    fn tell_tail(&mut self, seat: &mut SeatState, answer: u64) -> Turn<Tail>
        requires begin { self.old ≡ Begin }
        requires room { length seat.old.walk.kept < kept_room seat.old.geometry }
        requires word { BeginAdmits true seat.old answer }
        ensures machine { self.new ≡ (begin_after true seat.old answer).machine }
        ensures seat { seat.new ≡ (begin_after true seat.old answer).seat }
        ensures turn { result ≡ (begin_after true seat.old answer).turn }
    {
        let block = seat.tail_block();
        let slot = seat.tail_slot();
        let last = u32::from(slot) == seat.geometry().q();
        if answer == EMPTY {
            find_tail(seat);
            return Turn::Done(if last {
                Tail::End { block }
            } else {
                Tail::Slot { block, slot }
            });
        }
        if last {
            follow(seat, answer as u16);
        } else if answer == SEAL {
            take_seal(seat);
        } else if ENTRY_KIND.of(answer) == INDIRECT {
            keep(seat, block, slot, answer);
            *self = Walk::Indirect {
                block: INDIRECT_BLOCK.of(answer) as u16,
                word: 0,
            };
        } else {
            take_direct(seat, answer);
        }
        Turn::Go
    }

    /// The block whose word is to be loaded.
    #[inline(always)]
    fn block(&self, seat: &SeatState) -> u16
        ensures { result ≡ block_at self.now seat.now }
    {
        match self {
            Walk::Begin => {
                if seat.ready() {
                    seat.tail_block()
                } else {
                    front_of(seat)
                }
            }
            Walk::Size { .. } => front_of(seat),
            Walk::Run | Walk::Link => seat.reading_block(),
            Walk::Next { block } | Walk::Indirect { block, .. } => *block,
        }
    }

    /// The number of that word in the block.
    #[inline(always)]
    fn word(&self, seat: &SeatState) -> u16
        ensures { result ≡ word_at self.now seat.now }
    {
        match self {
            Walk::Begin => {
                if !seat.ready() {
                    1
                } else if u32::from(seat.tail_slot()) == seat.geometry().q() {
                    0
                } else {
                    seat.tail_slot()
                }
            }
            Walk::Size { .. } => 2,
            Walk::Run => seat.reading_slot(),
            Walk::Link => 0,
            Walk::Next { .. } => 1,
            Walk::Indirect { word, .. } => *word,
        }
    }
}

impl Machine for Walk {
    ghost use Rattle.log_blocks.specs.Walking.{walk_script, walk_lowers};

    type Out = Tail;

    ghost script = { walk_script };

    #[inline(always)]
    fn ask(&self, seat: &SeatState) -> Ask {
        let place = u32::from(self.block(seat)) * seat.geometry().q() + u32::from(self.word(seat));
        Ask::Load(Place::Image(place))
    }

    #[inline(always)]
    fn tell(&mut self, seat: &mut SeatState, answer: u64) -> Turn<Tail> {
        match *self {
            Walk::Begin => {
                if seat.ready() {
                    self.tell_tail(seat, answer)
                } else {
                    self.tell_front(seat, answer);
                    Turn::Go
                }
            }
            Walk::Size { base } => {
                begin_snapshot(seat, base, SNAPSHOT_SIZE.of(answer));
                *self = Walk::Run;
                Turn::Go
            }
            Walk::Run => {
                let block = seat.reading_block();
                let slot = seat.reading_slot();
                if answer == EMPTY {
                    keep(seat, block, slot, answer);
                    *self = Walk::Link;
                } else {
                    take_run(seat, answer);
                    if u32::from(slot) + 1 == seat.geometry().q() {
                        *self = Walk::Link;
                    }
                }
                Turn::Go
            }
            Walk::Link => {
                let block = seat.reading_block();
                keep(seat, block, 0, answer);
                *self = Walk::Next {
                    block: answer as u16,
                };
                Turn::Go
            }
            Walk::Next { block } => {
                if BLOCK_KIND.of(answer) == SNAPSHOT {
                    next_snapshot(seat, block);
                    *self = Walk::Run;
                } else {
                    end_reading(seat, block);
                    *self = Walk::Begin;
                }
                Turn::Go
            }
            Walk::Indirect { block, word } => {
                keep(seat, block, word, answer);
                if u32::from(word) + 1 < seat.geometry().q() {
                    *self = Walk::Indirect {
                        block,
                        word: word + 1,
                    };
                } else {
                    take_indirect(seat, block);
                    *self = Walk::Begin;
                }
                Turn::Go
            }
        }
    }

    ghost lowers = { walk_lowers };
}
