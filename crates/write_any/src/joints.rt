//! Where a write goes when a part of it has ended.

ghost use Rattle.std.specs.Prelude.{◌≡◌, ◌==◌, ℕ, length};
ghost use Rattle.log_entry.specs.Legal.{last_position};
ghost use Rattle.pmem_words.specs.Seats.{Seat};
ghost use Rattle.pmem_words.specs.Parts.{Into};
ghost use Rattle.block_bitmap.specs.declared.take.Taken.TheVariants.{Taken as HasTaken};
ghost use Rattle.log_blocks.specs.declared.grow.Grown.TheVariants.{Linked, Overtaken as OvertakenBy};
ghost use Rattle.log_blocks.specs.Offering.{offer_of};
ghost use Rattle.write_any.specs.declared.stage.Stage.TheVariants.{Offering};
ghost use Rattle.write_any.specs.Composing.{HasBlocks, HasLast, composed, entry_for};
ghost use Rattle.write_any.specs.Writing.{offset_of, at_stage, tail_stage, walked_by, taken_so, taken_runs_so, taken_log_so, grown_so, offered_so, still_giving, filling, ended, written, CanGoOn, HasLogBlock};

use crate::contents::{
    are_one_run, block_count, compose, compose_log, entry_of, last_block, last_place,
};
use crate::give_one::GiveOne;
use crate::stage::{Stage, Target};
use block_bitmap::{Fill, Give, GiveFrom, Take, Taken};
use log_blocks::{Grown, Offer, Offered, Walk};
use log_entry::{Area, WriteRefusal};
use pins::Unpin;
use pmem_words::{SeatState, Written};

/// The last position that a file may have.
const LAST_POSITION: u64 = 1_099_511_627_775;

/// Goes on from the tail: it offers its entry, or needs a log block at a block's end.
#[inline(never)]
pub fn at_tail(target: Target, seat: &SeatState) -> Stage
    requires { HasBlocks (offset_of target) seat.now }
    ensures { result ≡ tail_stage target seat.now }
{
    if u32::from(seat.tail_slot()) == seat.geometry().q() {
        Stage::TakingLog(Take::new(Area::Log, 1))
    } else {
        offering(target, seat)
    }
}

/// The entry is to be put in at the tail's slot.
pub fn offering(target: Target, seat: &SeatState) -> Stage
    requires { HasBlocks (offset_of target) seat.now }
    ensures { result ≡ Offering (offer_of (entry_for (offset_of target) seat.now)) }
{
    Stage::Offering(Offer::new(entry_of(seat, target.offset())))
}

/// The tail was found. The first time it has no blocks yet.
#[inline(never)]
pub fn walked(target: Target, seat: &SeatState) -> Stage
    requires { CanGoOn (offset_of target) seat.now }
    ensures { result ≡ walked_by (seat.now.walk.position == last_position) (length seat.now.blocks.owned == 0) target seat.now }
{
    if seat.position() == LAST_POSITION {
        ended(Some(WriteRefusal::PositionLimit))
    } else if seat.owned().len() == 0 {
        Stage::Taking(Take::new(Area::Data, block_count(seat)))
    } else {
        at_tail(target, seat)
    }
}

/// Data blocks were taken, one for each virtual block, or too few were free.
#[inline(never)]
pub fn taken(target: Target, out: Taken, seat: &mut SeatState) -> Stage
    requires { out ≡ HasTaken → HasBlocks (offset_of target) seat.old }
    ensures { taken_so target out seat.old ≡ Into (at_stage target result) seat.new }
{
    match out {
        Taken::Taken if are_one_run(seat.owned()) => filling(target, seat),
        Taken::Taken => Stage::TakingRuns(Take::new(Area::Data, 1)),
        Taken::NoSpace { area } => ended(Some(WriteRefusal::NoSpace { area })),
    }
}

/// One more was taken for their runs, or none was free.
#[inline(never)]
pub fn taken_runs(target: Target, out: Taken, seat: &mut SeatState) -> Stage
    requires { out ≡ HasTaken → HasBlocks (offset_of target) seat.old }
    ensures { taken_runs_so target out seat.old ≡ Into (at_stage target result) seat.new }
{
    match out {
        Taken::Taken => filling(target, seat),
        Taken::NoSpace { area } => ended(Some(WriteRefusal::NoSpace { area })),
    }
}

/// All blocks are there.
#[inline(never)]
pub fn filling(target: Target, seat: &mut SeatState) -> Stage
    requires { HasBlocks (offset_of target) seat.old }
    ensures stage { result ≡ filling seat.old }
    ensures seat { seat.new ≡ composed (offset_of target) seat.old }
{
    let count = seat.owned().len() as u16;
    compose(seat, target.offset());
    Stage::Filling(Fill::new(0, count))
}

/// A log block was taken, or none was free.
#[inline(never)]
pub fn taken_log(target: Target, out: Taken, seat: &mut SeatState) -> Stage
    requires { out ≡ HasTaken → HasLogBlock seat.old }
    ensures { taken_log_so target out seat.old ≡ Into (at_stage target result) seat.new }
{
    match out {
        Taken::Taken => {
            let place = last_place(seat);
            compose_log(seat);
            Stage::FillingLog(Fill::new(place, 1))
        }
        Taken::NoSpace { area } => ended(Some(WriteRefusal::NoSpace { area })),
    }
}

/// The log block was linked, or another one was first.
#[inline(never)]
pub fn grown(target: Target, out: Grown, seat: &SeatState) -> Stage
    requires linked { out ≡ Linked → HasBlocks (offset_of target) seat.now }
    requires overtaken { (block : ℕ) → out ≡ OvertakenBy block → HasLast seat.now }
    ensures { grown_so target out seat.now ≡ Into (at_stage target result) seat.now }
{
    match out {
        Grown::Linked => offering(target, seat),
        Grown::Overtaken { .. } => Stage::GivingLog(GiveOne::new(last_block(seat))),
    }
}

/// The entry was put in, or another one was first.
#[inline(never)]
pub fn offered(out: Offered) -> Stage
    ensures { (target : Target) (s : Seat) → offered_so target out s ≡ Into (at_stage target result) s }
{
    match out {
        Offered::Committed { .. } => ended(None),
        Offered::Overtaken { word } => Stage::Walking(Walk::behind(word)),
    }
}

/// The pin was given up: it goes on where it owns blocks that it did not put into the log, and has ended where it owns none.
#[inline(never)]
pub fn unpinned(refusal: Option<WriteRefusal>, seat: &SeatState) -> Option<Stage>
    ensures { result ≡ still_giving (length seat.now.blocks.owned == 0) refusal }
{
    if seat.owned().len() == 0 {
        None
    } else {
        Some(Stage::Giving(refusal, Give::new(GiveFrom::Owned)))
    }
}

/// The write is done, or refused.
#[inline(never)]
pub fn ended(refusal: Option<WriteRefusal>) -> Stage
    ensures { result ≡ ended refusal }
{
    Stage::Unpinning(refusal, Unpin::new())
}

#[inline(never)]
pub fn written(target: Target, refusal: Option<WriteRefusal>, seat: &SeatState) -> Written
    ensures { result ≡ written target refusal seat.now }
{
    Written {
        position: seat.position(),
        at: target.offset(),
        lost: seat.lost(),
        refusal,
    }
}
