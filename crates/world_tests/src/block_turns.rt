//! Blocks at the seats of a world: taken, set, filled and given back, by turns.

ghost use Rattle.std.specs.Prelude.{◌≡◌, ◌≢◌, ◌<◌, ◌≤◌, ◌+◌, ◌^◌, ℕ, length, slice_index, [], IfOk, None, true};
ghost use Rattle.log_core.specs.Views.{op_of};
ghost use Rattle.log_core.specs.Within.{no_record};
ghost use Rattle.log_core.specs.Works.{Begins, state_after_work};
ghost use Rattle.crash_model.specs.Worlds.{seat_of, set_seat};
ghost use Rattle.crash_model.specs.Led.{IsResting, IsLed, HasLeft, IsTurnOf};
ghost use Rattle.pmem_words.specs.declared.machine.Turn.TheVariants.{Go, Done};
ghost use Rattle.block_bitmap.specs.Filling.{fill_script};
ghost use Rattle.block_bitmap.specs.Giving.{give_script};
ghost use Rattle.block_bitmap.specs.TakeScript.{take_script};
ghost use Rattle.world_tests.specs.AloneSeats.{RunsAlone, AreAlone, AreAloneBut};

use crate::Unfinished;
use block_bitmap::{Fill, Give, GiveFrom, Take, Taken, begin_alone};
use crash_model::World;
use log_entry::Area;
use pmem_words::{GiveFrom as Listed, Task, Turn};

/// A seat begins a task of a machine that runs alone.
pub fn begin_in(world: &mut World, seat: u8, task: Task)
    requires inside { seat < length world.old.seats }
    requires resting { IsResting world.old }
    requires alone { AreAlone world.old }
    requires task { op_of task [] ≡ None }
    ensures resting { IsResting world.new }
    ensures alone { AreAlone world.new }
    ensures same { world.new ≡ set_seat world.old seat (state_after_work (seat_of world.old seat) (Begins task [])) }
{
    begin_alone(world.seat(seat), task);
}

/// Whether a seat owns this block and no other.
pub fn owns_only(world: &mut World, seat: u8, block: u16) -> bool
    requires inside { seat < length world.old.seats }
    ensures owned { result ≡ true → length (seat_of world.old seat).blocks.owned ≡ 1 }
    ensures same { world.new ≡ world.old }
{
    match world.seat(seat).owned() {
        [owned] => owned.block == block,
        _ => false,
    }
}

/// One turn of a seat that takes blocks.
pub fn turn_take(world: &mut World, seat: u8, take: &mut Take) -> Turn<Taken>
    requires room { 0 < world.old.cells.room }
    requires led { IsLed seat take_script no_record (λ out t v. HasLeft out t v) take.old world.old }
    ensures keeps { IsTurnOf RunsAlone world.old world.new seat }
    ensures alone { AreAlone world.old → AreAlone world.new }
    ensures go { result ≡ Go → IsLed seat take_script no_record (λ out t v. HasLeft out t v) take.new world.new }
    ensures done { (out : Taken) → result ≡ Done out → IsResting world.new }
{
    world.turn(seat, take)
}

/// A seat that owns no block takes up to 4 blocks of an area, in two turns.
pub fn take_in(world: &mut World, seat: u8, area: Area, count: u16) -> Result<Taken, Unfinished>
    requires room { 2 ≤ world.old.cells.room }
    requires inside { seat < length world.old.seats }
    requires resting { IsResting world.old }
    requires alone { AreAlone world.old }
    requires owned { (seat_of world.old seat).blocks.owned ≡ [] }
    requires some { 0 < count }
    requires few { count ≤ 4 }
    ensures resting { IfOk result (λ _. IsResting world.new) }
    ensures alone { IfOk result (λ _. AreAlone world.new) }
    ensures others { IfOk result (λ _. (other : ℕ) → other ≢ seat → seat_of world.new other ≡ seat_of world.old other) }
    ensures many { IfOk result (λ _. length world.new.seats ≡ length world.old.seats) }
    ensures room { IfOk result (λ _. world.new.cells.room + 2 ≡ world.old.cells.room) }
{
    begin_in(world, seat, Task::Take { area, count });
    let mut take = Take::new(area, count);
    let Turn::Go = turn_take(world, seat, &mut take) else {
        return Err(Unfinished);
    };
    match turn_take(world, seat, &mut take) {
        Turn::Go => Err(Unfinished),
        Turn::Done(taken) => Ok(taken),
    }
}

/// Sets the first 8 words of the one block that a seat owns: all of them where a block has 64 bytes.
pub fn set_all(world: &mut World, seat: u8, value: u64)
    requires inside { seat < length world.old.seats }
    requires resting { IsResting world.old }
    requires alone { AreAlone world.old }
    requires owned { length (seat_of world.old seat).blocks.owned ≡ 1 }
    ensures resting { IsResting world.new }
    ensures alone { AreAlone world.new }
    ensures owned { length (seat_of world.new seat).blocks.owned ≡ 1 }
    ensures others { (other : ℕ) → other ≢ seat → seat_of world.new other ≡ seat_of world.old other }
    ensures many { length world.new.seats ≡ length world.old.seats }
    ensures room { world.new.cells.room ≡ world.old.cells.room }
{
    for word in 0..8 {
        set_in(world, seat, word, value);
    }
}

/// Sets one of the first 8 words of the one block that a seat owns.
pub fn set_in(world: &mut World, seat: u8, word: u16, value: u64)
    requires inside { seat < length world.old.seats }
    requires resting { IsResting world.old }
    requires alone { AreAlone world.old }
    requires owned { length (seat_of world.old seat).blocks.owned ≡ 1 }
    requires word { word < 8 }
    ensures resting { IsResting world.new }
    ensures alone { AreAlone world.new }
    ensures owned { length (seat_of world.new seat).blocks.owned ≡ 1 }
    ensures others { (other : ℕ) → other ≢ seat → seat_of world.new other ≡ seat_of world.old other }
    ensures many { length world.new.seats ≡ length world.old.seats }
    ensures room { world.new.cells.room ≡ world.old.cells.room }
{
    world.seat(seat).set_word(0, word, value);
}

/// Does nothing: its contract says of words that they have 64 bits, which a contract over a list of numbers has to be told.
fn bound(words: &[u64])
    ensures { (place : ℕ) → slice_index words.now place < 2 ^ 64 }
{}

/// A seat begins to fill the one block that it owns.
pub fn begin_fill(world: &mut World, seat: u8) -> Fill
    requires inside { seat < length world.old.seats }
    requires resting { IsResting world.old }
    requires alone { AreAlone world.old }
    requires owned { length (seat_of world.old seat).blocks.owned ≡ 1 }
    ensures led { IsLed seat fill_script no_record (λ out t v. HasLeft out t v) result world.new }
    ensures alone { AreAloneBut world.new seat }
    ensures others { (other : ℕ) → other ≢ seat → seat_of world.new other ≡ seat_of world.old other }
    ensures many { length world.new.seats ≡ length world.old.seats }
    ensures room { world.new.cells.room ≡ world.old.cells.room }
{
    begin_in(world, seat, Task::Fill { first: 0, count: 1 });
    bound(world.seat(seat).contents());
    Fill::new(0, 1)
}

/// One turn of a seat that fills blocks.
pub fn turn_fill(world: &mut World, seat: u8, fill: &mut Fill) -> Turn<()>
    requires room { 0 < world.old.cells.room }
    requires led { IsLed seat fill_script no_record (λ out t v. HasLeft out t v) fill.old world.old }
    ensures keeps { IsTurnOf RunsAlone world.old world.new seat }
    ensures alone { AreAloneBut world.old seat → AreAloneBut world.new seat }
    ensures go { result ≡ Go → IsLed seat fill_script no_record (λ out t v. HasLeft out t v) fill.new world.new }
    ensures done { (out : Unit {0}) → result ≡ Done out → IsResting world.new }
    ensures fenced { (out : Unit {0}) → result ≡ Done out → AreAloneBut world.old seat → AreAlone world.new }
{
    world.turn(seat, fill)
}

/// So many turns of a seat that fills blocks, none of them the last.
pub fn go_on(world: &mut World, seat: u8, fill: &mut Fill, turns: u16) -> Result<(), Unfinished>
    requires room { turns ≤ world.old.cells.room }
    requires led { IsLed seat fill_script no_record (λ out t v. HasLeft out t v) fill.old world.old }
    requires alone { AreAloneBut world.old seat }
    ensures led { IfOk result (λ _. IsLed seat fill_script no_record (λ out t v. HasLeft out t v) fill.new world.new) }
    ensures alone { IfOk result (λ _. AreAloneBut world.new seat) }
    ensures others { IfOk result (λ _. (other : ℕ) → other ≢ seat → seat_of world.new other ≡ seat_of world.old other) }
    ensures many { IfOk result (λ _. length world.new.seats ≡ length world.old.seats) }
    ensures room { IfOk result (λ _. world.new.cells.room + turns ≡ world.old.cells.room) }
{
    for _ in 0..turns {
        let Turn::Go = turn_fill(world, seat, fill) else {
            return Err(Unfinished);
        };
    }
    Ok(())
}

/// The last turn of a seat that fills blocks.
pub fn end_fill(world: &mut World, seat: u8, mut fill: Fill) -> Result<(), Unfinished>
    requires room { 1 ≤ world.old.cells.room }
    requires led { IsLed seat fill_script no_record (λ out t v. HasLeft out t v) fill world.old }
    requires alone { AreAloneBut world.old seat }
    ensures resting { IfOk result (λ _. IsResting world.new) }
    ensures alone { IfOk result (λ _. AreAlone world.new) }
    ensures others { IfOk result (λ _. (other : ℕ) → other ≢ seat → seat_of world.new other ≡ seat_of world.old other) }
    ensures many { IfOk result (λ _. length world.new.seats ≡ length world.old.seats) }
    ensures room { IfOk result (λ _. world.new.cells.room + 1 ≡ world.old.cells.room) }
{
    match turn_fill(world, seat, &mut fill) {
        Turn::Go => Err(Unfinished),
        Turn::Done(()) => Ok(()),
    }
}

/// One turn of a seat that gives the blocks that it owns back.
pub fn turn_give(world: &mut World, seat: u8, give: &mut Give) -> Turn<u32>
    requires room { 0 < world.old.cells.room }
    requires led { IsLed seat give_script no_record (λ out t v. HasLeft out t v) give.old world.old }
    ensures keeps { IsTurnOf RunsAlone world.old world.new seat }
    ensures alone { AreAlone world.old → AreAlone world.new }
    ensures go { result ≡ Go → IsLed seat give_script no_record (λ out t v. HasLeft out t v) give.new world.new }
    ensures done { (out : ℕ) → result ≡ Done out → IsResting world.new }
    ensures given { (out : ℕ) → result ≡ Done out → (seat_of world.new seat).blocks.owned ≡ [] }
{
    world.turn(seat, give)
}

/// A seat gives the one block that it owns back, in one turn.
pub fn give_in(world: &mut World, seat: u8) -> Result<u32, Unfinished>
    requires room { 1 ≤ world.old.cells.room }
    requires inside { seat < length world.old.seats }
    requires resting { IsResting world.old }
    requires alone { AreAlone world.old }
    requires owned { length (seat_of world.old seat).blocks.owned ≡ 1 }
    ensures resting { IfOk result (λ _. IsResting world.new) }
    ensures alone { IfOk result (λ _. AreAlone world.new) }
    ensures given { IfOk result (λ _. (seat_of world.new seat).blocks.owned ≡ []) }
    ensures others { IfOk result (λ _. (other : ℕ) → other ≢ seat → seat_of world.new other ≡ seat_of world.old other) }
    ensures many { IfOk result (λ _. length world.new.seats ≡ length world.old.seats) }
    ensures room { IfOk result (λ _. world.new.cells.room + 1 ≡ world.old.cells.room) }
{
    begin_in(
        world,
        seat,
        Task::Give {
            from: Listed::Owned,
        },
    );
    let mut give = Give::new(GiveFrom::Owned);
    match turn_give(world, seat, &mut give) {
        Turn::Go => Err(Unfinished),
        Turn::Done(count) => Ok(count),
    }
}
