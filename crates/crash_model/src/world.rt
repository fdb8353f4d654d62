//! Several seats on one image whose words remember what a crash may leave.

ghost use Rattle.std.specs.Prelude.{◌≡◌, ◌<◌, ◌≤◌, ◌^◌, ℕ, slice_index, max, length, IfOk, IsErr, map};
ghost use Rattle.std.specs.List.{range_with_len};
ghost use Rattle.pmem_words.specs.Seats.{new_seat};

use crate::shared::SharedImage;
use log_entry::Geometry;
use log_image::Start;
use persistence::{Cells, Choice};
use pmem_words::{Ask, Machine, Memory, SeatState, Turn};
use std::alloc::{AllocError, Global};
use std::marker::Model;

/// An image that several seats share, and their states.
#[derive(Drop)]
pub struct World {
    image: SharedImage,
    seats: Vec<SeatState>,
}

impl Model for World {
    ghost use Rattle.crash_model.specs.Worlds.{WorldNow, world_of};

    ghost Value = { WorldNow };

    ghost view = { λ w. world_of w.image w.seats.items };
}

impl World {
    ghost use Rattle.persistence.specs.Choices.{chosen};
    ghost use Rattle.persistence.specs.Survivors.{Survives};
    ghost use Rattle.pmem_words.specs.declared.TheConstants.{SEATS};
    ghost use Rattle.std.specs.Borrow.{sem};
    ghost use Rattle.persistence.specs.Memory.{found_answer};
    ghost use Rattle.persistence.specs.declared.survivors.Choice.TheVariants.{Newest};
    ghost use Rattle.crash_model.specs.Worlds.{new_world, world_of, image_of, HasFitting, world_after, seat_of, set_seat, answer_in, told_in, turned};
    ghost use Rattle.crash_model.specs.Images.{AreRecovered, HaveAllWrites};
    ghost use Rattle.crash_model.specs.Led.{IsResting};
    ghost use Rattle.crash_model.specs.Lending.{LendsSeat};

    /// The position of the last entry of the log.
    pub fn position(&self) -> u64
        ensures { result ≡ self.now.position }
    {
        self.image.position()
    }

    /// The position up to which no crash loses an entry.
    pub fn synced(&self) -> u64
        ensures { result ≡ self.now.synced }
    {
        self.image.synced()
    }

    /// Makes room for at least `steps` further steps. Only want of memory refuses it, and then nothing is changed.
    pub fn reserve(&mut self, steps: u64) -> Result<(), AllocError>
        ensures ok { IfOk result (λ _. self.new ≡ record self.old { cells = record self.old.cells { room = max self.old.cells.room steps } }) }
        ensures err { IsErr result → self.new ≡ self.old }
    {
        self.image.reserve(steps)
    }

    /// The words of the image as one crash may leave them, by a choice of the value of each word. They stand for the file after the first
    /// writes of the run, among them all up to the synced position, and the newest words for the file after all writes. Only want of memory
    /// refuses it.
    pub fn survivors(&self, alloc: Global, choice: Choice) -> Result<Vec<u64>, AllocError>
        ensures chosen { IfOk result (λ words. words.items ≡ chosen choice self.now.cells.memory) }
        ensures survives { IfOk result (λ words. Survives self.now.cells.memory words.items) }
        ensures recovered { IfOk result (λ words. AreRecovered (image_of self.now) words.items) }
        ensures newest { choice ≡ Newest → IfOk result (λ words. HaveAllWrites (image_of self.now) words.items) }
    {
        self.image.survivors(alloc, choice)
    }

    /// A world in which nothing was done on this image, with this many seats, from 1 to 16, each at rest. Only want of memory refuses
    /// it.
    pub fn new(alloc: Global, start: Start, seats: u8) -> Result<World, AllocError>
        requires some { 0 < seats }
        requires few { seats ≤ SEATS }
        ensures made { IfOk result (λ world. world ≡ new_world start.geometry start.words.items start.taken.items start.position seats) }
        ensures rests { IfOk result (λ world. IsResting world) }
    {
        let geometry = *start.geometry();
        let position = start.position();
        let (words, taken) = start.into_parts();
        bound(&words);
        let states = new_seats(alloc, geometry, seats, position)?;
        let cells = Cells::new(alloc, words, taken, seats)?;
        Ok(World {
            image: SharedImage::fresh(geometry, cells, position),
            seats: states,
        })
    }

    /// The image, and the states of the seats: so a seat's machine is driven to its end.
    pub fn into_parts(self) -> (SharedImage, Vec<SeatState>)
        ensures image { result.0 ≡ image_of self }
        ensures seats { result.1.items ≡ self.seats }
    {
        (self.image, self.seats)
    }

    /// A world of an image and the states of its seats.
    pub fn from_parts(image: SharedImage, seats: Vec<SeatState>) -> World
        ensures { result ≡ world_of image seats.items }
    {
        World { image, seats }
    }

    /// One turn of a seat: its machine asks, the image performs it, and the machine is told the answer. It needs room for a
    /// step, and a core state that fits the ask (`SharedImage::perform`).
    pub fn turn<M: Machine>(&mut self, seat: u8, machine: &mut M) -> Turn<M::Out>
        requires room { 0 < self.old.cells.room }
        requires fits { HasFitting self.old seat (M.script.asks machine.old (seat_of self.old seat)) }
        requires admits { M.script.admits machine.old (seat_of self.old seat) (answer_in M.script self.old seat machine.old) }
        ensures machine { machine.new ≡ (told_in M.script self.old seat machine.old).machine }
        ensures world { self.new ≡ turned M.script self.old seat machine.old }
        ensures turn { result ≡ (told_in M.script self.old seat machine.old).turn }
    {
        let ask = self.ask(seat, machine);
        let answer = self.perform(seat, ask);
        self.tell(seat, machine, answer)
    }

    /// What a seat's machine asks.
    fn ask<M: Machine>(&self, seat: u8, machine: &M) -> Ask
        requires { seat < length self.now.seats }
        ensures { result ≡ M.script.asks machine.now (seat_of self.now seat) }
    {
        machine.ask(&self.seats[seat as usize])
    }

    /// Performs one step of a seat, and gives its answer.
    #[inline(always)]
    fn perform(&mut self, seat: u8, ask: Ask) -> u64
        requires room { 0 < self.old.cells.room }
        requires fits { HasFitting self.old seat ask }
        ensures answer { result ≡ found_answer self.old.cells.memory ask }
        ensures same { self.new ≡ world_after self.old seat ask }
    {
        self.image.perform(&self.seats[seat as usize], ask)
    }

    /// Tells a seat's machine an answer.
    fn tell<M: Machine>(&mut self, seat: u8, machine: &mut M, answer: u64) -> Turn<M::Out>
        requires seat { seat < length self.old.seats }
        requires admits { M.script.admits machine.old (seat_of self.old seat) answer }
        ensures machine { machine.new ≡ (M.script.after machine.old (seat_of self.old seat) answer).machine }
        ensures world { self.new ≡ set_seat self.old seat (M.script.after machine.old (seat_of self.old seat) answer).seat }
        ensures turn { result ≡ (M.script.after machine.old (seat_of self.old seat) answer).turn }
    {
        machine.tell(&mut self.seats[seat as usize], answer)
    }

    /// A seat's state, by its number.
    pub fn seat(&mut self, number: u8) -> &mut SeatState
        requires { number < length self.old.seats }
        ensures* writes_back { sem 𝓛 (LendsSeat self.entry number result) }
        ensures value { result.now ≡ seat_of self.old number }
    {
        &mut self.seats[number as usize]
    }
}

/// As many seats that have made no step.
fn new_seats(
    alloc: Global,
    geometry: Geometry,
    seats: u8,
    position: u64,
) -> Result<Vec<SeatState>, AllocError>
    ensures { IfOk result (λ states. states.items ≡ map (λ number. new_seat geometry number seats position) (range_with_len 0 seats)) }
{
    let mut states = Vec::with_capacity(alloc, seats as usize)?;
    for number in 0..seats {
        states.push(SeatState::new(alloc, geometry, number, seats, position)?)?;
    }
    Ok(states)
}

/// Does nothing: its contract says of words that they have 64 bits, which a contract over a list of numbers has to be told.
fn bound(words: &[u64])
    ensures { (place : ℕ) → slice_index words.now place < 2 ^ 64 }
{}
