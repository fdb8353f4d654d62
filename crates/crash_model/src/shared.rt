//! An image that several seats share, whose words remember what a crash may leave.

ghost use Rattle.std.specs.Prelude.{◌≡◌, ◌<◌, ℕ, max, IfOk, IsErr};
ghost use Rattle.log_core.specs.Steps.{kind_of_ask};
ghost use Rattle.crash_model.specs.Images.{rises, synced_by};

use log_entry::Geometry;
use log_entry::layouts::SEAL;
use persistence::{Cells, Choice};
use pmem_words::{Ask, Memory, Place, SeatState, Task};
use std::alloc::{AllocError, Global};
use std::marker::Model;

/// The image word that is the head.
const HEAD_WORD: u32 = 3;

/// The memory of several seats. The positions are that of the log's last entry, and the one up to which no crash loses an entry.
#[derive(Drop)]
pub struct SharedImage {
    geometry: Geometry,
    cells: Cells,
    position: u64,
    synced: u64,
}

impl Model for SharedImage {
    ghost use Rattle.crash_model.specs.Images.{SharedNow, IsOfSomeRun};

    ghost Value = { SharedNow };

    ghost view = { λ i. record { geometry = i.geometry; cells = i.cells; position = i.position; synced = i.synced } };

    ghost invariant = { λ i. IsOfSomeRun (record { geometry = i.geometry; cells = i.cells; position = i.position; synced = i.synced }) };
}

impl SharedImage {
    ghost use Rattle.persistence.specs.Choices.{chosen};
    ghost use Rattle.persistence.specs.Survivors.{Survives};
    ghost use Rattle.persistence.specs.declared.survivors.Choice.TheVariants.{Newest};
    ghost use Rattle.crash_model.specs.Images.{AreRecovered, HaveAllWrites, IsOfSomeRun};

    /// An image in which nothing was done, on this memory at this position of the log.
    pub(crate) fn fresh(geometry: Geometry, cells: Cells, position: u64) -> SharedImage
        requires { IsOfSomeRun (record { geometry = geometry; cells = cells; position = position; synced = position }) }
        ensures { result ≡ record { geometry = geometry; cells = cells; position = position; synced = position } }
    {
        SharedImage {
            geometry,
            cells,
            position,
            synced: position,
        }
    }

    /// The position of the last entry of the log.
    pub fn position(&self) -> u64
        ensures { result ≡ self.now.position }
    {
        self.position
    }

    /// The position up to which no crash loses an entry.
    pub fn synced(&self) -> u64
        ensures { result ≡ self.now.synced }
    {
        self.synced
    }

    /// Makes room for at least `steps` further steps. Only want of memory refuses it, and then nothing is changed.
    pub fn reserve(&mut self, steps: u64) -> Result<(), AllocError>
        ensures ok { IfOk result (λ _. self.new ≡ record self.old { cells = record self.old.cells { room = max self.old.cells.room steps } }) }
        ensures err { IsErr result → self.new ≡ self.old }
    {
        self.cells.reserve(steps)
    }

    /// The words of the image as one crash may leave them, by a choice of the value of each word. They stand for the file after the first
    /// writes of the run, among them all up to the synced position, and the newest words for the file after all writes. Only want of memory
    /// refuses it.
    pub fn survivors(&self, alloc: Global, choice: Choice) -> Result<Vec<u64>, AllocError>
        ensures chosen { IfOk result (λ words. words.items ≡ chosen choice self.now.cells.memory) }
        ensures survives { IfOk result (λ words. Survives self.now.cells.memory words.items) }
        ensures recovered { IfOk result (λ words. AreRecovered self.now words.items) }
        ensures newest { choice ≡ Newest → IfOk result (λ words. HaveAllWrites self.now words.items) }
    {
        self.cells.survivors(alloc, choice)
    }
}

impl Memory for SharedImage {
    ghost use Rattle.crash_model.specs.Images.{image_steps};

    ghost store = { image_steps };

    /// Performs one step of the seat that has the state's number, and gives its answer. It needs room for a step, and that there is a
    /// fitting core state: one that a run from the start of the image reaches and that the image stands for, in which the ask is a step
    /// of that seat, whose view with what was computed since its last step is the seat's state. For each of these the image afterwards
    /// stands for the core state after the step. It takes no memory.
    #[inline(always)]
    fn perform(&mut self, seat: &SeatState, ask: Ask) -> u64 {
        let answer = self.cells.perform(seat.number(), ask);
        self.position += rise(self.geometry.q(), seat.number(), ask, answer);
        self.synced = synced_by(self.synced, seat, ask);
        answer
    }
}

/// How far the position rises with a step: by 1 where an exchange put an entry in a slot. `q` is the words of a block.
fn rise(q: u32, seat: u8, ask: Ask, answer: u64) -> u64
    requires { 0 < q }
    ensures { result ≡ rises (kind_of_ask q seat ask) answer }
{
    match ask {
        Ask::Exchange {
            place: Place::Image(word),
            old,
            new,
        } => {
            if word == HEAD_WORD || old != 0 || word % q == 0 {
                0
            } else if answer == 0 && new != SEAL {
                1
            } else {
                0
            }
        }
        _ => 0,
    }
}

/// The synced position after a step of a seat: it rises with the fence that a sync makes at its tail.
fn synced_by(synced: u64, state: &SeatState, ask: Ask) -> u64
    ensures { (q seat : ℕ) → result ≡ synced_by synced state.now (kind_of_ask q seat ask) }
{
    match ask {
        Ask::Fence => {
            if state.job() == Task::Sync && state.at_tail() && state.sync_to().is_none() {
                synced.max(state.position())
            } else {
                synced
            }
        }
        _ => synced,
    }
}
