//! The words of an image with what they held before, and the pin and bitmap words beside them.

ghost use Rattle.std.specs.Prelude.{◌≡◌, ◌<◌, ◌∷◌, ◌++◌, [], ◌-◌, max, length, true, All, IfOk, IsErr, ◌≤◌, ◌==◌, not, filter, vec_len, vec_capacity};
ghost use Rattle.persistence.specs.Memory.{floors_raised_by};

use asks::{Ask, Place};
use std::alloc::{AllocError, Global};
use std::marker::Model;

/// A value that an image word held until another replaced it.
#[derive(Clone, Copy)]
pub(crate) struct Replaced {
    pub(crate) word: u32,
    pub(crate) value: u64,
}

impl Model for Replaced {
    ghost use Rattle.persistence.specs.Memory.{Replaced};

    ghost Value = { Replaced };

    ghost view = { λ r. record { word = r.word; value = r.value } };

    ghost inverse = { λ r. record { word = r.word; value = r.value } };
}

/// A mark of an image word by a seat, and how many values had been replaced by then.
#[derive(Clone, Copy)]
struct PendingMark {
    seat: u8,
    word: u32,
    time: u64,
}

impl Model for PendingMark {
    ghost use Rattle.persistence.specs.Memory.{PendingMark};

    ghost Value = { PendingMark };

    ghost view = { λ n. record { seat = n.seat; word = n.word; time = n.time } };

    ghost inverse = { λ n. record { seat = n.seat; word = n.word; time = n.time } };
}

/// The memory of several seats: the words of an image, each with the values that it held before and with a floor among them, the
/// marks of the seats, their pin words, and the words of the bitmap. It has room for so many further steps as were reserved.
#[derive(Drop)]
pub struct Cells {
    pub(crate) words: Vec<u64>,
    pins: Vec<u64>,
    taken: Vec<u64>,
    pub(crate) past: Vec<Replaced>,
    pub(crate) floors: Vec<u64>,
    pending: Vec<PendingMark>,
    room: u64,
}

impl Model for Cells {
    ghost use Rattle.std.specs.Prelude.{◌+◌, ◌<◌, ◌≤◌, ◌≡◌, All, vec_len, vec_capacity};
    ghost use Rattle.persistence.specs.Cells.{CellsNow};

    ghost Value = { CellsNow };

    ghost view = { λ c. record {
      memory = record {
        now = record { words = c.words.items; taken = c.taken.items; pins = c.pins.items };
        past = c.past.items;
        floors = c.floors.items;
        pending = c.pending.items;
      };
      room = c.room;
    } };

    ghost invariant = { λ c.
        (vec_len c.past + c.room ≤ vec_capacity c.past)
        × (vec_len c.pending + c.room ≤ vec_capacity c.pending)
        × (vec_len c.floors ≡ vec_len c.words)
        × All (λ r. r.word < vec_len c.words) c.past.items
        × All (λ n. n.word < vec_len c.words) c.pending.items };
}

impl Cells {
    ghost use Rattle.asks.specs.SharedWords.{word_at, with_word, HasWord, CanLoad};
    ghost use Rattle.asks.specs.declared.ask.Place.TheVariants.{Image};
    ghost use Rattle.asks.specs.declared.ask.Ask.TheVariants.{Fence};
    ghost use Rattle.persistence.specs.Memory.{PendingMark, found_answer, memory_after, replaced_at, pending_after};
    ghost use Rattle.persistence.specs.Cells.{CellsNow, MemoryTakes, fresh_memory, cells_after};

    /// The memory of these image words and these words of the bitmap, for `seats` seats: each word has its one value, the pin words
    /// are 0, nothing is marked, and there is no room for a step. Only want of memory refuses it.
    pub fn new(
        alloc: Global,
        words: Vec<u64>,
        taken: Vec<u64>,
        seats: u8,
    ) -> Result<Cells, AllocError>
        ensures { IfOk result (λ cells. cells ≡ record { memory = fresh_memory words.items taken.items seats; room = 0 }) }
    {
        let pins = vec![in alloc; 0u64; seats as usize]?;
        let floors = vec![in alloc; 0u64; words.len()]?;
        Ok(Cells {
            words,
            pins,
            taken,
            past: Vec::new(alloc),
            floors,
            pending: Vec::new(alloc),
            room: 0,
        })
    }

    /// Makes room for at least `steps` further steps. Only want of memory refuses it, and then nothing is changed.
    pub fn reserve(&mut self, steps: u64) -> Result<(), AllocError>
        ensures ok { IfOk result (λ _. self.new ≡ record self.old { room = max self.old.room steps }) }
        ensures err { IsErr result → self.new ≡ self.old }
    {
        self.past.reserve(steps as usize)?;
        self.pending.reserve(steps as usize)?;
        self.room = self.room.max(steps);
        Ok(())
    }

    /// The word at a place that the memory has. A fence word is 0.
    #[inline(always)]
    pub fn word(&self, place: Place) -> u64
        requires { CanLoad (length self.now.memory.now.pins) self.now.memory.now place }
        ensures { result ≡ word_at self.now.memory.now place }
    {
        match place {
            Place::Image(word) => self.words[word as usize],
            Place::Pin(seat) => self.pins[seat as usize],
            Place::Map(word) => self.taken[word as usize],
            Place::FenceOf(_) => 0,
        }
    }

    /// Gives a word a value. An image word keeps the one that it had.
    #[inline(always)]
    fn replace(&mut self, place: Place, value: u64)
        requires room { 0 < self.old.room }
        requires place { HasWord (length self.old.memory.now.pins) self.old.memory.now place }
        ensures { self.new ≡ record {
          memory = record self.old.memory {
            now = with_word self.old.memory.now place value;
            past = replaced_at true place (word_at self.old.memory.now place) self.old.memory.past;
          };
          room = self.old.room - 1;
        } }
    {
        self.room -= 1;
        match place {
            Place::Image(word) => {
                let replaced = Replaced {
                    word,
                    value: self.words[word as usize],
                };
                self.past.push_reserved(replaced);
                self.words[word as usize] = value;
            }
            Place::Pin(seat) => self.pins[seat as usize] = value,
            Place::Map(word) => self.taken[word as usize] = value,
            Place::FenceOf(_) => {}
        }
    }

    /// Notes the present value of an image word for the seat's next fence.
    #[inline(always)]
    fn note(&mut self, seat: u8, word: u32)
        requires room { 0 < self.old.room }
        requires word { HasWord (length self.old.memory.now.pins) self.old.memory.now (Image word) }
        ensures { self.new ≡ record {
          memory = record self.old.memory {
            pending = self.old.memory.pending ++ record { seat = seat; word = word; time = length self.old.memory.past } ∷ [];
          };
          room = self.old.room - 1;
        } }
    {
        self.room -= 1;
        let time = self.past.len() as u64;
        self.pending.push_reserved(PendingMark { seat, word, time });
    }

    /// Raises the floors to what the seat has noted, and forgets that.
    fn fence(&mut self, seat: u8)
        requires { 0 < self.old.room }
        ensures { self.new ≡ record {
          memory = record self.old.memory {
            floors = floors_raised_by seat self.old.memory.pending self.old.memory.floors;
            pending = pending_after self.old.memory.pending seat Fence (length self.old.memory.past);
          };
          room = self.old.room - 1;
        } }
    {
        self.room -= 1;
        raise(&mut self.floors, &self.pending, seat);
        forget(&mut self.pending, seat);
    }

    /// Performs one ask of a seat, and gives its answer. It needs room for a step, and a place that the memory has. It takes no memory.
    #[inline(always)]
    pub fn perform(&mut self, seat: u8, ask: Ask) -> u64
        requires room { 0 < self.old.room }
        requires place { MemoryTakes self.old.memory ask }
        ensures answer { result ≡ found_answer self.old.memory ask }
        ensures cells { self.new ≡ cells_after self.old seat ask }
    {
        match ask {
            Ask::Load(place) => {
                self.room -= 1;
                self.word(place)
            }
            Ask::Store(place, value) => {
                self.replace(place, value);
                0
            }
            Ask::Exchange { place, old, new } => {
                let found = self.word(place);
                if found == old {
                    self.replace(place, new);
                } else {
                    self.room -= 1;
                }
                found
            }
            Ask::SetBits(place, bits) => {
                let found = self.word(place);
                self.replace(place, found | bits);
                found
            }
            Ask::ClearBits(place, bits) => {
                let found = self.word(place);
                self.replace(place, found & !bits);
                found
            }
            Ask::Mark(word) => {
                self.note(seat, word);
                self.words[word as usize]
            }
            Ask::Fence => {
                self.fence(seat);
                0
            }
        }
    }
}

/// Raises each floor to the time of the seat's marks of its word.
fn raise(floors: &mut [u64], pending: &[PendingMark], seat: u8)
    requires { All (λ note. note.word < length floors.old) pending.now }
    ensures floors { floors.new ≡ floors_raised_by seat pending.now floors.old }
    ensures len { length floors.new ≡ length floors.old }
{
    for note in pending {
        if note.seat == seat {
            let floor = &mut floors[note.word as usize];
            *floor = (*floor).max(note.time);
        }
    }
}

/// Forgets the marks of the seat.
fn forget(pending: &mut Vec<PendingMark>, seat: u8)
    ensures items { pending.new.items ≡ filter (λ note. not (note.seat == seat)) pending.old.items }
    ensures len { vec_len pending.new ≤ vec_len pending.old }
    ensures room { vec_capacity pending.new ≡ vec_capacity pending.old }
{
    pending.retain(|note| note.seat != seat);
}
