//! A memory over vectors, for one seat alone.

ghost use Rattle.std.specs.Prelude.{◌≡◌, IfOk, replicate};
ghost use Rattle.pmem_words.specs.declared.TheConstants.{SEATS};

use crate::SEATS;
use crate::memory::Memory;
use crate::seat::SeatState;
use asks::{Ask, Place};
use std::alloc::{AllocError, Global};
use std::marker::Model;

/// The words of an image, of its bitmap, and sixteen pin words.
#[derive(Drop)]
pub struct Plain {
    words: Vec<u64>,
    taken: Vec<u64>,
    pins: Vec<u64>,
}

impl Model for Plain {
    ghost use Rattle.std.specs.Prelude.{◌≡◌, vec_len};
    ghost use Rattle.asks.specs.SharedWords.{SharedWords};
    ghost use Rattle.pmem_words.specs.declared.TheConstants.{SEATS};

    ghost Value = { SharedWords };

    ghost view = { λ p. record { words = p.words.items; taken = p.taken.items; pins = p.pins.items } };

    ghost invariant = { λ p. vec_len p.pins ≡ SEATS };
}

impl Plain {
    ghost use Rattle.asks.specs.SharedWords.{word_at, with_word, HasWord};

    /// A memory of these image words and these words of the bitmap. All pin words are 0.
    pub fn new(alloc: Global, words: Vec<u64>, taken: Vec<u64>) -> Result<Plain, AllocError>
        ensures { IfOk result (λ plain. plain ≡ record { words = words.items; taken = taken.items; pins = replicate SEATS 0 }) }
    {
        let pins = vec![in alloc; 0u64; SEATS]?;
        Ok(Plain { words, taken, pins })
    }

    /// The image words and the words of the bitmap.
    pub fn into_parts(self) -> (Vec<u64>, Vec<u64>)
        ensures words { result.0.items ≡ self.words }
        ensures taken { result.1.items ≡ self.taken }
    {
        (self.words, self.taken)
    }

    #[inline(always)]
    fn word(&self, place: Place) -> u64
        requires { HasWord SEATS self.now place }
        ensures { result ≡ word_at self.now place }
    {
        match place {
            Place::Image(word) => self.words[word as usize],
            Place::Pin(seat) => self.pins[seat as usize],
            Place::Map(word) => self.taken[word as usize],
            Place::FenceOf(_) => 0,
        }
    }

    #[inline(always)]
    fn set_word(&mut self, place: Place, value: u64)
        requires { HasWord SEATS self.old place }
        ensures { self.new ≡ with_word self.old place value }
    {
        match place {
            Place::Image(word) => self.words[word as usize] = value,
            Place::Pin(seat) => self.pins[seat as usize] = value,
            Place::Map(word) => self.taken[word as usize] = value,
            Place::FenceOf(_) => {}
        }
    }
}

impl Memory for Plain {
    ghost use Rattle.pmem_words.specs.PlainWords.{plain};

    ghost store = { plain };

    #[inline(always)]
    fn perform(&mut self, _seat: &SeatState, ask: Ask) -> u64 {
        match ask {
            Ask::Load(Place::FenceOf(_)) => 0,
            Ask::Load(place) => self.word(place),
            Ask::Store(place, value) => {
                self.set_word(place, value);
                0
            }
            Ask::Exchange { place, old, new } => {
                let found = self.word(place);
                if found == old {
                    self.set_word(place, new);
                }
                found
            }
            Ask::SetBits(place, bits) => {
                let found = self.word(place);
                self.set_word(place, found | bits);
                found
            }
            Ask::ClearBits(place, bits) => {
                let found = self.word(place);
                self.set_word(place, found & !bits);
                found
            }
            Ask::Mark(word) => self.words[word as usize],
            Ask::Fence => 0,
        }
    }
}
