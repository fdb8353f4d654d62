//! A load and a store in turn.

use pmem_words::{Ask, Machine, Place, SeatState, Turn};

/// Copies `count` image words from word `from` on to those from word `to` on, one after the other.
#[derive(Clone, Copy, Debug, PartialEq, Eq)]
pub struct Carry {
    /// The first word that is copied.
    pub from: u16,
    /// The word that it is copied to.
    pub to: u16,
    /// How many words are copied.
    pub count: u16,
    /// The place of the next word.
    pub next: u16,
    /// The word that was loaded and is still to be stored.
    pub held: Option<u64>,
}

impl Machine for Carry {
    ghost use Rattle.sample_machines.specs.Carrying.{carry_script, carry_lowers};

    type Out = ();

    ghost script = { carry_script };

    #[inline]
    fn ask(&self, _seat: &SeatState) -> Ask {
        match self.held {
            None => Ask::Load(Place::Image(u32::from(self.from) + u32::from(self.next))),
            Some(word) => Ask::Store(
                Place::Image(u32::from(self.to) + u32::from(self.next)),
                word,
            ),
        }
    }

    #[inline]
    fn tell(&mut self, _seat: &mut SeatState, answer: u64) -> Turn<()> {
        match self.held {
            None => {
                self.held = Some(answer);
                Turn::Go
            }
            Some(_) => {
                self.held = None;
                self.next += 1;
                if self.next < self.count {
                    Turn::Go
                } else {
                    Turn::Done(())
                }
            }
        }
    }

    ghost lowers = { carry_lowers };
}
