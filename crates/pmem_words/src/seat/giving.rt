//! The blocks to be given back, and the pins that may need them.

ghost use Rattle.std.specs.Prelude.{◌≡◌, ◌+◌, ◌<◌, ◌≤◌, ◌++◌, ◌∷◌, [], length, take};
ghost use Rattle.pmem_words.specs.declared.TheConstants.{BLOCKS, SEATS};

use super::SeatState;
use crate::lists::append;
use log_entry::Held;

impl SeatState {
    /// The blocks of the chain that the present collection replaced, and that nothing in the new one needs.
    pub fn replaced(&self) -> &[u16]
        ensures { result.now ≡ self.now.giving.replaced }
    {
        self.replaced.as_slice()
    }

    /// Adds a block of the replaced chain. It needs fewer than 65,535.
    pub fn add_replaced(&mut self, block: u16)
        requires { length self.old.giving.replaced < BLOCKS }
        ensures { self.new ≡ record self.old { giving = record self.old.giving { replaced = self.old.giving.replaced ++ block ∷ [] } } }
    {
        self.replaced.push_reserved(block);
    }

    /// Leaves the first `count` blocks of the replaced chain, at most.
    pub fn truncate_replaced(&mut self, count: usize)
        ensures { self.new ≡ record self.old { giving = record self.old.giving { replaced = take count self.old.giving.replaced } } }
    {
        self.replaced.truncate(count);
    }

    /// The generation of the replaced chain; a later pin moves `generation` while the list is still there.
    pub fn replaced_generation(&self) -> u32
        ensures { result ≡ self.now.giving.replaced_generation }
    {
        self.replaced_generation
    }

    /// Sets the generation of the replaced chain.
    pub fn set_replaced_generation(&mut self, replaced_generation: u32)
        ensures { self.new ≡ record self.old { giving = record self.old.giving { replaced_generation = replaced_generation } } }
    {
        self.replaced_generation = replaced_generation;
    }

    /// The blocks kept earlier for a pin that needed them.
    pub fn limbo(&self) -> &[u16]
        ensures { result.now ≡ self.now.giving.limbo }
    {
        self.limbo.as_slice()
    }

    /// Adds a block to those kept for a pin. It needs fewer than 65,535.
    pub fn add_limbo(&mut self, block: u16)
        requires { length self.old.giving.limbo < BLOCKS }
        ensures { self.new ≡ record self.old { giving = record self.old.giving { limbo = self.old.giving.limbo ++ block ∷ [] } } }
    {
        self.limbo.push_reserved(block);
    }

    /// Moves the blocks of the replaced chain behind those kept for a pin. They have to be at most 65,535 together.
    pub fn keep_replaced(&mut self)
        requires { length self.old.giving.limbo + length self.old.giving.replaced ≤ BLOCKS }
        ensures { self.new ≡ record self.old { giving = record self.old.giving { limbo = self.old.giving.limbo ++ self.old.giving.replaced; replaced = [] } } }
    {
        append(&mut self.limbo, self.replaced.as_slice());
        self.replaced.clear();
    }

    /// Leaves the first `count` of the blocks kept for a pin, at most.
    pub fn truncate_limbo(&mut self, count: usize)
        ensures { self.new ≡ record self.old { giving = record self.old.giving { limbo = take count self.old.giving.limbo } } }
    {
        self.limbo.truncate(count);
    }

    /// The greatest generation that needs the blocks kept for a pin.
    pub fn limbo_generation(&self) -> u32
        ensures { result ≡ self.now.giving.limbo_generation }
    {
        self.limbo_generation
    }

    /// Sets the greatest generation that needs them.
    pub fn set_limbo_generation(&mut self, limbo_generation: u32)
        ensures { self.new ≡ record self.old { giving = record self.old.giving { limbo_generation = limbo_generation } } }
    {
        self.limbo_generation = limbo_generation;
    }

    /// The pin words loaded by the running scan, in the order of the seats, at most 16.
    pub fn pins_seen(&self) -> &[u64]
        ensures { result.now ≡ self.now.giving.pins_seen }
    {
        self.pins_seen.as_slice()
    }

    /// Adds a pin word that was loaded. It needs fewer than 16.
    pub fn add_pin_seen(&mut self, pin: u64)
        requires { length self.old.giving.pins_seen < SEATS }
        ensures { self.new ≡ record self.old { giving = record self.old.giving { pins_seen = self.old.giving.pins_seen ++ pin ∷ [] } } }
    {
        self.pins_seen.push_reserved(pin);
    }

    /// Forgets the pin words: a scan begins, the head was exchanged, or a seat was joined.
    pub fn clear_pins_seen(&mut self)
        ensures { self.new ≡ record self.old { giving = record self.old.giving { pins_seen = [] } } }
    {
        self.pins_seen.clear();
    }

    /// The pin for which the last collection's scan left blocks kept; none where none were, or they were given back.
    pub fn limbo_held(&self) -> Option<Held>
        ensures { result ≡ self.now.giving.limbo_held }
    {
        self.limbo_held
    }

    /// Sets the pin for which blocks are kept.
    pub fn set_limbo_held(&mut self, limbo_held: Option<Held>)
        ensures { self.new ≡ record self.old { giving = record self.old.giving { limbo_held = limbo_held } } }
    {
        self.limbo_held = limbo_held;
    }

    /// False from a won exchange of the head until a fence after a mark of it; else true.
    pub fn head_fenced(&self) -> bool
        ensures { result ≡ self.now.giving.head_fenced }
    {
        self.head_fenced
    }

    /// Sets whether the head that the seat put in place was fenced.
    pub fn set_head_fenced(&mut self, head_fenced: bool)
        ensures { self.new ≡ record self.old { giving = record self.old.giving { head_fenced = head_fenced } } }
    {
        self.head_fenced = head_fenced;
    }
}
