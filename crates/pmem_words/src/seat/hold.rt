//! The head and the pin.

ghost use Rattle.std.specs.Prelude.{◌≡◌};

use super::SeatState;

impl SeatState {
    /// The head word that was last loaded, or found by an exchange of the head that lost; 0 before the first.
    pub fn head(&self) -> u64
        ensures { result ≡ self.now.hold.head }
    {
        self.head
    }

    /// Sets the head word found last.
    pub fn set_head(&mut self, head: u64)
        ensures { self.new ≡ record self.old { hold = record self.old.hold { head = head } } }
    {
        self.head = head;
    }

    /// The generation that stands in the seat's pin word, 0 for none.
    pub fn pin(&self) -> u32
        ensures { result ≡ self.now.hold.pin }
    {
        self.pin
    }

    /// Sets the generation in the pin word.
    pub fn set_pin(&mut self, pin: u32)
        ensures { self.new ≡ record self.old { hold = record self.old.hold { pin = pin } } }
    {
        self.pin = pin;
    }

    /// The generation that the last valid pin named, 0 before the first.
    pub fn generation(&self) -> u32
        ensures { result ≡ self.now.hold.generation }
    {
        self.generation
    }

    /// Sets the generation that the last valid pin named.
    pub fn set_generation(&mut self, generation: u32)
        ensures { self.new ≡ record self.old { hold = record self.old.hold { generation = generation } } }
    {
        self.generation = generation;
    }

    /// Whether the pin is valid now.
    pub fn valid(&self) -> bool
        ensures { result ≡ self.now.hold.valid }
    {
        self.valid
    }

    /// Sets whether the pin is valid.
    pub fn set_valid(&mut self, valid: bool)
        ensures { self.new ≡ record self.old { hold = record self.old.hold { valid = valid } } }
    {
        self.valid = valid;
    }
}
