//! Neighbouring bits of a 64-bit word, read and set as numbers.

ghost use Rattle.std.specs.Prelude.{◌≡◌, ◌+◌, ◌<◌, ◌≤◌, ◌^◌};
ghost use Rattle.log_entry.specs.Fields.{field, field_word};

/// Neighbouring bits of a word, read as a number: `width` bits from bit `low` on, where bit 0 is the lowest.
#[derive(Clone, Copy, Debug, PartialEq, Eq)]
pub struct Field {
    /// The lowest bit, 0 to 63.
    pub low: u32,
    /// How many bits, 1 to 63.
    pub width: u32,
}

impl Field {
    /// The number that these bits of the word are.
    #[tactic(auto, using(crate::proofs::FieldLemmas::shifted_and_masked))]
    pub fn of(self, word: u64) -> u64
        requires narrow { self.width < 64 }
        requires within { self.low < 64 }
        ensures { result ≡ field self word }
    {
        (word >> self.low) & ((1 << self.width) - 1)
    }

    /// The word with this number in these bits and no other bit set.
    #[tactic(auto, using(crate::proofs::FieldLemmas::shifted_whole))]
    pub fn with(self, value: u64) -> u64
        requires narrow { self.low < 64 }
        requires within { self.low + self.width ≤ 64 }
        requires fits { value < 2 ^ self.width }
        ensures { result ≡ field_word self value }
    {
        value << self.low
    }
}
