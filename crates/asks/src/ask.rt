//! The words that seats share, and the steps on them.

/// One 64-bit word that seats share.
#[derive(Clone, Copy, Debug, PartialEq, Eq)]
pub enum Place {
    /// A word of the image, by its number from 0.
    Image(u32),
    /// The pin word of this seat, below 16.
    Pin(u8),
    /// A word of the bitmap of taken blocks: bit b of word m is block 64 * m + b.
    Map(u32),
    /// The fence word of this seat, which is always 0.
    FenceOf(u8),
}

/// One event: one atomic step on one word, or a fence.
#[derive(Clone, Copy, Debug, PartialEq, Eq)]
pub enum Ask {
    /// The answer is the word.
    Load(Place),
    /// The word becomes this value; the answer is 0.
    Store(Place, u64),
    /// The word becomes `new` exactly where it was `old`; the answer is the word before.
    Exchange { place: Place, old: u64, new: u64 },
    /// The word gets these bits; the answer is the word before.
    SetBits(Place, u64),
    /// The word loses these bits; the answer is the word before.
    ClearBits(Place, u64),
    /// Notes the present value of this image word for the next fence; the answer is the word.
    Mark(u32),
    /// Lets no crash lose what was marked before it; the answer is 0.
    Fence,
}
