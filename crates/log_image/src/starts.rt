//! An image that a run may start from.

ghost use Rattle.std.specs.Prelude.{◌≡◌};
ghost use Rattle.log_image.specs.KeepsStart.{KeepsStart};

use log_entry::Geometry;

/// An image that a run may start from: its words, which stand for a file, with nothing after the tail in the tail's block, and
/// a bitmap of the blocks that its chain names.
#[derive(Drop)]
pub struct Start {
    geometry: Geometry,
    words: Vec<u64>,
    taken: Vec<u64>,
    generation: u32,
    position: u64,
    size: u64,
    pub ghost kept: { ∥ KeepsStart geometry words.items taken.items generation position size ∥₁ },
}

impl Start {
    /// The start of these parts: the shape of the image, its words, the bitmap of its taken blocks (64 blocks a word), the
    /// generation of its chain, the position of its file, and the file's size in bytes.
    pub fn new(
        geometry: Geometry,
        words: Vec<u64>,
        taken: Vec<u64>,
        generation: u32,
        position: u64,
        size: u64,
    ) -> Start
        requires { ∥ KeepsStart geometry words.items taken.items generation position size ∥₁ }
        ensures same_geometry { result.geometry ≡ geometry }
        ensures same_words { result.words ≡ words }
        ensures same_taken { result.taken ≡ taken }
        ensures same_generation { result.generation ≡ generation }
        ensures same_position { result.position ≡ position }
        ensures same_size { result.size ≡ size }
    {
        Start {
            geometry,
            words,
            taken,
            generation,
            position,
            size,
        }
    }

    /// The shape of the image.
    pub fn geometry(&self) -> &Geometry
        ensures { result.now ≡ self.now.geometry }
    {
        &self.geometry
    }

    /// The words of the image. They stand for a file of the size that `size` gives, at the position that `position` gives.
    pub fn words(&self) -> &[u64]
        ensures value { result.now ≡ self.now.words.items }
        ensures kept { ∥ KeepsStart self.now.geometry result.now self.now.taken.items self.now.generation self.now.position self.now.size ∥₁ }
    {
        &self.words
    }

    /// The bitmap of the taken blocks, 64 blocks a word: block 0 and the blocks that the chain names.
    pub fn taken(&self) -> &[u64]
        ensures { result.now ≡ self.now.taken.items }
    {
        &self.taken
    }

    /// The generation of the chain, at least 1.
    pub fn generation(&self) -> u32
        ensures { result ≡ self.now.generation }
    {
        self.generation
    }

    /// The position of the file.
    pub fn position(&self) -> u64
        ensures { result ≡ self.now.position }
    {
        self.position
    }

    /// Bytes of the file.
    pub fn size(&self) -> u64
        ensures { result ≡ self.now.size }
    {
        self.size
    }

    /// The words of the image, and the bitmap of its taken blocks.
    pub fn into_parts(self) -> (Vec<u64>, Vec<u64>)
        ensures same_words { result.0 ≡ self.words }
        ensures same_taken { result.1 ≡ self.taken }
        ensures kept { ∥ KeepsStart self.geometry result.0.items result.1.items self.generation self.position self.size ∥₁ }
    {
        (self.words, self.taken)
    }
}
