//! An image that opening accepts.

ghost use Rattle.std.specs.Prelude.{◌≡◌, ◌*◌, length};
ghost use Rattle.recovery.specs.Openings.{IsOpened};

use crate::clearing::clear_after;
use crate::tails::Tail;
use log_entry::Geometry;
use log_image::Start;

/// An image that opening accepts: its words, which stand for a file, a bitmap of the blocks that its chain names, and the tail
/// that its chain ends with. What stands after the tail in its block is as it was.
#[derive(Drop)]
pub struct Opened {
    geometry: Geometry,
    words: Vec<u64>,
    taken: Vec<u64>,
    generation: u32,
    position: u64,
    size: u64,
    tail: Tail,
    pub ghost kept: { ∥ IsOpened geometry words.items taken.items generation position size tail ∥₁ },
}

impl Opened {
    ghost use Rattle.std.specs.Prelude.{List, ℕ};
    ghost use Rattle.log_image.specs.Tails.{IsCleared};
    ghost use Rattle.log_image.specs.Stands.{StandsBy};
    ghost use Rattle.log_image.specs.Recovered.{Recovered};
    ghost use Rattle.log_image.specs.Image.{shape_by};
    ghost use Rattle.recovery.specs.Openings.{as_tail};

    /// The opened image of these parts: the shape of the image, its words, the bitmap of its taken blocks (64 blocks a word), the
    /// generation of its chain, the position of its file, the file's size in bytes, and the tail.
    pub fn new(
        geometry: Geometry,
        words: Vec<u64>,
        taken: Vec<u64>,
        generation: u32,
        position: u64,
        size: u64,
        tail: Tail,
    ) -> Opened
        requires { ∥ IsOpened geometry words.items taken.items generation position size tail ∥₁ }
        ensures same_geometry { result.geometry ≡ geometry }
        ensures same_words { result.words ≡ words }
        ensures same_taken { result.taken ≡ taken }
        ensures same_generation { result.generation ≡ generation }
        ensures same_position { result.position ≡ position }
        ensures same_size { result.size ≡ size }
        ensures same_tail { result.tail ≡ tail }
    {
        Opened {
            geometry,
            words,
            taken,
            generation,
            position,
            size,
            tail,
        }
    }

    /// The shape of the image.
    pub fn geometry(&self) -> &Geometry
        ensures { result.now ≡ self.now.geometry }
    {
        &self.geometry
    }

    /// The words of the image. They stand for a file of the size that `size` gives, at the position that `position` gives.
    pub fn words(&self) -> &[u64]
        ensures value { result.now ≡ self.now.words.items }
        ensures kept { ∥ IsOpened self.now.geometry result.now self.now.taken.items self.now.generation self.now.position self.now.size self.now.tail ∥₁ }
    {
        &self.words
    }

    /// The bitmap of the taken blocks, 64 blocks a word: block 0 and the blocks that the chain names.
    pub fn taken(&self) -> &[u64]
        ensures { result.now ≡ self.now.taken.items }
    {
        &self.taken
    }

    /// The generation of the chain, at least 1.
    pub fn generation(&self) -> u32
        ensures { result ≡ self.now.generation }
    {
        self.generation
    }

    /// The position of the file.
    pub fn position(&self) -> u64
        ensures { result ≡ self.now.position }
    {
        self.position
    }

    /// Bytes of the file.
    pub fn size(&self) -> u64
        ensures { result ≡ self.now.size }
    {
        self.size
    }

    /// The tail that the chain ends with.
    pub fn tail(&self) -> Tail
        ensures { result ≡ self.now.tail }
    {
        self.tail
    }

    /// What a run may start from: the image, with 0 in each slot after the tail in the tail's block and, where the tail is a slot,
    /// in that block's link. It stands for the same file at the same position.
    pub fn clear(self) -> Start
        ensures cleared { IsCleared (shape_by self.geometry) (as_tail self.tail) self.words.items result.words.items }
        ensures recovered { (chain file : List ℕ) (position : ℕ) → StandsBy self.words.items chain file position → Recovered self.words.items result file position }
        ensures same_geometry { result.geometry ≡ self.geometry }
        ensures same_taken { result.taken ≡ self.taken }
        ensures same_generation { result.generation ≡ self.generation }
        ensures same_position { result.position ≡ self.position }
        ensures same_size { result.size ≡ self.size }
    {
        let geometry = self.geometry;
        let mut words = self.words;
        clear_after(&mut words, geometry, self.tail);
        Start::new(
            geometry,
            words,
            self.taken,
            self.generation,
            self.position,
            self.size,
        )
    }
}
