//! A bitmap with one bit for each block of an image, 64 to a word.

ghost use Rattle.std.specs.Prelude.{◌≡◌, ◌<◌, ◌==◌, ◌++◌, ◌∷◌, [], List, ℕ};
ghost use Rattle.log_image.specs.Image.{Shape, total};
ghost use Rattle.log_image.specs.Taken.{bit_of, HasBits};

/// Whether the bit of a block is set. Where the bitmap has none, it is not.
pub fn is_set(taken: &[u64], block: u16) -> bool
    ensures { result ≡ (bit_of taken.now block == 1) }
{
    let word = taken.get(usize::from(block / 64)).copied().unwrap_or(0);
    (word >> (block % 64)) & 1 == 1
}

/// Sets the bit of a block, where the bitmap has one.
pub fn set(taken: &mut [u64], block: u16)
    ensures { (shape : Shape) (blocks : List ℕ) → block < total shape → HasBits shape taken.old blocks → HasBits shape taken.new (blocks ++ block ∷ []) }
{
    let place = usize::from(block / 64);
    if place < taken.len() {
        taken[place] |= 1 << (block % 64);
    }
}
