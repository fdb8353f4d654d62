//! A just-made image.

ghost use Rattle.std.specs.Prelude.{◌≡◌, ◌<◌, ◌≤◌, ◌+◌, ◌*◌, List, ℕ, length, IfOk, [], ◌∷◌, replicate};
ghost use Rattle.log_image.specs.JustMade.{block_power, made_word, IsJustMade};
ghost use Rattle.log_image.specs.Taken.{bit_of};
ghost use Rattle.log_image.specs.Image.{total, shape_by};
ghost use Rattle.image_tools.specs.Made.{HasBitsOf};

use log_entry::{Area, BlockKind, BlockWord, Geometry, Head};
use log_image::Start;
use log_image::header::{
    HEADER_BLOCK_POWER, HEADER_DATA, HEADER_LOG, HEADER_VERSION, MAGIC, VERSION,
};
use std::alloc::{AllocError, Global};

/// The start of a just-made image of this geometry: generation 1, and the empty file at position 0. Only want of memory refuses it.
pub fn mkfs(alloc: Global, geometry: Geometry) -> Result<Start, AllocError>
    ensures words { IfOk result (λ start. IsJustMade (shape_by geometry) start.words.items) }
    ensures geometry { IfOk result (λ start. start.geometry ≡ geometry) }
    ensures generation { IfOk result (λ start. start.generation ≡ 1) }
    ensures position { IfOk result (λ start. start.position ≡ 0) }
    ensures size { IfOk result (λ start. start.size ≡ 0) }
{
    let words = made_words(alloc, geometry)?;
    let taken = made_taken(alloc, geometry)?;
    Ok(Start::new(geometry, words, taken, 1, 0, 0))
}

/// The power of 2 that the bytes of a block are.
fn power_of(geometry: Geometry) -> u64
    ensures { result ≡ block_power geometry.block_bytes }
{
    match geometry.block_bytes() {
        64 => 6,
        512 => 9,
        _ => 12,
    }
}

/// As many words 0.
fn zeros(alloc: Global, count: usize) -> Result<Vec<u64>, AllocError>
    ensures { IfOk result (λ words. words.items ≡ replicate count 0) }
{
    let words = vec![in alloc; 0u64; count]?;
    Ok(words)
}

/// The words of a just-made image.
fn made_words(alloc: Global, geometry: Geometry) -> Result<Vec<u64>, AllocError>
    ensures { IfOk result (λ words. IsJustMade (shape_by geometry) words.items) }
{
    let log = geometry.first(Area::Log);
    let mut words = zeros(alloc, geometry.total() as usize * geometry.q() as usize)?;
    words[log as usize * geometry.q() as usize + 1] = BlockWord {
        kind: BlockKind::Log,
        base: 0,
    }
    .encode();
    words[3] = Head {
        generation: 1,
        block: log as u16,
    }
    .encode();
    words[2] = HEADER_DATA.with(u64::from(geometry.count(Area::Data)))
        + HEADER_LOG.with(u64::from(geometry.count(Area::Log)));
    words[1] = HEADER_VERSION.with(VERSION) + HEADER_BLOCK_POWER.with(power_of(geometry));
    words[0] = MAGIC;
    Ok(words)
}

/// The bitmap of a just-made image: the header and the first log block are taken.
fn made_taken(alloc: Global, geometry: Geometry) -> Result<Vec<u64>, AllocError>
    ensures { IfOk result (λ taken. HasBitsOf (total (shape_by geometry)) (geometry.data_blocks + 1) taken.items) }
{
    let log = geometry.first(Area::Log) as usize;
    let mut taken = zeros(alloc, (geometry.total() as usize).div_ceil(64))?;
    taken[0] = 1;
    taken[log / 64] |= 1 << (log % 64);
    Ok(taken)
}
