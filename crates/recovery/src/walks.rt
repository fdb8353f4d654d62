//! The walk of the chain from the head to the tail.

ghost use Rattle.std.specs.Prelude.{◌≡◌, ◌≤◌, ◌*◌, length, true};
ghost use Rattle.log_image.specs.Image.{total, words_in, is_in_log, shape_by};
ghost use Rattle.log_image.specs.Header.{head_block};
ghost use Rattle.recovery.specs.WalkAnswers.{WalkAnswers};

use crate::blocks::read_block;
use crate::reading::Reading;
use crate::refusals::OpenRefusal;
use log_entry::Geometry;
use log_entry::layouts::HEAD_BLOCK;
use std::alloc::Global;

/// Walks from the head's block to the tail, and answers what the blocks come to, or the refusal of the first condition on
/// them that holds.
pub fn walk_chain(alloc: Global, words: &[u64], geometry: Geometry) -> Result<Reading, OpenRefusal>
    requires whole { length words.now ≡ total (shape_by geometry) * words_in (shape_by geometry) }
    requires long { 4 ≤ length words.now }
    requires head { is_in_log (shape_by geometry) (head_block words.now) ≡ true }
    ensures { WalkAnswers result words.now (shape_by geometry) }
{
    let Ok(mut reading) = Reading::new(alloc, geometry) else {
        return Err(OpenRefusal::NoMemory);
    };
    let mut block = HEAD_BLOCK.of(words[3]) as u16;
    'chain: loop {
        match read_block(&mut reading, words, geometry, block) {
            Err(refusal) => return Err(refusal),
            Ok(None) => return Ok(reading),
            Ok(Some(next)) => block = next,
        }
    }
}
