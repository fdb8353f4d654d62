//! The text of an image.

ghost use Rattle.std.specs.Prelude.{◌≡◌, ◌<◌, ◌≤◌, ◌+◌, ◌*◌, ◌++◌, ◌&&◌, nat_lt, List, ℕ, IsTrue, length, IfOk, OnOk};
ghost use Rattle.std.specs.List.{list_all, flat_map};
ghost use Rattle.log_image.specs.Header.{shape_of};
ghost use Rattle.log_image.specs.Image.{total, words_in, block_words, shape_by};
ghost use Rattle.log_image.specs.Chains.{IsChain};
ghost use Rattle.image_tools.specs.Sound.{is_sound_block};
ghost use Rattle.image_tools.specs.DumpText.{block_text, end_text, dump_text};

use crate::lines::{push_block, push_head, push_named, push_shape};
use chain_reader::read_chain;
use log_entry::Geometry;
use log_image::Start;
use std::alloc::{AllocError, Global};

/// The text of an image: a line for its shape, one for its head, one for each block of its chain with one for each used slot after
/// it, and one for the position and the size at the end. Only want of memory refuses it.
pub fn dump(alloc: Global, start: &Start) -> Result<Vec<u8>, AllocError>
    ensures { IfOk result (λ text. (chain : List ℕ) → IsChain start.now.words.items (shape_of start.now.words.items) chain →
        text.items ≡ dump_text start.now.words.items (shape_of start.now.words.items) chain) }
{
    let words = start.words();
    let geometry = *start.geometry();
    let read = read_chain(alloc, words, geometry)?;
    let mut out = Vec::new(alloc);
    push_shape(&mut out, geometry)?;
    push_head(&mut out, words)?;
    push_blocks(&mut out, words, geometry, &read.chain)?;
    push_end(&mut out, read.position, read.table.size())?;
    Ok(out)
}

/// Adds the lines of the blocks of a chain.
fn push_blocks(
    out: &mut Vec<u8>,
    words: &[u64],
    geometry: Geometry,
    chain: &[u16],
) -> Result<(), AllocError>
    requires whole { length words.now ≡ total (shape_by geometry) * words_in (shape_by geometry) }
    requires each { IsTrue (list_all (is_sound_block words.now (shape_by geometry)) chain.now) }
    ensures { OnOk result (out.new.items ≡ out.old.items ++ flat_map (block_text words.now (shape_by geometry)) chain.now) }
{
    for number in chain {
        push_block(out, words, geometry, u64::from(*number))?;
    }
    Ok(())
}

/// Adds the line of the position and the size at the end.
#[tactic(auto, unfolding(crate::specs::DumpText::end_text))]
fn push_end(out: &mut Vec<u8>, position: u64, size: u64) -> Result<(), AllocError>
    ensures { OnOk result (out.new.items ≡ out.old.items ++ end_text position size) }
{
    push_named(out, b"end ", position)?;
    push_named(out, b" ", size)?;
    out.extend_from_slice(b"\n")
}
