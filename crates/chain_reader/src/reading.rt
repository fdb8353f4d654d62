//! The chain of an image that stands for a file, read from the head to its end.

ghost use Rattle.std.specs.Prelude.{◌≡◌, ◌*◌, List, ℕ, length, IfOk};
ghost use Rattle.log_entry.specs.Geometry.{HasShape};
ghost use Rattle.log_image.specs.Header.{shape_of};
ghost use Rattle.log_image.specs.Chains.{IsChain};
ghost use Rattle.log_image.specs.Image.{shape_by};
ghost use Rattle.chain_reader.specs.Reads.{StandForSome, IsReadOf};

use crate::blocks::{end_slot_in, entries_in, next_block, take_in_block};
use crate::taking::block_at;
use block_table::Table;
use log_entry::Geometry;
use log_entry::layouts::{BLOCK_BASE, HEAD_BLOCK};
use std::alloc::{AllocError, Global};

/// What a chain says.
#[derive(Drop)]
pub struct ChainRead {
    /// Its blocks, in order.
    pub chain: Vec<u16>,
    /// The map and the size that its entries come to.
    pub table: Table,
    /// The position that it ends with.
    pub position: u64,
    /// Its last block.
    pub tail_block: u16,
    /// The slot of the last block that its entries end before, from 3 on: the first empty one, or the number of a block's words
    /// where the block is full or sealed.
    pub tail_slot: u16,
    /// The position before the first entry of the last block.
    pub tail_base: u64,
}

/// Reads the chain of these words of an image of this geometry, which stand for a file. Only want of memory refuses it.
pub fn read_chain(alloc: Global, words: &[u64], geometry: Geometry) -> Result<ChainRead, AllocError>
    requires stands { StandForSome words.now }
    requires geometry { HasShape geometry (shape_of words.now).data_blocks (shape_of words.now).log_blocks (shape_of words.now).block_bytes }
    ensures read { IfOk result (λ read. (chain : List ℕ) → IsChain words.now (shape_of words.now) chain → IsReadOf words.now (shape_of words.now) chain read) }
    ensures unit { IfOk result (λ read. read.table.block_bytes ≡ geometry.block_bytes) }
{
    let mut chain = Vec::new(alloc);
    let mut table = Table::new(alloc, geometry.block_bytes())?;
    let mut block = HEAD_BLOCK.of(words[3]) as u16;
    let mut here = block_at(words, geometry, u64::from(block));
    chain.push(block)?;
    take_in_block(&mut table, words, geometry, here);
    while let Some(next) = next_block(here) {
        block = next as u16;
        here = block_at(words, geometry, next);
        chain.push(block)?;
        take_in_block(&mut table, words, geometry, here);
    }
    let tail_base = BLOCK_BASE.of(here[1]);
    let count = entries_in(here).len();
    Ok(ChainRead {
        chain,
        table,
        position: tail_base + count as u64,
        tail_block: block,
        tail_slot: end_slot_in(geometry, here),
        tail_base,
    })
}
