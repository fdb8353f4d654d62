//! What the walk of a chain has read so far.

use block_table::Table;
use log_entry::Geometry;
use std::alloc::{AllocError, Global};

/// What the blocks read so far come to.
#[derive(Drop)]
pub struct Reading {
    /// The blocks of the chain, in order.
    pub chain: Vec<u16>,
    /// Whether a log block is among them.
    pub in_logs: bool,
    /// The number of entries since the file was made; while a snapshot is read, the snapshot's base.
    pub position: u64,
    /// The map and the size that the entries come to.
    pub table: Table,
    /// One bit for each block of the image, 64 to a word: block 0, the blocks of the chain, and those that its entries name.
    pub taken: Vec<u64>,
}

impl Reading {
    ghost use Rattle.std.specs.Prelude.{◌≡◌, ℕ, ◌≤◌, ◌*◌, ◌∷◌, [], length, slice_index, IfOk};
    ghost use Rattle.log_image.specs.Image.{total, shape_by};
    ghost use Rattle.opening_rules.specs.BlockChecks.{start};
    ghost use Rattle.log_image.specs.Taken.{HasBits};
    ghost use Rattle.recovery.specs.Readings.{ReadsUpTo};

    /// A reading of no block, with an empty map. Only want of memory refuses it.
    pub fn new(alloc: Global, geometry: Geometry) -> Result<Reading, AllocError>
        ensures { IfOk result (λ reading. ReadsUpTo (shape_by geometry) reading start) }
    {
        let taken = Reading::only_the_header(alloc, geometry)?;
        let table = Table::new(alloc, geometry.block_bytes())?;
        Ok(Reading {
            chain: Vec::new(alloc),
            in_logs: false,
            position: 0,
            table,
            taken,
        })
    }

    /// The bitmap.
    pub fn into_taken(self) -> Vec<u64>
        ensures { result ≡ self.taken }
    {
        self.taken
    }

    /// A bitmap in which only block 0 is taken.
    fn only_the_header(alloc: Global, geometry: Geometry) -> Result<Vec<u64>, AllocError>
        ensures { IfOk result (λ taken. HasBits (shape_by geometry) taken.items []) }
    {
        let mut taken = Reading::no_bits(alloc, geometry.total().div_ceil(64) as usize)?;
        taken[0] = 1;
        Ok(taken)
    }

    /// A bitmap of this many words in which no block is taken.
    fn no_bits(alloc: Global, count: usize) -> Result<Vec<u64>, AllocError>
        ensures words { IfOk result (λ taken. (at : ℕ) → slice_index taken.items at ≡ 0) }
        ensures len { IfOk result (λ taken. length taken.items ≡ count) }
    {
        let taken = vec![in alloc; 0u64; count]?;
        Ok(taken)
    }
}
