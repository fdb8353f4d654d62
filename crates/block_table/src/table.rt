//! The table of one seat.

ghost use Rattle.std.specs.Prelude.{◌≡◌, ◌≢◌, ℕ, ◌+◌, ◌-◌, ◌<◌, ◌≤◌, ◌↔◌, max, if◌then◌else◌, List, [], ◌∷◌, ◌++◌, length, IfOk, IfSome, IsNone, None, Some};
ghost use Rattle.block_table.specs.declared.TheConstants.{PHYSICAL_BLOCKS, LONGEST_RUN};

use super::map_run::MapRun;
use super::{VIRTUAL_BLOCKS, places};
use std::alloc::{AllocError, Global};
use std::marker::Model;

/// The map and the size that one seat keeps. After `new` no call refuses or takes memory.
#[derive(Drop)]
pub struct Table {
    block_bytes: u32,
    size: u64,
    blocks: Vec<u16>,
}

impl Model for Table {
    ghost use Rattle.std.specs.Prelude.{◌≡◌, vec_len};
    ghost use Rattle.block_table.specs.FileMap.{FileMap};
    ghost use Rattle.block_table.specs.declared.TheConstants.{VIRTUAL_BLOCKS};

    ghost Value = { FileMap };

    ghost view = { λ t. record { block_bytes = t.block_bytes; size = t.size; blocks = t.blocks.items } };

    ghost invariant = { λ t. vec_len t.blocks ≡ VIRTUAL_BLOCKS };
}

impl Table {
    ghost use Rattle.block_table.specs.FileMap.{FileMap, block_at, mapped_count, is_in_range};
    ghost use Rattle.block_table.specs.Calls.{TableCall, Reset, Apply, Grow, IsTableOf};
    ghost use Rattle.block_table.specs.Runs.{IsUnmappedFrom, IsNextRun};

    /// An empty map and size 0, with room for every virtual block, for a file of blocks of `block_bytes` bytes.
    pub fn new(alloc: Global, block_bytes: u32) -> Result<Table, AllocError>
        ensures unmapped { IfOk result (λ table. (v : ℕ) → block_at table v ≡ None) }
        ensures size { IfOk result (λ table. table.size ≡ 0) }
        ensures unit { IfOk result (λ table. table.block_bytes ≡ block_bytes) }
        ensures meaning { IfOk result (IsTableOf []) }
    {
        let blocks = places::unmapped_places(alloc, VIRTUAL_BLOCKS)?;
        Ok(Table {
            block_bytes,
            size: 0,
            blocks,
        })
    }

    /// Unmaps every virtual block and sets the size, in bytes.
    pub fn reset(&mut self, size: u64)
        ensures unmapped { (v : ℕ) → block_at self.new v ≡ None }
        ensures size { self.new.size ≡ size }
        ensures unit { self.new.block_bytes ≡ self.old.block_bytes }
        ensures meaning { (calls : List TableCall) → IsTableOf calls self.old → IsTableOf (calls ++ Reset size ∷ []) self.new }
    {
        places::unmap_all(&mut self.blocks);
        self.size = size;
    }

    /// Maps `count` virtual blocks from `virt` on, 1 to 256 of them, to as many physical blocks from `block` on.
    pub fn apply(&mut self, virt: u16, block: u16, count: u16)
        requires some { 1 ≤ count }
        requires cut { count ≤ LONGEST_RUN }
        requires taken { 1 ≤ block }
        requires in_file { virt + count ≤ VIRTUAL_BLOCKS }
        requires in_image { block + count ≤ PHYSICAL_BLOCKS }
        ensures blocks { (v : ℕ) → block_at self.new v ≡ (if is_in_range virt count v then Some (block + (v - virt)) else block_at self.old v) }
        ensures size { self.new.size ≡ self.old.size }
        ensures unit { self.new.block_bytes ≡ self.old.block_bytes }
        ensures meaning { (calls : List TableCall) → IsTableOf calls self.old → IsTableOf (calls ++ Apply virt block count ∷ []) self.new }
    {
        places::map_blocks(&mut self.blocks, virt, block, count);
    }

    /// Makes the size the larger of the present one and `end`, in bytes.
    pub fn grow(&mut self, end: u64)
        ensures grown { self.new ≡ record self.old { size = max self.old.size end } }
        ensures meaning { (calls : List TableCall) → IsTableOf calls self.old → IsTableOf (calls ++ Grow end ∷ []) self.new }
    {
        self.size = self.size.max(end);
    }

    /// The physical block that holds this virtual block; `None` exactly where it is unmapped.
    pub fn block(&self, virt: u16) -> Option<u16>
        ensures { result ≡ block_at self.now virt }
    {
        let block = self.blocks[virt as usize];
        if block == 0 { None } else { Some(block) }
    }

    /// The bytes of a block, as given to `new`.
    pub fn block_bytes(&self) -> u32
        ensures { result ≡ self.now.block_bytes }
    {
        self.block_bytes
    }

    /// The file's size in bytes.
    pub fn size(&self) -> u64
        ensures { result ≡ self.now.size }
    {
        self.size
    }

    /// How many virtual blocks are mapped, 0 to 65,536.
    pub fn mapped(&self) -> u32
        ensures count { result ≡ mapped_count self.now }
        ensures places { length self.now.blocks ≡ VIRTUAL_BLOCKS }
        ensures most { result ≤ VIRTUAL_BLOCKS }
    {
        places::mapped_places(&self.blocks) as u32
    }

    /// The first longest run at or after virtual block `from`, cut at 256 blocks: it begins at the first mapped virtual block
    /// there. `None` exactly where nothing from there on is mapped, so from 65,536 on.
    pub fn next_run(&self, from: u32) -> Option<MapRun>
        ensures none { IsNone result ↔ IsUnmappedFrom self.now from }
        ensures run { IfSome result (IsNextRun self.now from) }
    {
        let virt = places::first_mapped(&self.blocks, from as usize)?;
        let count = places::run_count(&self.blocks, virt);
        Some(MapRun {
            virt: virt as u16,
            block: self.blocks[virt],
            count: count as u16,
        })
    }
}
