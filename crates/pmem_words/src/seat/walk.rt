//! What was walked: the position, the map and the size there, and the tail; and how far a snapshot was read.

ghost use Rattle.std.specs.Prelude.{◌≡◌, ℕ, ◌+◌, ◌<◌, ◌≤◌, ◌++◌, ◌∷◌, [], length, max};
ghost use Rattle.block_table.specs.FileMap.{block_at};
ghost use Rattle.block_table.specs.declared.TheConstants.{VIRTUAL_BLOCKS, PHYSICAL_BLOCKS, LONGEST_RUN};
ghost use Rattle.pmem_words.specs.Maps.{map_at, unmapped, with_run};
ghost use Rattle.pmem_words.specs.Seats.{kept_room};

use super::SeatState;
use crate::keeps::KeptWord;
use block_table::Table;

impl SeatState {
    /// The position walked to, below 2^40.
    pub fn position(&self) -> u64
        ensures { result ≡ self.now.walk.position }
    {
        self.position
    }

    /// Sets the position walked to.
    pub fn set_position(&mut self, position: u64)
        ensures { self.new ≡ record self.old { walk = record self.old.walk { position = position } } }
    {
        self.position = position;
    }

    /// The map and the size at the position.
    pub fn table(&self) -> &Table
        ensures map { (v : ℕ) → v < VIRTUAL_BLOCKS → block_at result.now v ≡ map_at self.now.walk.map v }
        ensures size { result.now.size ≡ self.now.walk.size }
        ensures unit { result.now.block_bytes ≡ self.now.geometry.block_bytes }
        ensures len { length self.now.walk.map ≡ VIRTUAL_BLOCKS }
    {
        &self.table
    }

    /// The physical block that holds this virtual block; none where it is unmapped.
    pub fn block(&self, virt: u16) -> Option<u16>
        ensures { result ≡ map_at self.now.walk.map virt }
    {
        self.table.block(virt)
    }

    /// The file's size at the position, in bytes.
    pub fn size(&self) -> u64
        ensures { result ≡ self.now.walk.size }
    {
        self.table.size()
    }

    /// Unmaps every virtual block and sets the size, in bytes.
    pub fn reset_table(&mut self, size: u64)
        ensures { self.new ≡ record self.old { walk = record self.old.walk { map = unmapped; size = size } } }
    {
        self.table.reset(size);
    }

    /// Maps `count` virtual blocks from `virt` on, 1 to 256 of them, to as many physical blocks from `block` on.
    pub fn apply(&mut self, virt: u16, block: u16, count: u16)
        requires some { 1 ≤ count }
        requires cut { count ≤ LONGEST_RUN }
        requires taken { 1 ≤ block }
        requires in_file { virt + count ≤ VIRTUAL_BLOCKS }
        requires in_image { block + count ≤ PHYSICAL_BLOCKS }
        ensures { self.new ≡ record self.old { walk = record self.old.walk { map = with_run virt block count self.old.walk.map } } }
    {
        self.table.apply(virt, block, count);
    }

    /// Makes the size the larger of the present one and `end`, in bytes.
    pub fn grow(&mut self, end: u64)
        ensures { self.new ≡ record self.old { walk = record self.old.walk { size = max self.old.walk.size end } } }
    {
        self.table.grow(end);
    }

    /// The block of the tail; 0 before the first walk.
    pub fn tail_block(&self) -> u16
        ensures { result ≡ self.now.walk.tail_block }
    {
        self.tail_block
    }

    /// Sets the block of the tail.
    pub fn set_tail_block(&mut self, tail_block: u16)
        ensures { self.new ≡ record self.old { walk = record self.old.walk { tail_block = tail_block } } }
    {
        self.tail_block = tail_block;
    }

    /// The slot of the tail, 3 to q; it is q at a block's end.
    pub fn tail_slot(&self) -> u16
        ensures { result ≡ self.now.walk.tail_slot }
    {
        self.tail_slot
    }

    /// Sets the slot of the tail.
    pub fn set_tail_slot(&mut self, tail_slot: u16)
        ensures { self.new ≡ record self.old { walk = record self.old.walk { tail_slot = tail_slot } } }
    {
        self.tail_slot = tail_slot;
    }

    /// The base of the tail's block: the number of entries before it, below 2^40.
    pub fn tail_base(&self) -> u64
        ensures { result ≡ self.now.walk.tail_base }
    {
        self.tail_base
    }

    /// Sets the base of the tail's block.
    pub fn set_tail_base(&mut self, tail_base: u64)
        ensures { self.new ≡ record self.old { walk = record self.old.walk { tail_base = tail_base } } }
    {
        self.tail_base = tail_base;
    }

    /// The position of the snapshot of `generation`, where the seat is `ready`.
    pub fn snapshot_base(&self) -> u64
        ensures { result ≡ self.now.walk.snapshot_base }
    {
        self.snapshot_base
    }

    /// Sets the position of the snapshot.
    pub fn set_snapshot_base(&mut self, snapshot_base: u64)
        ensures { self.new ≡ record self.old { walk = record self.old.walk { snapshot_base = snapshot_base } } }
    {
        self.snapshot_base = snapshot_base;
    }

    /// The first log block of the chain of `generation`, the number of a block below 65,536; 0 where it is not known.
    pub fn first_log(&self) -> u16
        ensures { result ≡ self.now.walk.first_log }
    {
        self.first_log
    }

    /// Sets the first log block.
    pub fn set_first_log(&mut self, first_log: u16)
        ensures { self.new ≡ record self.old { walk = record self.old.walk { first_log = first_log } } }
    {
        self.first_log = first_log;
    }

    /// Whether the present call, while `ready`, found the log's end at this position, or won its exchange there.
    pub fn at_tail(&self) -> bool
        ensures { result ≡ self.now.walk.at_tail }
    {
        self.at_tail
    }

    /// Sets whether the present call stands at the log's end.
    pub fn set_at_tail(&mut self, at_tail: bool)
        ensures { self.new ≡ record self.old { walk = record self.old.walk { at_tail = at_tail } } }
    {
        self.at_tail = at_tail;
    }

    /// Whether, for `generation`, the kept tail was accepted or the snapshot, where there is one, was read whole.
    pub fn ready(&self) -> bool
        ensures { result ≡ self.now.walk.ready }
    {
        self.ready
    }

    /// Sets whether the map is that of `generation` up to the position.
    pub fn set_ready(&mut self, ready: bool)
        ensures { self.new ≡ record self.old { walk = record self.old.walk { ready = ready } } }
    {
        self.ready = ready;
    }

    /// Whether a snapshot is being read into the table.
    pub fn reading(&self) -> bool
        ensures { result ≡ self.now.walk.reading }
    {
        self.reading
    }

    /// Sets whether a snapshot is being read.
    pub fn set_reading(&mut self, reading: bool)
        ensures { self.new ≡ record self.old { walk = record self.old.walk { reading = reading } } }
    {
        self.reading = reading;
    }

    /// While `reading`, the generation whose snapshot it is. The pin may move on before the reading does.
    pub fn reading_generation(&self) -> u32
        ensures { result ≡ self.now.walk.reading_generation }
    {
        self.reading_generation
    }

    /// Sets the generation whose snapshot is read.
    pub fn set_reading_generation(&mut self, reading_generation: u32)
        ensures { self.new ≡ record self.old { walk = record self.old.walk { reading_generation = reading_generation } } }
    {
        self.reading_generation = reading_generation;
    }

    /// While `reading`, the snapshot block come to. This stays until the reading ends or begins anew. While `ready`, the one come
    /// to on the way to the first log block; 0 where none.
    pub fn reading_block(&self) -> u16
        ensures { result ≡ self.now.walk.reading_block }
    {
        self.reading_block
    }

    /// Sets the snapshot block come to.
    pub fn set_reading_block(&mut self, reading_block: u16)
        ensures { self.new ≡ record self.old { walk = record self.old.walk { reading_block = reading_block } } }
    {
        self.reading_block = reading_block;
    }

    /// While `reading`, the slot of that block come to.
    pub fn reading_slot(&self) -> u16
        ensures { result ≡ self.now.walk.reading_slot }
    {
        self.reading_slot
    }

    /// Sets the slot come to.
    pub fn set_reading_slot(&mut self, reading_slot: u16)
        ensures { self.new ≡ record self.old { walk = record self.old.walk { reading_slot = reading_slot } } }
    {
        self.reading_slot = reading_slot;
    }

    /// The place of that block in the snapshot: the blocks gone over so far, fewer than the blocks of an image.
    pub fn reading_place(&self) -> u16
        ensures { result ≡ self.now.walk.reading_place }
    {
        self.reading_place
    }

    /// Sets the place of the snapshot block come to.
    pub fn set_reading_place(&mut self, reading_place: u16)
        ensures { self.new ≡ record self.old { walk = record self.old.walk { reading_place = reading_place } } }
    {
        self.reading_place = reading_place;
    }

    /// The words of the snapshot, log or indirect block at hand that were loaded and are not yet taken in, at most 2q.
    pub fn kept(&self) -> &[KeptWord]
        ensures { result.now ≡ self.now.walk.kept }
    {
        self.kept.as_slice()
    }

    /// Adds a word that was loaded. It needs fewer than 2q kept ones.
    pub fn keep(&mut self, word: KeptWord)
        requires { length self.old.walk.kept < kept_room self.old.geometry }
        ensures { self.new ≡ record self.old { walk = record self.old.walk { kept = self.old.walk.kept ++ word ∷ [] } } }
    {
        self.kept.push_reserved(word);
    }

    /// Keeps no word any more.
    pub fn clear_kept(&mut self)
        ensures { self.new ≡ record self.old { walk = record self.old.walk { kept = [] } } }
    {
        self.kept.clear();
    }
}
