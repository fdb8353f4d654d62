//! The shape of an image: its blocks, its three areas, and the limits that follow from them.

ghost use Rattle.std.specs.Prelude.{◌≡◌, ◌+◌, ◌<◌, ◌≤◌, IsTrue, MatchResult, None, Some};
ghost use Rattle.log_entry.specs.Shape.{is_block_bytes, words_of_block, snapshot_blocks_of, spare_blocks_of, total_of, longest_of, limit_of};

/// An area of an image. The header is block 0; the data, log and spare blocks follow it in this order.
#[derive(Clone, Copy, Debug, PartialEq, Eq)]
pub enum Area {
    /// Blocks with the bytes of the file, and indirect blocks.
    Data,
    /// Blocks of the log and of snapshots.
    Log,
    /// Blocks for a collection's snapshot, and for log blocks that an unfinished collection left in the chain.
    Spare,
}

/// Why three numbers are no shape of an image.
#[derive(Clone, Copy, Debug, PartialEq, Eq)]
pub enum BadShape {
    /// The bytes of a block are not 64, 512 or 4096.
    BadBlock { value: u32 },
    /// This area has no block.
    BadArea { area: Area },
    /// The header and the three areas have more than 65,535 blocks.
    TooManyBlocks { total: u64 },
}

/// The shape of an image: the blocks of its data and log areas, and the bytes of a block. All else follows from these.
#[derive(Clone, Copy, Debug, PartialEq, Eq)]
pub struct Geometry {
    /// Blocks of the data area, at least 1.
    pub data_blocks: u32,
    /// Blocks of the log area, at least 1.
    pub log_blocks: u32,
    /// Bytes of a block: 64, 512 or 4096.
    pub block_bytes: u32,
    ghost block_allowed: { IsTrue (is_block_bytes block_bytes) },
    ghost some_data: { 0 < data_blocks },
    ghost some_log: { 0 < log_blocks },
    ghost few_blocks: { total_of data_blocks log_blocks block_bytes ≤ 65535 },
}

impl Geometry {
    ghost use Rattle.log_entry.specs.Geometry.{shape_refusal, HasShape, count_of, first_of, area_at};

    /// The geometry of these numbers of blocks and this many bytes in a block, or the first thing that is wrong with them:
    /// the block's bytes, then an empty area (data before log), then the number of all blocks.
    pub fn new(data_blocks: u32, log_blocks: u32, block_bytes: u32) -> Result<Geometry, BadShape>
        ensures { MatchResult result
            (λ shape. (shape_refusal data_blocks log_blocks block_bytes ≡ None) × HasShape shape data_blocks log_blocks block_bytes)
            (λ why. shape_refusal data_blocks log_blocks block_bytes ≡ Some why) }
    {
        if block_bytes != 64 && block_bytes != 512 && block_bytes != 4096 {
            return Err(BadShape::BadBlock { value: block_bytes });
        }
        if data_blocks == 0 {
            return Err(BadShape::BadArea { area: Area::Data });
        }
        if log_blocks == 0 {
            return Err(BadShape::BadArea { area: Area::Log });
        }
        let words = u64::from(block_bytes / 8);
        let snapshots = u64::from(data_blocks).div_ceil(words - 3);
        let spare = 2 * (snapshots + 1) + 16;
        let total = 1 + u64::from(data_blocks) + u64::from(log_blocks) + spare;
        if total > 65535 {
            return Err(BadShape::TooManyBlocks { total });
        }
        Ok(Geometry {
            data_blocks,
            log_blocks,
            block_bytes,
        })
    }

    /// Bytes of a block: 64, 512 or 4096.
    pub fn block_bytes(&self) -> u32
        ensures value { result ≡ self.now.block_bytes }
        ensures allowed { IsTrue (is_block_bytes result) }
    {
        self.block_bytes
    }

    /// 64-bit words of a block: 8, 64 or 512.
    pub fn q(&self) -> u32
        ensures { result ≡ words_of_block self.now.block_bytes }
    {
        self.block_bytes / 8
    }

    /// Blocks of the image: the header and the three areas. At most 65,535.
    pub fn total(&self) -> u32
        ensures value { result ≡ total_of self.now.data_blocks self.now.log_blocks self.now.block_bytes }
        ensures small { result ≤ 65535 }
    {
        1 + self.data_blocks + self.log_blocks + self.spare_blocks()
    }

    /// Blocks of this area.
    pub fn count(&self, area: Area) -> u32
        ensures { result ≡ count_of self.now area }
    {
        match area {
            Area::Data => self.data_blocks,
            Area::Log => self.log_blocks,
            Area::Spare => self.spare_blocks(),
        }
    }

    /// The first block of this area.
    pub fn first(&self, area: Area) -> u32
        ensures { result ≡ first_of self.now area }
    {
        match area {
            Area::Data => 1,
            Area::Log => 1 + self.data_blocks,
            Area::Spare => 1 + self.data_blocks + self.log_blocks,
        }
    }

    /// The area of this block. None exactly for the header, block 0, and for blocks from the image's end on.
    pub fn area_of(&self, block: u32) -> Option<Area>
        ensures { result ≡ area_at self.now block }
    {
        if block == 0 || block >= self.total() {
            None
        } else if block <= self.data_blocks {
            Some(Area::Data)
        } else if block <= self.data_blocks + self.log_blocks {
            Some(Area::Log)
        } else {
            Some(Area::Spare)
        }
    }

    /// The most blocks that one write may touch: 7, 63 or 256.
    pub fn longest(&self) -> u32
        ensures { result ≡ longest_of self.now.block_bytes }
    {
        (self.block_bytes / 8 - 1).min(256)
    }

    /// The most bytes that the file may have: 65,536 blocks.
    pub fn limit(&self) -> u64
        ensures { result ≡ limit_of self.now.block_bytes }
    {
        65536 * u64::from(self.block_bytes)
    }

    /// The most snapshot blocks that a map of all data blocks takes.
    pub fn snapshot_blocks(&self) -> u32
        ensures { result ≡ snapshot_blocks_of self.now.data_blocks self.now.block_bytes }
    {
        self.data_blocks.div_ceil(self.block_bytes / 8 - 3)
    }

    fn spare_blocks(&self) -> u32
        ensures { result ≡ spare_blocks_of self.now.data_blocks self.now.block_bytes }
    {
        2 * (self.snapshot_blocks() + 1) + 16
    }
}
