//! Where each word of an image has its fields, and the numbers of the kinds. A bit in no field but one named `UNNAMED` is in none.

use crate::fields::Field;

/// The kind of an entry.
pub const ENTRY_KIND: Field = Field { low: 0, width: 2 };
/// The kind of a slot that holds no entry yet.
pub const EMPTY: u64 = 0;
/// The kind of an entry that names its blocks itself.
pub const DIRECT: u64 = 1;
/// The kind of an entry that names a block with the runs of its blocks.
pub const INDIRECT: u64 = 2;
/// The kind of a seal, after which its block takes no entry.
pub const SEAL: u64 = 3;
/// The bits of an empty slot or a seal that are 0.
pub const KIND_UNNAMED: Field = Field { low: 2, width: 62 };

/// A direct entry's first virtual block.
pub const DIRECT_VIRT: Field = Field { low: 2, width: 16 };
/// A direct entry's first physical block.
pub const DIRECT_BLOCK: Field = Field { low: 18, width: 16 };
/// A direct entry's count of blocks, less 1.
pub const DIRECT_COUNT: Field = Field { low: 34, width: 8 };
/// A direct entry's bytes of its last block that the file does not reach.
pub const DIRECT_LEFTOVER: Field = Field { low: 42, width: 12 };
/// The bits of a direct entry that are 0.
pub const DIRECT_UNNAMED: Field = Field { low: 54, width: 10 };

/// An indirect entry's physical block with the runs.
pub const INDIRECT_BLOCK: Field = Field { low: 2, width: 16 };
/// The bits of an indirect entry that are 0.
pub const INDIRECT_UNNAMED: Field = Field { low: 18, width: 46 };

/// A head's first block of the chain.
pub const HEAD_BLOCK: Field = Field { low: 0, width: 16 };
/// The bits of a head that are 0.
pub const HEAD_UNNAMED: Field = Field { low: 16, width: 16 };
/// A head's generation.
pub const HEAD_GENERATION: Field = Field { low: 32, width: 32 };

/// The position at which a chain block begins.
pub const BLOCK_BASE: Field = Field { low: 0, width: 40 };
/// The bits of a chain block's word that are 0.
pub const BLOCK_UNNAMED: Field = Field { low: 40, width: 22 };
/// The kind of a chain block.
pub const BLOCK_KIND: Field = Field { low: 62, width: 2 };
/// The kind of a log block.
pub const LOG: u64 = 1;
/// The kind of a snapshot block.
pub const SNAPSHOT: u64 = 2;

/// A snapshot's bytes of the file.
pub const SNAPSHOT_SIZE: Field = Field { low: 0, width: 48 };
/// A snapshot block's count of entries.
pub const SNAPSHOT_COUNT: Field = Field { low: 48, width: 16 };

/// An indirect block's first virtual block.
pub const RUNS_VIRT: Field = Field { low: 0, width: 16 };
/// An indirect block's count of blocks.
pub const RUNS_COUNT: Field = Field { low: 16, width: 16 };
/// An indirect block's count of runs.
pub const RUNS_RUNS: Field = Field { low: 32, width: 16 };
/// An indirect block's bytes of its last block that the file does not reach.
pub const RUNS_LEFTOVER: Field = Field { low: 48, width: 12 };
/// The bits of an indirect block's first word that are 0.
pub const RUNS_UNNAMED: Field = Field { low: 60, width: 4 };

/// A run's first physical block.
pub const RUN_BLOCK: Field = Field { low: 0, width: 16 };
/// A run's count of blocks.
pub const RUN_COUNT: Field = Field { low: 16, width: 16 };
/// The bits of a run that are 0.
pub const RUN_UNNAMED: Field = Field { low: 32, width: 32 };
