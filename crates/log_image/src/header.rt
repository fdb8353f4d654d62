//! Where the first words of an image have their fields, and what they say. A bit in no field but one named `UNNAMED` is in none.

use log_entry::Field;

/// The first word: the bytes `MADFSIM1`, the lowest first.
pub const MAGIC: u64 = 0x314d_4953_4644_414d;

/// The version of the format.
pub const VERSION: u64 = 1;

/// The second word's version of the format.
pub const HEADER_VERSION: Field = Field { low: 0, width: 16 };
/// The second word's power of 2 that is the bytes of a block: 6, 9 or 12.
pub const HEADER_BLOCK_POWER: Field = Field { low: 16, width: 16 };
/// The bits of the second word that are 0.
pub const HEADER_UNNAMED: Field = Field { low: 32, width: 32 };

/// The third word's blocks of the data area.
pub const HEADER_DATA: Field = Field { low: 0, width: 32 };
/// The third word's blocks of the log area.
pub const HEADER_LOG: Field = Field { low: 32, width: 32 };
