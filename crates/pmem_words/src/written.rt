//! How a write ended.

use log_entry::WriteRefusal;

/// What the machine of a write or an append ends with.
#[derive(Clone, Copy, Debug, PartialEq, Eq)]
pub struct Written {
    /// The position of the write, or the one walked to where it was refused.
    pub position: u64,
    /// The byte of the file at which it begins.
    pub at: u64,
    /// Entry exchanges that it lost on the way; it stays at 4,294,967,295.
    pub lost: u32,
    /// Why nothing was written; none where it was.
    pub refusal: Option<WriteRefusal>,
}
