//! Why opening gives no image.

use opening_rules::BadImage;

/// Why opening gave no image.
#[derive(Clone, Copy, Debug, PartialEq, Eq)]
pub enum OpenRefusal {
    /// A condition holds of the image; this is the first.
    Bad(BadImage),
    /// Want of memory.
    NoMemory,
}
