//! A run of a map.

/// Consecutive virtual blocks of the file that consecutive physical blocks of the image hold.
#[derive(Clone, Copy, Debug, PartialEq, Eq)]
pub struct MapRun {
    /// The first virtual block.
    pub virt: u16,
    /// The physical block that holds it, at least 1.
    pub block: u16,
    /// How many blocks the run has, 1 to 256.
    pub count: u16,
}
