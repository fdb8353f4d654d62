//! Who is told how far a run is.

/// Is told how far a run is. A run is the same whatever this does with it.
pub trait Watch {
    /// So many calls of the trace are made, of so many that it has.
    fn called(&self, made: u64, all: u64);
}

/// Nobody is told.
pub struct Unwatched;

impl Watch for Unwatched {
    fn called(&self, _made: u64, _all: u64) {}
}
