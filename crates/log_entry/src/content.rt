//! The bytes of one call: those that it writes, or those that it read.

ghost use Rattle.std.specs.Prelude.{◌≡◌, List, ℕ, length, IfOk};

use std::alloc::{AllocError, Global};
use std::marker::Model;

/// Some bytes, in order. Contracts see them as the list.
#[derive(Drop, Debug)]
pub struct Blob {
    bytes: Vec<u8>,
}

impl Model for Blob {
    ghost Value = { List ℕ };

    ghost view = { λ blob. blob.bytes.items };
}

impl Blob {
    /// The bytes of a vector, which takes no memory.
    pub fn new(bytes: Vec<u8>) -> Blob
        ensures { result ≡ bytes.items }
    {
        Blob { bytes }
    }

    /// The bytes.
    pub fn bytes(&self) -> &[u8]
        ensures { result.now ≡ self.now }
    {
        self.bytes.as_slice()
    }

    /// The same bytes once more. Only want of memory refuses it.
    pub fn copy(&self, alloc: Global) -> Result<Blob, AllocError>
        ensures { IfOk result (λ copy. copy ≡ self.now) }
    {
        let bytes = Vec::from_slice(alloc, self.bytes.as_slice())?;
        Ok(Blob { bytes })
    }
}
