//! A source and a sink in memory, which never fail.
ghost use Rattle.std.specs.Prelude.{true, ◌≡◌, ℕ, List, [], Some, length, take, min};

use crate::sinks::{Put, Sink};
use crate::sources::{Got, Source};
use std::alloc::Global;
use std::marker::Model;

/// A source of given bytes. Contracts see the bytes that it has left.
#[derive(Drop)]
pub struct Bytes {
    all: Vec<u8>,
    at: usize,
}

impl Model for Bytes {
    ghost use Rattle.std.specs.Prelude.{ℕ, List, drop, ◌≤◌, vec_len};

    ghost Value = { List ℕ };

    ghost view = { λ source. drop source.at source.all.items };

    ghost invariant = { λ source. source.at ≤ vec_len source.all };
}

impl Bytes {
    /// A source that has all of `bytes` left.
    pub fn new(bytes: Vec<u8>) -> Bytes
        ensures { result ≡ bytes.items }
    {
        Bytes { all: bytes, at: 0 }
    }
}

impl Source for Bytes {
    ghost left = { λ source. Some source };

    ghost faults = { λ _. 0 };

    ghost exact = { true };

    fn read(&mut self, into: &mut [u8]) -> Got {
        let count = lay(&self.all[self.at..], into);
        if count == 0 {
            return Got::End;
        }
        self.at += count;
        Got::Bytes(count)
    }
}

// Copies the first bytes of `from` to the front of `into`, as many as both have room for, and says
// how many they are.
fn lay(from: &[u8], into: &mut [u8]) -> usize
    ensures count { result ≡ min (length from.now) (length into.old) }
    ensures laid { take result into.new ≡ take result from.now }
{
    let count = from.len().min(into.len());
    into[..count].copy_from_slice(&from[..count]);
    count
}

/// A sink that keeps what was written to it. Contracts see the bytes that it took.
#[derive(Drop)]
pub struct Gathered {
    taken: Vec<u8>,
}

impl Model for Gathered {
    ghost use Rattle.std.specs.Prelude.{ℕ, List};

    ghost Value = { List ℕ };

    ghost view = { λ sink. sink.taken.items };
}

impl Gathered {
    /// A sink that took nothing yet. It takes no memory before the first write.
    pub fn new(alloc: Global) -> Gathered
        ensures { result ≡ [] }
    {
        Gathered {
            taken: Vec::new(alloc),
        }
    }

    /// The bytes that it took.
    pub fn bytes(&self) -> &[u8]
        ensures { result.now ≡ self.now }
    {
        self.taken.as_slice()
    }

    /// The bytes that it took, without a copy.
    pub fn into_bytes(self) -> Vec<u8>
        ensures { result.items ≡ self }
    {
        self.taken
    }
}

impl Sink for Gathered {
    ghost written = { λ sink. Some sink };

    ghost faults = { λ _. 0 };

    ghost exact = { true };

    fn write(&mut self, piece: &[u8]) -> Put {
        match self.taken.extend_from_slice(piece) {
            Ok(()) => Put::Took(piece.len()),
            Err(_) => Put::NoMemory,
        }
    }
}
