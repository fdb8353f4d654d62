//! Where bytes come from, and reading all of them.
ghost use Rattle.std.specs.Prelude.{◌≡◌, ◌+◌, ◌-◌, ◌<◌, ◌≤◌, ℕ, Bool, List, Option, length, vec_len, min, IfOk, IfErr};
ghost use Rattle.io_ends.specs.Faults.{ReadCounts, ReadAllFaults};
ghost use Rattle.io_ends.specs.Taking.{IsGivenCount, ReadTakes, ReadAllTakes, TakesAll};

use std::alloc::{AllocError, Global};

/// What one read gave.
#[derive(Clone, Copy, PartialEq, Eq, Debug)]
pub enum Got {
    /// So many bytes, at least 1, lie at the front of the buffer.
    Bytes(usize),
    /// Nothing is left.
    End,
    /// The read failed, and nothing was taken.
    Failed,
}

/// Where bytes come from.
pub trait Source {
    /// The bytes that it has left, where it tells that.
    ghost left: { Self → Option (List ℕ) };

    /// How many faults it has counted. The count never falls, and stands still at 2^64 - 1.
    ghost faults: { Self → ℕ };

    /// Whether it counts nothing but the reads that it answers by `Failed`.
    ghost exact: { Bool };

    /// Lays the next bytes, from 1 up to its length, at the front of `into`, which is not empty.
    /// What stands in `into` behind them is not promised.
    fn read(&mut self, into: &mut [u8]) -> Got
        requires { 0 < length into.old }
        ensures count { IsGivenCount result (length into.old) }
        ensures bytes { ReadTakes result (left self.old) (left self.new) into.new }
        ensures cause { ReadCounts exact result (faults self.old) (faults self.new) }
        ensures later { faults self.old ≤ faults self.new };
}

/// Why not all bytes of a source were read.
#[derive(Clone, Copy, PartialEq, Eq, Debug)]
pub enum ReadAll {
    /// A read failed.
    ReadFault,
    /// The source gave one byte more than the limit.
    TooLong,
    /// There was no memory for the bytes.
    NoMemory,
}

// The most bytes that one read is asked for.
const PIECE: usize = 65536;

/// All the bytes that `source` has left, if they are at most `limit` bytes.
///
/// Reads until the end. It stops at the first read that fails, with `ReadFault`; as soon as the
/// source gave `limit` + 1 bytes, with `TooLong`; and where the bytes find no room, with `NoMemory`.
pub fn read_all<S: Source>(alloc: Global, source: &mut S, limit: usize) -> Result<Vec<u8>, ReadAll>
    ensures fits { IfOk result (λ bytes. vec_len bytes ≤ limit) }
    ensures all { IfOk result (λ bytes. TakesAll (S.left source.old) (S.left source.new) bytes.items) }
    ensures part { IfErr result (λ cause. ReadAllTakes cause (S.left source.old) (S.left source.new) limit) }
    ensures cause { ReadAllFaults S.exact result (S.faults source.old) (S.faults source.new) }
    ensures later { S.faults source.old ≤ S.faults source.new }
{
    let mut buffer = match zeros(alloc, PIECE) {
        Ok(buffer) => buffer,
        Err(_) => return Err(ReadAll::NoMemory),
    };
    let mut bytes = Vec::new(alloc);
    loop {
        let room = limit - bytes.len();
        let window = &mut buffer[..one_more(room)];
        match source.read(window) {
            Got::Bytes(count) => {
                if count > room {
                    return Err(ReadAll::TooLong);
                }
                match bytes.extend_from_slice(&window[..count]) {
                    Ok(()) => {}
                    Err(_) => return Err(ReadAll::NoMemory),
                }
            }
            Got::End => return Ok(bytes),
            Got::Failed => return Err(ReadAll::ReadFault),
        }
    }
}

// `count` bytes, each of them 0.
fn zeros(alloc: Global, count: usize) -> Result<Vec<u8>, AllocError>
    ensures { IfOk result (λ bytes. vec_len bytes ≡ count) }
{
    vec![in alloc; 0u8; count]
}

// How many bytes to ask for where `room` are allowed: one more, so that an excess shows, and at most
// a piece.
fn one_more(room: usize) -> usize
    ensures some { 0 < result }
    ensures piece { result ≤ PIECE }
    ensures excess { result ≤ room + 1 }
{
    room.min(PIECE - 1) + 1
}
