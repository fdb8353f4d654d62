//! Where bytes go to, and writing all of them.
ghost use Rattle.std.specs.Prelude.{◌≡◌, ◌-◌, ◌<◌, ◌≤◌, ℕ, Bool, List, Option, length, IsOk, OnOk, OnErr};
ghost use Rattle.io_ends.specs.Faults.{WriteCounts, WriteAllFaults};
ghost use Rattle.io_ends.specs.Giving.{IsTakenCount, WriteGives, Gives, GivesPrefix};

/// What one write did.
#[derive(Clone, Copy, PartialEq, Eq, Debug)]
pub enum Put {
    /// So many bytes, at least 1, of the front of the piece were appended.
    Took(usize),
    /// The write failed, and nothing was appended.
    Failed,
    /// There was no memory for the bytes, and nothing was appended.
    NoMemory,
}

/// Where bytes go to.
pub trait Sink {
    /// The bytes that were written to it, where it tells that.
    ghost written: { Self → Option (List ℕ) };

    /// How many faults it has counted. The count never falls, and stands still at 2^64 - 1.
    ghost faults: { Self → ℕ };

    /// Whether it counts nothing but the writes that it answers by `Failed`.
    ghost exact: { Bool };

    /// Appends the first bytes of `piece`, from 1 up to all of them. `piece` is not empty.
    fn write(&mut self, piece: &[u8]) -> Put
        requires { 0 < length piece.now }
        ensures count { IsTakenCount result (length piece.now) }
        ensures bytes { WriteGives result (written self.old) (written self.new) piece.now }
        ensures cause { WriteCounts exact result (faults self.old) (faults self.new) }
        ensures later { faults self.old ≤ faults self.new };
}

/// Why not all bytes were written.
#[derive(Clone, Copy, PartialEq, Eq, Debug)]
pub enum WriteAll {
    /// A write failed.
    WriteFault,
    /// The sink had no memory for the bytes.
    NoMemory,
}

/// Writes all of `bytes` to `sink`, and nothing where they are none.
///
/// It stops at the first write that fails, with `WriteFault`, or that finds no memory, with
/// `NoMemory`; a first part of the bytes was then appended.
pub fn write_all<K: Sink>(sink: &mut K, bytes: &[u8]) -> Result<(), WriteAll>
    ensures all { OnOk result (Gives (K.written sink.old) (K.written sink.new) bytes.now) }
    ensures part { OnErr result (GivesPrefix (K.written sink.old) (K.written sink.new) bytes.now) }
    ensures cause { WriteAllFaults K.exact result (K.faults sink.old) (K.faults sink.new) }
    ensures later { K.faults sink.old ≤ K.faults sink.new }
    ensures none { length bytes.now ≡ 0 → IsOk result × (sink.new ≡ sink.old) }
{
    let mut at = 0;
    while at < bytes.len() {
        match sink.write(&bytes[at..]) {
            Put::Took(count) => at += count,
            Put::Failed => return Err(WriteAll::WriteFault),
            Put::NoMemory => return Err(WriteAll::NoMemory),
        }
    }
    Ok(())
}
