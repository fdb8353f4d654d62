//! A source over std's readers and a sink over its writers. They tell no content, as none is known of
//! a file or a standard stream; only their counts of faults bind them.
ghost use Rattle.std.specs.Prelude.{true, ◌≡◌, ◌<◌, ◌≤◌, ℕ, List, None, IfSome, MatchOption, length, take};
ghost use Rattle.std.specs.Io.KnownBytes.{Appends};
ghost use Rattle.io_ends.specs.Faults.{ReadCounts, WriteCounts};
ghost use Rattle.io_ends.specs.Taking.{IsGivenCount, ReadTakes};
ghost use Rattle.io_ends.specs.Giving.{IsTakenCount, WriteGives};
ghost use Rattle.io_ends.specs.Standard.{ReaderLoses, WriterGains, AppendsPrefix};

use crate::sinks::{Put, Sink};
use crate::sources::{Got, Source};
use std::io::{Read, Write};

/// A source over a reader. It counts each `Err` as a fault, an interrupted read too.
#[derive(Drop)]
pub struct FromRead<R> {
    reader: R,
    failed: u64,
}

impl<R: Read> FromRead<R> {
    /// A source that has counted no fault.
    pub fn new(reader: R) -> FromRead<R>
        ensures { ⟦<FromRead<R> as Source>⟧.faults result ≡ 0 }
    {
        FromRead { reader, failed: 0 }
    }
}

impl<R: Read> Source for FromRead<R> {
    ghost left = { λ _. None };

    ghost faults = { λ source. source.failed };

    ghost exact = { true };

    fn read(&mut self, into: &mut [u8]) -> Got
        requires { 0 < length into.old }
        ensures count { IsGivenCount result (length into.old) }
        ensures bytes { ReadTakes result None None into.new }
        ensures cause { ReadCounts true result self.old.failed self.new.failed }
        ensures later { self.old.failed ≤ self.new.failed }
        ensures reader { ReaderLoses result (R.remaining self.old.reader) (R.remaining self.new.reader) into.new }
    {
        match self.reader.read(into) {
            Ok(0) => Got::End,
            Ok(count) => Got::Bytes(count),
            Err(_) => {
                self.failed = self.failed.saturating_add(1);
                Got::Failed
            }
        }
    }
}

/// A sink over a writer, which it flushes in each call. It counts as a fault each `Err`, of a write or
/// of a flush, and each write that takes nothing.
///
/// Where a flush fails after its write took bytes, nobody can say which of them came through. The sink
/// tells no content, so its `Failed` claims nothing of them; it never takes such bytes for written.
#[derive(Drop)]
pub struct ToWrite<W> {
    writer: W,
    failed: u64,
}

impl<W: Write> ToWrite<W> {
    /// A sink that has counted no fault.
    pub fn new(writer: W) -> ToWrite<W>
        ensures { ⟦<ToWrite<W> as Sink>⟧.faults result ≡ 0 }
    {
        ToWrite { writer, failed: 0 }
    }
}

impl<W: Write> Sink for ToWrite<W> {
    ghost written = { λ _. None };

    ghost faults = { λ sink. sink.failed };

    ghost exact = { true };

    fn write(&mut self, piece: &[u8]) -> Put
        requires { 0 < length piece.now }
        ensures count { IsTakenCount result (length piece.now) }
        ensures bytes { WriteGives result None None piece.now }
        ensures cause { WriteCounts true result self.old.failed self.new.failed }
        ensures later { self.old.failed ≤ self.new.failed }
        ensures writer { WriterGains result (W.contents self.old.writer) (W.contents self.new.writer) piece.now }
    {
        match flushed_write(&mut self.writer, piece) {
            Some(count) => Put::Took(count),
            None => {
                self.failed = self.failed.saturating_add(1);
                Put::Failed
            }
        }
    }
}

// How many bytes were written and flushed, at least 1; `None` where the write failed or took nothing,
// and where the flush failed.
fn flushed_write<W: Write>(writer: &mut W, piece: &[u8]) -> Option<usize>
    ensures count { IfSome result (λ count. (0 < count) × (count ≤ length piece.now)) }
    ensures bytes { MatchOption result (AppendsPrefix (W.contents writer.old) (W.contents writer.new) piece.now)
        (λ count. Appends (W.contents writer.old) (W.contents writer.new) (take count piece.now)) }
{
    let count = writer.write(piece).ok()?;
    if count == 0 {
        return None;
    }
    writer.flush().ok()?;
    Some(count)
}
