//! Each call with ample memory, and a fault, an excess and a short piece in mid-stream.
use crate::{
    Bytes, FailingBytes, FailingGathered, FromRead, Gathered, Got, Put, ReadAll, Sink, Source,
    ToWrite, Words, WriteAll, read_all, write_all,
};
use std::io;
use std::io::{Read, Write};
use std::test::Fail;

// One byte longer than two pieces of a read to the end.
const LONG: usize = 131073;

#[test]
fn reads_all_of_bytes(rt: HostRuntime) -> Result<(), Fail> {
    for len in [0, 1, LONG] {
        let mut source = Bytes::new(vec![in rt.alloc(); 7u8; len]?);
        let read = read_all(rt.alloc(), &mut source, len);
        assert!(rt; read == Ok(vec![in rt.alloc(); 7u8; len]?), "{len} bytes");
    }
    let mut whole = Bytes::new([1, 2, 3].to_vec(rt.alloc())?);
    assert!(rt; read_all(rt.alloc(), &mut whole, usize::MAX) == Ok([1, 2, 3].to_vec(rt.alloc())?));
    Ok(())
}

#[test]
fn stops_past_the_limit(rt: HostRuntime) -> Result<(), Fail> {
    let mut source = Bytes::new([1, 2, 3, 4, 5].to_vec(rt.alloc())?);
    assert!(rt; read_all(rt.alloc(), &mut source, 2) == Err(ReadAll::TooLong));
    assert!(rt; read_all(rt.alloc(), &mut source, 2) == Ok([4, 5].to_vec(rt.alloc())?));
    Ok(())
}

#[test]
fn tells_a_fault_from_an_end(rt: HostRuntime) -> Result<(), Fail> {
    let fails = [2, 3].to_vec(rt.alloc())?;
    let mut source = FailingBytes::new(vec![in rt.alloc(); 7u8; LONG]?, fails);
    assert!(rt; read_all(rt.alloc(), &mut source, LONG) == Err(ReadAll::ReadFault));
    assert!(rt; read_all(rt.alloc(), &mut source, LONG) == Err(ReadAll::ReadFault));
    let rest = vec![in rt.alloc(); 7u8; LONG - 65536]?;
    assert!(rt; read_all(rt.alloc(), &mut source, LONG) == Ok(rest));
    Ok(())
}

#[test]
fn gathers_but_at_the_given_writes(rt: HostRuntime) -> Result<(), Fail> {
    let mut sink = Gathered::new(rt.alloc());
    assert_eq!(rt; write_all(&mut sink, &[1, 2]), Ok(()));
    assert_eq!(rt; sink.bytes(), [1, 2].as_slice());
    let mut failing = FailingGathered::new(rt.alloc(), [2].to_vec(rt.alloc())?);
    assert_eq!(rt; write_all(&mut failing, &[1, 2]), Ok(()));
    assert_eq!(rt; write_all(&mut failing, &[3]), Err(WriteAll::WriteFault));
    assert_eq!(rt; write_all(&mut failing, &[4]), Ok(()));
    assert_eq!(rt; failing.bytes(), [1, 2, 4].as_slice());
    Ok(())
}

// A reader that gives a byte, fails and is at its end in turn.
#[derive(Drop)]
struct ByTurns(u8);

impl Read for ByTurns {
    fn read(&mut self, into: &mut [u8]) -> io::Result<usize> {
        self.0 = self.0.wrapping_add(1);
        if self.0 % 3 == 2 {
            return Err(io::Error::from(io::ErrorKind::Interrupted));
        }
        if self.0 % 3 == 0 || into.is_empty() {
            return Ok(0);
        }
        into[0] = 9;
        Ok(1)
    }
}

#[test]
fn reads_from_readers(rt: HostRuntime) -> Result<(), Fail> {
    let text: &[u8] = b"madfs";
    let mut whole = FromRead::new(text);
    assert!(rt; read_all(rt.alloc(), &mut whole, 5) == Ok(text.to_vec(rt.alloc())?));
    let mut broken = FromRead::new(ByTurns(0));
    assert_eq!(rt; broken.read(&mut [0; 4]), Got::Bytes(1));
    assert!(rt; read_all(rt.alloc(), &mut broken, 5) == Err(ReadAll::ReadFault));
    assert!(rt; read_all(rt.alloc(), &mut broken, 5) == Ok(Vec::new(rt.alloc())));
    Ok(())
}

// A writer that takes a byte, takes nothing and fails in turn, or whose flushes all fail.
#[derive(Drop)]
struct Refusing {
    turn: u8,
    flushes: bool,
}

impl Write for Refusing {
    fn write(&mut self, piece: &[u8]) -> io::Result<usize> {
        self.turn = self.turn.wrapping_add(1);
        match self.turn % 3 {
            0 => Err(io::Error::from(io::ErrorKind::Other)),
            1 => Ok(piece.len().min(1)),
            _ => Ok(0),
        }
    }

    fn flush(&mut self) -> io::Result<()> {
        if self.flushes {
            return Ok(());
        }
        Err(io::Error::from(io::ErrorKind::Other))
    }
}

#[test]
fn writes_to_writers(rt: HostRuntime) -> Result<(), Fail> {
    let mut kept = Vec::new(rt.alloc());
    assert_eq!(rt; write_all(&mut ToWrite::new(&mut kept), b"madfs"), Ok(()));
    assert_eq!(rt; kept.as_slice(), b"madfs".as_slice());
    let mut broken = ToWrite::new(Refusing {
        turn: 0,
        flushes: true,
    });
    assert_eq!(rt; broken.write(b"ab"), Put::Took(1));
    assert_eq!(rt; broken.write(b"ab"), Put::Failed);
    assert_eq!(rt; broken.write(b"ab"), Put::Failed);
    let mut unflushed = ToWrite::new(Refusing {
        turn: 0,
        flushes: false,
    });
    assert_eq!(rt; unflushed.write(b"ab"), Put::Failed);
    Ok(())
}

#[test]
fn lists_words(rt: HostRuntime) -> Result<(), Fail> {
    let mut words = Words::new(rt.alloc());
    assert_eq!(rt; words.count(), 0);
    words.push("try")?;
    words.push("")?;
    words.push("40")?;
    assert_eq!(rt; words.count(), 3);
    assert_eq!(rt; words.word(0), "try");
    assert_eq!(rt; words.word(1), "");
    assert_eq!(rt; words.word(2), "40");
    Ok(())
}
