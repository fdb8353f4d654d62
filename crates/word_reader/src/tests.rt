//! Reading to the end in pieces of any length, an excess, and a fault in mid-stream.
ghost use Rattle.std.specs.Prelude.{true, None};

use crate::{WordsRead, read_words};
use io_ends::{Bytes, FailingBytes, Got, ReadAll, Source};
use log_entry::to_bytes;
use std::alloc::{AllocError, Global};
use std::test::Fail;

// Longer than two pieces of a read to the end, and no whole number of words.
const LONG: usize = 131_079;

// A source that gives no more than so many bytes in one read, and tells no content.
#[derive(Drop)]
struct Slow {
    bytes: Bytes,
    most: usize,
}

impl Source for Slow {
    ghost left = { λ _. None };

    ghost faults = { λ _. 0 };

    ghost exact = { true };

    fn read(&mut self, into: &mut [u8]) -> Got {
        let most = self.most.max(1).min(into.len());
        self.bytes.read(&mut into[..most])
    }
}

// So many bytes that count from 1 to 251 and begin again.
fn counting(alloc: Global, len: usize) -> Result<Vec<u8>, AllocError> {
    let mut bytes = Vec::with_capacity(alloc, len)?;
    for at in 0..len {
        bytes.push((at % 251 + 1) as u8)?;
    }
    Ok(bytes)
}

// The bytes that were read.
fn bytes_of(alloc: Global, read: &WordsRead) -> Result<Vec<u8>, AllocError> {
    let mut bytes = to_bytes(alloc, &read.words)?;
    bytes.extend_from_slice(&read.rest)?;
    Ok(bytes)
}

#[test]
fn reads_words_lowest_byte_first(rt: HostRuntime) -> Result<(), Fail> {
    let bytes = [1, 2, 3, 4, 5, 6, 7, 8, 9, 0, 0, 0, 0, 0, 0, 255, 17, 18];
    let mut source = Bytes::new(bytes.to_vec(rt.alloc())?);
    let read = read_words(rt.alloc(), &mut source, 18)
        .ok()
        .expect(&rt, "memory");
    assert_eq!(rt;
        read.words.as_slice(),
        [0x0807_0605_0403_0201, 0xFF00_0000_0000_0009].as_slice()
    );
    assert_eq!(rt; read.rest.as_slice(), [17, 18].as_slice());
    assert_eq!(rt; source.read(&mut [0; 4]), Got::End);
    Ok(())
}

#[test]
fn reads_pieces_of_any_length(rt: HostRuntime) -> Result<(), Fail> {
    for most in [1, 7, 9, 65_535] {
        for len in [0, 7, 8, 9, 64, LONG] {
            let bytes = counting(rt.alloc(), len)?;
            let mut source = Slow {
                bytes: Bytes::new(bytes.clone()?),
                most,
            };
            let read = read_words(rt.alloc(), &mut source, len)
                .ok()
                .expect(&rt, "memory");
            assert!(rt;
                bytes_of(rt.alloc(), &read)? == bytes,
                "{len} bytes by {most}"
            );
        }
    }
    Ok(())
}

#[test]
fn keeps_each_rest(rt: HostRuntime) -> Result<(), Fail> {
    for rest in 1..8 {
        let bytes = counting(rt.alloc(), 24 + rest)?;
        let mut source = Bytes::new(bytes.clone()?);
        let read = read_words(rt.alloc(), &mut source, usize::MAX)
            .ok()
            .expect(&rt, "memory");
        assert!(rt; bytes_of(rt.alloc(), &read)? == bytes, "a rest of {rest}");
        assert_eq!(rt; read.rest.len(), rest);
    }
    Ok(())
}

#[test]
fn stops_past_the_limit(rt: HostRuntime) -> Result<(), Fail> {
    for (limit, after) in [(0, 20), (7, 13), (8, 12), (20, 0)] {
        let mut source = Bytes::new(counting(rt.alloc(), 21)?);
        assert_eq!(rt;
            read_words(rt.alloc(), &mut source, limit).err(),
            Some(ReadAll::TooLong)
        );
        let left = read_words(rt.alloc(), &mut source, 21)
            .ok()
            .expect(&rt, "memory");
        assert_eq!(rt; bytes_of(rt.alloc(), &left)?.len(), after);
    }
    Ok(())
}

#[test]
fn tells_a_fault_from_an_end(rt: HostRuntime) -> Result<(), Fail> {
    let bytes = counting(rt.alloc(), LONG)?;
    let fails = [2, 3].to_vec(rt.alloc())?;
    let mut source = FailingBytes::new(bytes.clone()?, fails);
    assert_eq!(rt;
        read_words(rt.alloc(), &mut source, LONG).err(),
        Some(ReadAll::ReadFault)
    );
    assert_eq!(rt;
        read_words(rt.alloc(), &mut source, LONG).err(),
        Some(ReadAll::ReadFault)
    );
    let left = read_words(rt.alloc(), &mut source, LONG)
        .ok()
        .expect(&rt, "memory");
    let end = bytes_of(rt.alloc(), &left)?;
    assert_eq!(rt; end.len(), LONG - 65_536);
    assert!(rt; bytes.ends_with(&end));
    Ok(())
}
