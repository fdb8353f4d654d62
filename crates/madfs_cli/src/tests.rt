//! Each command once, words that are none, and faults of what is read and written.

use crate::{Status, Unwatched, run};
use io_ends::{Bytes, FailingBytes, FailingGathered, Gathered, Sink, Source, Words};
use opening_rules::BadImage;
use std::alloc::{AllocError, Global};
use std::test::Fail;
use trace_reader::BadTrace;

/// A trace of a write and a read, and its report.
const TRACE: &[u8] = b"0 pwrite 0 616263\n0 pread 0 10\n";

const REPORT: &[u8] = b"1 0 1 pwrite 0 3 = 3\n1 0 2 pread 0 10 = 616263\nend 1 3\n";

/// Runs a command, whose words stand between blanks.
fn run_line<I: Source, T: Source, O: Sink, N: Sink>(
    alloc: Global,
    line: &str,
    image: &mut I,
    trace: &mut T,
    report: &mut O,
    fresh: &mut N,
) -> Result<Status, AllocError> {
    let mut words = Words::new(alloc);
    for word in line.split_whitespace() {
        words.push(word)?;
    }
    Ok(run(alloc, &words, image, trace, report, fresh, &Unwatched))
}

/// How a command ended, and what it wrote.
#[derive(Drop)]
struct Ended {
    status: Status,
    report: Vec<u8>,
    image: Vec<u8>,
}

/// Runs a command over these bytes.
fn run_bytes(alloc: Global, line: &str, image: &[u8], trace: &[u8]) -> Result<Ended, AllocError> {
    let mut image = Bytes::new(Vec::from_slice(alloc, image)?);
    let mut trace = Bytes::new(Vec::from_slice(alloc, trace)?);
    let mut report = Gathered::new(alloc);
    let mut fresh = Gathered::new(alloc);
    let status = run_line(alloc, line, &mut image, &mut trace, &mut report, &mut fresh)?;
    Ok(Ended {
        status,
        report: report.into_bytes(),
        image: fresh.into_bytes(),
    })
}

#[test]
fn each_command_once(rt: HostRuntime) -> Result<(), Fail> {
    let alloc = rt.alloc();
    let made = run_bytes(alloc, "mkfs 2 1 64", b"", b"")?;
    assert_eq!(rt; made.status, Status::Done);
    assert_eq!(rt;
        made.report.as_slice(),
        b"blocks 24 bytes 1536\n".as_slice()
    );
    assert_eq!(rt; made.image.len(), 1536);
    let tried = run_bytes(alloc, "try 2 1 64 1", b"", TRACE)?;
    assert_eq!(rt; tried.status, Status::Done);
    assert_eq!(rt; tried.report.as_slice(), REPORT);
    assert_eq!(rt; tried.image.len(), 0);
    let ran = run_bytes(alloc, "replay 1", &made.image, TRACE)?;
    assert_eq!(rt; ran.status, Status::Done);
    assert_eq!(rt; ran.report.as_slice(), REPORT);
    let shown = run_bytes(alloc, "cat", &ran.image, b"")?;
    assert_eq!(rt; shown.status, Status::Done);
    assert_eq!(rt; shown.report.as_slice(), b"abc".as_slice());
    let dumped = run_bytes(alloc, "dump", &ran.image, b"")?;
    assert_eq!(rt; dumped.status, Status::Done);
    assert_eq!(rt;
        dumped.report.ends_with(b"count 1 leftover 61\nend 1 3\n"),
        true
    );
    Ok(())
}

#[test]
fn refused_words_images_and_traces(rt: HostRuntime) -> Result<(), Fail> {
    let alloc = rt.alloc();
    let usage = run_bytes(alloc, "replay 0", b"MADFS", TRACE)?;
    assert_eq!(rt; usage.status, Status::Usage);
    let refused = run_bytes(alloc, "replay 1", b"MADFS", b"0 fsync\n")?;
    assert_eq!(rt;
        refused.status,
        Status::BadImage(BadImage::Short { bytes: 5 })
    );
    let refused = run_bytes(alloc, "try 2 1 64 1", b"", b"0 fsync\n")?;
    assert_eq!(rt;
        refused.status,
        Status::BadTrace(BadTrace::BadLine { line: 1 })
    );
    assert_eq!(rt; refused.status.exit_code(), 4);
    let line = format!(in alloc; "{}", refused.status)?;
    assert_eq!(rt; line.as_str(), "madfs: trace: BadLine 1");
    Ok(())
}

/// A trace as a person writes it, and each kind of refusal, by both commands that read one.
#[test]
fn traces_by_hand(rt: HostRuntime) -> Result<(), Fail> {
    let alloc = rt.alloc();
    let by_hand = b"# three bytes\n\n 00 pwrite\t0 61626C\r\n0 pwrite 002 63\n0 pread 0 010";
    let report =
        b"1 0 1 pwrite 0 3 = 3\n2 0 2 pwrite 2 1 = 1\n2 0 3 pread 0 10 = 616263\nend 2 3\n";
    let made = run_bytes(alloc, "mkfs 2 1 64", b"", b"")?;
    let tried = run_bytes(alloc, "try 2 1 64 1", b"", by_hand)?;
    assert_eq!(rt; tried.report.as_slice(), report.as_slice());
    let ran = run_bytes(alloc, "replay 1", &made.image, by_hand)?;
    assert_eq!(rt; ran.report.as_slice(), report.as_slice());
    let refusals: [(&[u8], BadTrace); 5] = [
        (b"0 pwrite 0 abc", BadTrace::BadHex { line: 1 }),
        (b"1 size", BadTrace::BadSeat { line: 1, seat: 1 }),
        (b"0 pread 0 1048577", BadTrace::BadNumber { line: 1 }),
        (b"0 fsync", BadTrace::BadLine { line: 1 }),
        (
            b"0 pread 0 1\n0 size\n0 sync",
            BadTrace::BadLine { line: 2 },
        ),
    ];
    for (text, why) in refusals {
        let tried = run_bytes(alloc, "try 2 1 64 1", b"", text)?;
        assert_eq!(rt; tried.status, Status::BadTrace(why));
        let ran = run_bytes(alloc, "replay 1", &made.image, text)?;
        assert_eq!(rt; ran.status, Status::BadTrace(why));
        assert_eq!(rt; ran.report.len() + ran.image.len(), 0);
    }
    Ok(())
}

/// Words that are no command: nothing is read or written.
#[test]
fn words_that_are_none(rt: HostRuntime) -> Result<(), Fail> {
    let alloc = rt.alloc();
    let lines = [
        "replay 0",
        "replay",
        "replay 1 2",
        "mkfs 2 1 63",
        "replay -1",
        "-1 replay",
        "generate 1 2",
        "generate 1 0 1",
        "generate 1 17 1",
        "generate 1 1 20001",
        "generate 4294967296 1 1",
    ];
    for line in lines {
        let mut image = Bytes::new(Vec::from_slice(alloc, b"abc")?);
        let mut trace = Bytes::new(Vec::from_slice(alloc, b"def")?);
        let mut report = Gathered::new(alloc);
        let mut fresh = Gathered::new(alloc);
        let status = run_line(alloc, line, &mut image, &mut trace, &mut report, &mut fresh)?;
        assert_eq!(rt; status, Status::Usage);
        assert_eq!(rt; report.bytes().len() + fresh.bytes().len(), 0);
    }
    Ok(())
}

/// A line of 1,593 bytes, each one more than the one before it.
#[test]
fn work_from_a_number(rt: HostRuntime) -> Result<(), Fail> {
    let made = run_bytes(rt.alloc(), "generate 001 2 1", b"", b"")?;
    assert_eq!(rt; made.status, Status::Done);
    assert_eq!(rt; made.report.len(), 15 + 2 * 1593 + 1);
    assert_eq!(rt; made.report.starts_with(b"0 pwrite 42984 02030405"), true);
    assert_eq!(rt; made.report.ends_with(b"38393a\n"), true);
    assert_eq!(rt; made.image.len(), 0);
    Ok(())
}

#[test]
fn faults_are_reported(rt: HostRuntime) -> Result<(), Fail> {
    let alloc = rt.alloc();
    let made = run_bytes(alloc, "mkfs 2 1 64", b"", b"")?;
    let mut broken = FailingBytes::new(made.image, vec![in alloc; 2]?);
    let mut trace = Bytes::new(Vec::from_slice(alloc, TRACE)?);
    let mut report = Gathered::new(alloc);
    let mut fresh = Gathered::new(alloc);
    let status = run_line(
        alloc,
        "replay 1",
        &mut broken,
        &mut trace,
        &mut report,
        &mut fresh,
    )?;
    assert_eq!(rt; status, Status::ReadFault);
    assert_eq!(rt; report.bytes().len(), 0);
    let mut none = Bytes::new(Vec::new(alloc));
    let mut full = FailingGathered::new(alloc, vec![in alloc; 1]?);
    let status = run_line(
        alloc,
        "mkfs 2 1 64",
        &mut none,
        &mut trace,
        &mut full,
        &mut fresh,
    )?;
    assert_eq!(rt; status, Status::WriteFault);
    assert_eq!(rt; fresh.bytes().len(), 0);
    Ok(())
}
