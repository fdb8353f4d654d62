//! What no clause says: that reading and printing succeed, on texts from outside.

use super::*;
use log_entry::{Blob, Job, Op};
use std::test::Fail;

/// Why a text is refused for two seats, if it is refused for a line.
fn refusal(rt: &HostRuntime, text: &[u8]) -> Option<BadTrace> {
    match read_trace(rt.alloc(), text, 2) {
        Err(TraceRefusal::Bad(why)) => Some(why),
        _ => None,
    }
}

fn is_write(op: &Op, at: u64, content: &[u8]) -> bool {
    match op {
        Op::Pwrite { offset, bytes } => *offset == at && bytes.bytes() == content,
        _ => false,
    }
}

fn is_read(op: &Op, at: u64, count: u64) -> bool {
    match op {
        Op::Pread { offset, length } => *offset == at && *length == count,
        _ => false,
    }
}

fn is_place(job: &Job, line: u64, seat: u8, number: u32) -> bool {
    job.line == line && job.seat == seat && job.number == number
}

#[test]
fn numbers_each_seat(rt: HostRuntime) -> Result<(), Fail> {
    let jobs = read_trace(
        rt.alloc(),
        b"1 pread 0 1\n0 pwrite 18446744073709551615 -\n1 pread 0 1048576\n",
        2,
    )?;
    assert_eq!(rt; jobs.len(), 3);
    assert!(rt; is_place(&jobs[0], 1, 1, 1));
    assert!(rt;
        is_place(&jobs[1], 2, 0, 1) && is_write(&jobs[1].op, 18_446_744_073_709_551_615, b"")
    );
    assert!(rt; is_place(&jobs[2], 3, 1, 2) && is_read(&jobs[2].op, 0, 1_048_576));
    Ok(())
}

/// Lines as a person writes them: a comment with any bytes, an empty line, blanks, a carriage return, leading zeros, digits of either case,
/// and a last line without its newline.
#[test]
fn reads_lines_by_hand(rt: HostRuntime) -> Result<(), Fail> {
    let text =
        b"# a comment\xff\n\n \t\n #x\n 01\tpwrite  007 aB0C \r\n1 append FF\n0 pread 0 10\n1 size\n0 sync\r\n1 collect";
    let jobs = read_trace(rt.alloc(), text, 2)?;
    assert_eq!(rt; jobs.len(), 6);
    assert!(rt; is_place(&jobs[0], 5, 1, 1) && is_write(&jobs[0].op, 7, b"\xab\x0c"));
    assert!(rt; is_place(&jobs[1], 6, 1, 2));
    assert!(rt; is_place(&jobs[2], 7, 0, 1) && is_read(&jobs[2].op, 0, 10));
    assert!(rt; is_place(&jobs[5], 10, 1, 4));
    let text = print_trace(rt.alloc(), &jobs)?;
    assert!(rt;
        text.as_slice()
            == b"1 pwrite 7 ab0c\n1 append ff\n0 pread 0 10\n1 size\n0 sync\n1 collect\n".as_slice()
    );
    Ok(())
}

/// Each kind of refusal at the first line, in the middle, and twice.
#[test]
fn refuses_the_first_bad_line(rt: HostRuntime) -> Result<(), Fail> {
    let line = 2;
    let lines: [(&[u8], BadTrace); 18] = [
        (b"0 fsync", BadTrace::BadLine { line }),
        (b"x", BadTrace::BadLine { line }),
        (b"x size 1", BadTrace::BadLine { line }),
        (b"0 pread 0", BadTrace::BadLine { line }),
        (b"0 pread 0 1 1", BadTrace::BadLine { line }),
        (b"0 append", BadTrace::BadLine { line }),
        (b"0 si\rze", BadTrace::BadLine { line }),
        (b"\r\r", BadTrace::BadLine { line }),
        (b"x size", BadTrace::BadNumber { line }),
        (
            b"18446744073709551616 pwrite x x",
            BadTrace::BadNumber { line },
        ),
        (b"2 pwrite x x", BadTrace::BadSeat { line, seat: 2 }),
        (
            b"18446744073709551615 size",
            BadTrace::BadSeat {
                line,
                seat: u64::MAX,
            },
        ),
        (
            b"0 pwrite 18446744073709551616 x",
            BadTrace::BadNumber { line },
        ),
        (b"0 pread -1 x", BadTrace::BadNumber { line }),
        (b"0 pread 0 1048577", BadTrace::BadNumber { line }),
        (b"0 pwrite 0 abc", BadTrace::BadHex { line }),
        (b"0 append 0g", BadTrace::BadHex { line }),
        (b"0 append --", BadTrace::BadHex { line }),
    ];
    for (bad, why) in lines {
        let mut text = Vec::from_slice(rt.alloc(), b"# first\n")?;
        text.extend_from_slice(bad)?;
        text.extend_from_slice(b"\r\n")?;
        assert!(rt; refusal(&rt, &text) == Some(why));
        text.extend_from_slice(b"0 size\n0 fsync\n")?;
        assert!(rt; refusal(&rt, &text) == Some(why));
        text.extend_from_slice(bad)?;
        assert!(rt; refusal(&rt, &text) == Some(why));
    }
    Ok(())
}

/// At the first line, too; and a carriage return at the end of a text ends no line.
#[test]
fn refuses_the_first_line(rt: HostRuntime) {
    assert!(rt; refusal(&rt, b"0 append x") == Some(BadTrace::BadHex { line: 1 }));
    assert!(rt; refusal(&rt, b"0 size\r") == Some(BadTrace::BadLine { line: 1 }));
    assert!(rt; refusal(&rt, b"0 append ab\r") == Some(BadTrace::BadHex { line: 1 }));
    assert!(rt; refusal(&rt, b"0 append ab\r\n").is_none());
}

#[test]
fn bounds_the_reads(rt: HostRuntime) -> Result<(), Fail> {
    let mut text = Vec::new(rt.alloc());
    for _ in 0..256 {
        text.extend_from_slice(b"1 pread 0 1048576\n")?;
    }
    assert!(rt; refusal(&rt, &text).is_none());
    text.extend_from_slice(b"0 append ab\n0 pread 0 0\n0 pread 0 1\n1 fsync\n0 pread 0 1\n")?;
    assert!(rt; refusal(&rt, &text) == Some(BadTrace::TooMuch { line: 259 }));
    Ok(())
}

#[test]
fn bounds_the_bytes(rt: HostRuntime) -> Result<(), Fail> {
    let text = vec![in rt.alloc(); b'#'; 67_108_865]?;
    assert!(rt; refusal(&rt, &text) == Some(BadTrace::TooLong));
    assert!(rt; refusal(&rt, &text[1..]).is_none());
    Ok(())
}

/// Work of ordinary size, printed, read, printed and read again.
#[test]
fn reads_work_from_a_number(rt: HostRuntime) -> Result<(), Fail> {
    let alloc = rt.alloc();
    let jobs = generate(alloc, 7, 4, 8000)?;
    let text = print_trace(alloc, &jobs)?;
    let read = read_trace(alloc, &text, 4)?;
    let again = print_trace(alloc, &read)?;
    assert!(rt; again.as_slice() == text.as_slice());
    let last = read_trace(alloc, &again, 4)?;
    assert_eq!(rt; last.len(), 8000);
    assert_eq!(rt; read.len(), 8000);
    for (job, other) in last.iter().zip(jobs.iter()) {
        assert!(rt; is_place(job, other.line, other.seat, other.number));
    }
    Ok(())
}

fn asks(line: u64, op: Op) -> Job {
    Job {
        line,
        seat: 0,
        number: 1,
        op,
    }
}

#[test]
fn prints_each_operation(rt: HostRuntime) -> Result<(), Fail> {
    let alloc = rt.alloc();
    let mut jobs = Vec::new(alloc);
    let bytes = Blob::new(Vec::from_slice(alloc, b"abc")?);
    jobs.push(asks(1, Op::Pwrite { offset: 7, bytes }))?;
    let bytes = Blob::new(Vec::new(alloc));
    jobs.push(asks(2, Op::Append { bytes }))?;
    jobs.push(asks(
        3,
        Op::Pread {
            offset: 0,
            length: 10,
        },
    ))?;
    jobs.push(asks(4, Op::Size))?;
    jobs.push(asks(5, Op::Sync))?;
    jobs.push(asks(6, Op::Collect))?;
    let text = print_trace(alloc, &jobs)?;
    assert!(rt;
        text.as_slice()
            == b"0 pwrite 7 616263\n0 append -\n0 pread 0 10\n0 size\n0 sync\n0 collect\n".as_slice()
    );
    Ok(())
}
