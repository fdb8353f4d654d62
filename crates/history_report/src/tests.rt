//! Calls in a mixed order, each operation and each kind of answer against its literal line, and whole reports.
ghost use Rattle.std.specs.Prelude.{◌≡◌, codes, IfOk};
ghost use Rattle.log_entry.specs.Kinds.{IsReplyTo};
ghost use Rattle.log_entry.specs.declared.calls.Op.TheVariants.{Pwrite};

use crate::{legal, line, order, print_report};
use log_entry::{
    Area, Blob, Call, CollectRefusal, Collected, Geometry, Held, Op, Reply, WriteRefusal,
};
use std::alloc::{AllocError, Global};
use std::process::Abort;
use std::test::Fail;

fn blob(alloc: Global, bytes: &[u8]) -> Result<Blob, AllocError>
    ensures { IfOk result (λ blob. blob ≡ bytes.now) }
{
    Ok(Blob::new(Vec::from_slice(alloc, bytes)?))
}

fn sized(position: u64, seat: u8, number: u32) -> Call
    ensures { IsReplyTo result.op result.reply }
{
    Call {
        position,
        seat,
        number,
        op: Op::Size,
        reply: Reply::Size(4),
    }
}

#[test]
fn orders_calls(rt: HostRuntime) -> Result<(), Fail> {
    let alloc = rt.alloc();
    let write = Call {
        position: 1,
        seat: 1,
        number: 2,
        op: Op::Append {
            bytes: blob(alloc, b"abc")?,
        },
        reply: Reply::Appended { at: 1, length: 3 },
    };
    let mut calls = Vec::new(alloc);
    calls.push(sized(1, 1, 1))?;
    calls.push(sized(1, 0, 3))?;
    calls.push(write)?;
    calls.push(sized(1, 0, 2))?;
    calls.push(sized(0, 1, 4))?;
    let ordered = order(alloc, calls)?;
    let mut places = Vec::new(alloc);
    for call in &ordered {
        places.push((call.position, call.seat, call.number))?;
    }
    let want = [(0, 1, 4), (1, 1, 2), (1, 0, 2), (1, 0, 3), (1, 1, 1)];
    assert_eq!(rt; places.as_slice(), want.as_slice());
    Ok(())
}

fn prints(rt: &impl Abort, alloc: Global, op: Op, reply: Reply, want: &str) -> Result<(), Fail>
    requires { IsReplyTo op reply }
{
    let call = Call {
        position: 5,
        seat: 15,
        number: 3,
        op,
        reply,
    };
    let text = line(alloc, &call)?;
    assert_eq!(rt; text.as_slice(), want.as_bytes());
    Ok(())
}

fn pwrite(alloc: Global) -> Result<Op, AllocError>
    ensures { IfOk result (λ op. op ≡ Pwrite 7 (codes "abc")) }
{
    let bytes = blob(alloc, b"abc")?;
    Ok(Op::Pwrite { offset: 7, bytes })
}

#[test]
fn prints_lines_of_writes(rt: HostRuntime) -> Result<(), Fail> {
    let alloc = rt.alloc();
    let end = 18446744073709551616;
    let too_large = Reply::NotWritten(WriteRefusal::TooLarge { end });
    prints(
        &rt,
        alloc,
        pwrite(alloc)?,
        too_large,
        "5 15 3 pwrite 7 3 = TooLarge 18446744073709551616\n",
    )?;
    let no_log = Reply::NotWritten(WriteRefusal::NoSpace { area: Area::Log });
    prints(
        &rt,
        alloc,
        pwrite(alloc)?,
        no_log,
        "5 15 3 pwrite 7 3 = NoSpace log\n",
    )?;
    let limit = Reply::NotWritten(WriteRefusal::PositionLimit);
    prints(
        &rt,
        alloc,
        pwrite(alloc)?,
        limit,
        "5 15 3 pwrite 7 3 = PositionLimit\n",
    )
}

#[test]
fn prints_lines_of_reads(rt: HostRuntime) -> Result<(), Fail> {
    let alloc = rt.alloc();
    let some = Reply::Bytes(blob(alloc, &[0, 171, 255])?);
    let pread = Op::Pread {
        offset: 7,
        length: 10,
    };
    prints(&rt, alloc, pread, some, "5 15 3 pread 7 10 = 00abff\n")?;
    prints(&rt, alloc, Op::Sync, Reply::Synced(5), "5 15 3 sync = 5\n")
}

#[test]
fn prints_lines_of_collections(rt: HostRuntime) -> Result<(), Fail> {
    let alloc = rt.alloc();
    let held = Some(Held {
        seat: 4,
        generation: 1,
    });
    let done = Collected {
        generation: 2,
        freed: 1,
        kept: 3,
        held,
    };
    let some = "5 15 3 collect = generation 2 freed 1 kept 3 pin 4 at 1\n";
    prints(&rt, alloc, Op::Collect, Reply::Collected(done), some)?;
    for (why, want) in [
        (CollectRefusal::Nothing, "5 15 3 collect = Nothing\n"),
        (CollectRefusal::NoSpace, "5 15 3 collect = NoSpace spare\n"),
        (
            CollectRefusal::Overtaken { generation: 9 },
            "5 15 3 collect = Overtaken 9\n",
        ),
        (
            CollectRefusal::GenerationLimit,
            "5 15 3 collect = GenerationLimit\n",
        ),
    ] {
        prints(&rt, alloc, Op::Collect, Reply::NotCollected(why), want)?;
    }
    Ok(())
}

#[test]
fn prints_reports(rt: HostRuntime) -> Result<(), Fail> {
    let alloc = rt.alloc();
    let calls = [sized(1, 0, 1), sized(2, 15, 10)];
    let two = print_report(alloc, &calls, 2, 66)?;
    let want = "1 0 1 size = 4\n2 15 10 size = 4\nend 2 66\n";
    assert_eq!(rt; two.as_slice(), want.as_bytes());
    Ok(())
}

/// A call of seat 0, of which the number says nothing here.
fn call_at(position: u64, op: Op, reply: Reply) -> Call {
    Call {
        position,
        seat: 0,
        number: 1,
        op,
        reply,
    }
}

/// A write past the end, a read over the gap, an append, one that is refused, and a size: a legal history. It is none from another position or
/// another file.
#[test]
fn tells_legal_histories(rt: HostRuntime) -> Result<(), Fail> {
    let alloc = rt.alloc();
    let geometry = Geometry::new(40, 4, 64)?;
    let write = Op::Pwrite {
        offset: 3,
        bytes: blob(alloc, b"xy")?,
    };
    let append = Op::Append {
        bytes: blob(alloc, b"z")?,
    };
    let refused = Op::Pwrite {
        offset: 4_194_304,
        bytes: blob(alloc, b"q")?,
    };
    let read = Op::Pread {
        offset: 1,
        length: 9,
    };
    let limit = WriteRefusal::TooLarge { end: 4_194_305 };
    let mut calls = Vec::new(alloc);
    calls.push(call_at(8, write, Reply::Wrote { length: 2 }))?;
    calls.push(call_at(8, read, Reply::Bytes(blob(alloc, b"b\0xy")?)))?;
    calls.push(call_at(9, append, Reply::Appended { at: 5, length: 1 }))?;
    calls.push(call_at(9, refused, Reply::NotWritten(limit)))?;
    calls.push(call_at(9, Op::Size, Reply::Size(6)))?;
    calls.push(call_at(9, Op::Sync, Reply::Synced(9)))?;
    assert!(rt; legal(alloc, geometry, b"ab", 7, &calls)?);
    assert!(rt; !legal(alloc, geometry, b"ab", 6, &calls)?);
    assert!(rt; !legal(alloc, geometry, b"ac", 7, &calls)?);
    assert!(rt; !legal(alloc, geometry, b"ab", 7, &calls[1..])?);
    assert!(rt; legal(alloc, geometry, b"ab", 7, &calls[..0])?);
    Ok(())
}
