//! Whether a list of calls is a legal history of a plain byte file.

ghost use Rattle.std.specs.Prelude.{◌≡◌, ◌↔◌, ◌⊎◌, ◌+◌, ◌<◌, ◌≤◌, ◌^◌, ℕ, List, length, Some, IsTrue, IfOk, OnOk, OnErr, MatchOption};
ghost use Rattle.log_entry.specs.ByteFile.{read, write, with_bytes_over, with_zeros_to};
ghost use Rattle.log_entry.specs.declared.calls.Reply.{Reply};
ghost use Rattle.log_entry.specs.Legal.{Answers, AnswersPwrite, AnswersAppend, AnswersWrite, AnswersCollect, Legal, file_after, position_after, touched_blocks, appended_blocks, write_refusal};
ghost use Rattle.log_entry.specs.Shape.{limit_of};

use crate::places::is_write;
use log_entry::{Area, Call, Geometry, Op, Reply, WriteRefusal};
use std::alloc::{AllocError, Global};

/// The greatest position that a file may have.
const LAST_POSITION: u64 = 1_099_511_627_775;

/// Whether these calls are a legal history that starts from this file at this position, in an image of this shape: each has the reply and the
/// position that come there. Only want of memory refuses it.
pub fn legal(
    alloc: Global,
    geometry: Geometry,
    file: &[u8],
    position: u64,
    calls: &[Call],
) -> Result<bool, AllocError>
    ensures { IfOk result (λ yes. IsTrue yes ↔ Legal geometry.block_bytes file.now position calls.now) }
{
    let mut present = Vec::from_slice(alloc, file)?;
    let mut reached = position;
    for call in calls {
        if !is_answer(&geometry, reached, &present, &call.op, &call.reply) {
            return Ok(false);
        }
        if !has_position(reached, call) {
            return Ok(false);
        }
        make(&geometry, reached, &mut present, &call.op, &call.reply)?;
        reached = call.position;
    }
    Ok(true)
}

/// Whether a call has the position that comes after this one.
fn has_position(position: u64, call: &Call) -> bool
    ensures { IsTrue result ↔ (call.now.position ≡ position_after position call.now.op call.now.reply) }
{
    let found = call.position;
    match next_position(position, call) {
        Some(next) => next == found,
        None => false,
    }
}

/// The position after a call, where it is below 2^64.
fn next_position(position: u64, call: &Call) -> Option<u64>
    ensures { MatchOption result (2 ^ 64 ≤ position_after position call.now.op call.now.reply) (λ next. next ≡ position_after position call.now.op call.now.reply) }
{
    if is_write(call) {
        position.checked_add(1)
    } else {
        Some(position)
    }
}

/// Whether a reply is one that a call may have at this position of this file.
fn is_answer(geometry: &Geometry, position: u64, file: &[u8], op: &Op, reply: &Reply) -> bool
    ensures { IsTrue result ↔ Answers geometry.now.block_bytes position file.now op.now reply.now }
{
    match op {
        Op::Pwrite { offset, bytes } => answers_pwrite(
            geometry,
            position,
            *offset,
            bytes.bytes(),
            reply,
        ),
        Op::Append { bytes } => answers_append(
            geometry,
            position,
            file.len() as u64,
            bytes.bytes(),
            reply,
        ),
        Op::Pread { offset, length } => answers_pread(file, *offset, *length, reply),
        Op::Size => match reply {
            Reply::Size(size) => *size == file.len() as u64,
            _ => false,
        },
        Op::Sync => match reply {
            Reply::Synced(synced) => *synced == position,
            _ => false,
        },
        Op::Collect => match reply {
            Reply::Collected(done) => done.held.is_some() == (done.kept > 0),
            Reply::NotCollected(_) => true,
            _ => false,
        },
    }
}

/// The same of a `pread`.
fn answers_pread(file: &[u8], offset: u64, count: u64, reply: &Reply) -> bool
    ensures { IsTrue result ↔ (reply.now ≡ Reply.Bytes (read file.now offset count)) }
{
    let start = offset.min(file.len() as u64) as usize;
    let count = count.min((file.len() - start) as u64) as usize;
    match reply {
        Reply::Bytes(found) => found.bytes() == &file[start..start + count],
        _ => false,
    }
}

/// The same of a `pwrite`.
fn answers_pwrite(
    geometry: &Geometry,
    position: u64,
    offset: u64,
    bytes: &[u8],
    reply: &Reply,
) -> bool
    ensures { IsTrue result ↔ AnswersPwrite geometry.now.block_bytes position offset bytes.now reply.now }
{
    let count = bytes.len() as u64;
    let accepted = matches!(reply, Reply::Wrote { length } if *length == count);
    if bytes.is_empty() {
        return accepted;
    }
    let blocks = touched(geometry, offset, count);
    let why = refusal(
        geometry,
        position,
        blocks,
        u128::from(offset) + u128::from(count),
    );
    answers_write(why, accepted, reply)
}

/// How many blocks a range of at least one byte touches.
fn touched(geometry: &Geometry, offset: u64, count: u64) -> u64
    requires some { 0 < count }
    requires few { count < 2 ^ 63 }
    ensures { result ≡ touched_blocks geometry.now.block_bytes offset count }
{
    let block = u64::from(geometry.block_bytes());
    (offset % block + (count - 1)) / block + 1
}

/// The same of an `append`, at a file of this length.
fn answers_append(
    geometry: &Geometry,
    position: u64,
    size: u64,
    bytes: &[u8],
    reply: &Reply,
) -> bool
    ensures { IsTrue result ↔ AnswersAppend geometry.now.block_bytes position size bytes.now reply.now }
{
    let count = bytes.len() as u64;
    let accepted =
        matches!(reply, Reply::Appended { at, length } if *at == size && *length == count);
    if bytes.is_empty() {
        return accepted;
    }
    let block = u64::from(geometry.block_bytes());
    let blocks = (count + 2 * block - 2) / block;
    let why = refusal(
        geometry,
        position,
        blocks,
        u128::from(size) + u128::from(count),
    );
    answers_write(why, accepted, reply)
}

/// The same of a write of at least one byte, of which this refuses whatever is free, if something does.
fn answers_write(why: Option<WriteRefusal>, accepted: bool, reply: &Reply) -> bool
    ensures { (taken : Reply) → (IsTrue accepted ↔ (reply.now ≡ taken)) → IsTrue result ↔ AnswersWrite why taken reply.now }
{
    match why {
        Some(why) => match reply {
            Reply::NotWritten(found) => *found == why,
            _ => false,
        },
        None => accepted || is_no_space(reply),
    }
}

/// Whether a reply says that there is no space for data or in the log.
fn is_no_space(reply: &Reply) -> bool
    ensures { IsTrue result ↔ ((reply.now ≡ Reply.NotWritten (WriteRefusal.NoSpace Area.Data)) ⊎ (reply.now ≡ Reply.NotWritten (WriteRefusal.NoSpace Area.Log))) }
{
    match reply {
        Reply::NotWritten(WriteRefusal::NoSpace { area }) => match area {
            Area::Data | Area::Log => true,
            Area::Spare => false,
        },
        _ => false,
    }
}

/// Why a write of at least one byte that touches so many blocks and ends there is refused whatever is free, if it is.
fn refusal(geometry: &Geometry, position: u64, blocks: u64, end: u128) -> Option<WriteRefusal>
    ensures { result ≡ write_refusal geometry.now.block_bytes position blocks end }
{
    if blocks > u64::from(geometry.longest()) {
        Some(WriteRefusal::TooLong { blocks })
    } else if end > u128::from(geometry.limit()) {
        Some(WriteRefusal::TooLarge { end })
    } else if position == LAST_POSITION {
        Some(WriteRefusal::PositionLimit)
    } else {
        None
    }
}

/// Makes a call on a file, where it was answered as it may be: a write changes the file. Only want of memory refuses it.
fn make(
    geometry: &Geometry,
    position: u64,
    file: &mut Vec<u8>,
    op: &Op,
    reply: &Reply,
) -> Result<(), AllocError>
    requires { Answers geometry.now.block_bytes position file.old.items op.now reply.now }
    ensures { OnOk result (file.new.items ≡ file_after file.old.items op.now reply.now) }
{
    match (op, reply) {
        (Op::Pwrite { offset, bytes }, Reply::Wrote { .. }) => lay(file, *offset, bytes.bytes()),
        (Op::Append { bytes }, Reply::Appended { .. }) => file.extend_from_slice(bytes.bytes()),
        _ => Ok(()),
    }
}

/// Lays bytes over a file from this offset on, after zeros where it is shorter.
fn lay(file: &mut Vec<u8>, offset: u64, bytes: &[u8]) -> Result<(), AllocError>
    requires { 0 < length bytes.now → offset + length bytes.now < 2 ^ 63 }
    ensures { OnOk result (file.new.items ≡ write file.old.items offset bytes.now) }
{
    if bytes.is_empty() {
        return Ok(());
    }
    let start = offset as usize;
    lengthen(file, start + bytes.len())?;
    lay_over(file, start, bytes);
    Ok(())
}

/// Adds zeros to a file that is shorter than this.
fn lengthen(file: &mut Vec<u8>, end: usize) -> Result<(), AllocError>
    ensures { OnOk result (file.new.items ≡ with_zeros_to file.old.items end) }
{
    if file.len() < end {
        file.resize(end, 0)?;
    }
    Ok(())
}

/// Lays bytes over a file, which has room for them from there on.
fn lay_over(file: &mut Vec<u8>, start: usize, bytes: &[u8])
    requires { start + length bytes.now ≤ length file.old.items }
    ensures { file.new.items ≡ with_bytes_over file.old.items start bytes.now }
{
    let end = start + bytes.len();
    file[start..end].copy_from_slice(bytes);
}
