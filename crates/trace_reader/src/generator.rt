//! Work from a number.

ghost use Rattle.std.specs.Prelude.{◌≡◌, ◌+◌, ◌<◌, ◌≤◌, ◌^◌, IfOk};
ghost use Rattle.trace_reader.specs.Generator.{drawn, upper_half as upper_half_of, place_of_draw, rising_bytes as rising, turn_op as turn_op_of, generated, generated_job};

use log_entry::{Blob, Job, Op};
use std::alloc::{AllocError, Global};

/// So many jobs from a number, one a line: 1 to 16 seats take turns, at most 20,000 calls in all. Each seat reads and writes at offsets
/// within its own 65,536 bytes. Only want of memory refuses it.
pub fn generate(alloc: Global, number: u32, seats: u8, calls: u32) -> Result<Vec<Job>, AllocError>
    requires some { 1 ≤ seats }
    requires seats { seats ≤ 16 }
    requires calls { calls ≤ 20000 }
    ensures { IfOk result (λ jobs. jobs.items ≡ generated number seats calls) }
{
    let mut jobs = Vec::with_capacity(alloc, calls as usize)?;
    for before in 0..calls {
        let job = generate_job(alloc, number, seats, before)?;
        jobs.push(job)?;
    }
    Ok(jobs)
}

/// The job on the line after so many.
fn generate_job(alloc: Global, number: u32, seats: u8, before: u32) -> Result<Job, AllocError>
    requires some { 1 ≤ seats }
    requires seats { seats ≤ 16 }
    requires before { before < 20000 }
    ensures { IfOk result (λ job. job ≡ generated_job number seats before) }
{
    let line = u64::from(before) + 1;
    let seat = before % u32::from(seats);
    let turn = before / u32::from(seats);
    let op = turn_op(alloc, number, line, seat, turn)?;
    Ok(Job {
        line,
        seat: seat as u8,
        number: turn + 1,
        op,
    })
}

/// The operation of a seat's turn, counted from 0, on this line.
fn turn_op(alloc: Global, number: u32, line: u64, seat: u32, turn: u32) -> Result<Op, AllocError>
    requires line { line ≤ 20000 }
    requires seat { seat < 16 }
    ensures { IfOk result (λ op. op ≡ turn_op_of number line seat turn (drawn number line)) }
{
    let draw = (u64::from(number) * 40503 + line * 2_654_435_761) % 4_294_967_296;
    let upper = draw / 65536;
    let offset = u64::from(seat) * 65536 + draw % 63488;
    let first = u64::from(number) + line;
    let op = match turn % 8 {
        0..=3 => Op::Pwrite {
            offset,
            bytes: rising_bytes(alloc, first, 1 + upper % 2048)?,
        },
        4 => Op::Append {
            bytes: rising_bytes(alloc, first, 1 + upper % 256)?,
        },
        5 => Op::Pread {
            offset,
            length: 1 + upper % 2048,
        },
        6 => { if turn % 16 == 14 { Op::Sync } else { Op::Size } }
        _ => {
            if turn % 512 == 511 {
                Op::Collect
            } else {
                Op::Size
            }
        }
    };
    Ok(op)
}

/// So many bytes, each one more than the one before it modulo 256, from this number on.
fn rising_bytes(alloc: Global, first: u64, count: u64) -> Result<Blob, AllocError>
    requires first { first < 2 ^ 63 }
    requires count { count ≤ 2048 }
    ensures { IfOk result (λ bytes. bytes ≡ rising first count) }
{
    let mut bytes = Vec::with_capacity(alloc, count as usize)?;
    for at in 0..count {
        bytes.push(((first + at) % 256) as u8)?;
    }
    Ok(Blob::new(bytes))
}
