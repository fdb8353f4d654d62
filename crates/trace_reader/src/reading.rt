//! Reading a trace.

ghost use Rattle.std.specs.Prelude.{◌≡◌, ℕ, Ok, IfOk, IfErr};
ghost use Rattle.log_entry.specs.declared.calls.Op.{Op};
ghost use Rattle.trace_reader.specs.Trace.{IsTrace, read_length};
ghost use Rattle.trace_reader.specs.Reading.{ReadsTrace, RefusesTrace};

use crate::fields::split_line;
use crate::lines::read_line;
use crate::refusals::{BadTrace, TraceRefusal};
use log_entry::{Job, Op};
use std::alloc::Global;

/// The most bytes that a trace may have.
const MAX_TRACE: usize = 67_108_864;

/// The most bytes that all calls of a trace may read.
const MAX_READS: u64 = 268_435_456;

/// The jobs that a trace asks of the seats below `seats`, or why it asks none: the first line that is bad, with the first check that it
/// fails, a trace of more than 67,108,864 bytes, or want of memory.
pub fn read_trace(alloc: Global, bytes: &[u8], seats: u8) -> Result<Vec<Job>, TraceRefusal>
    ensures read { IfOk result (λ jobs. ReadsTrace seats bytes.now (Ok jobs.items)) }
    ensures jobs { IfOk result (λ jobs. IsTrace seats jobs.items) }
    ensures refused { IfErr result (λ why. RefusesTrace seats bytes.now why) }
{
    if bytes.len() > MAX_TRACE {
        return Err(TraceRefusal::Bad(BadTrace::TooLong));
    }
    let mut counts = vec![in alloc; 0u32; usize::from(seats)].map_err(|_| TraceRefusal::NoMemory)?;
    let mut jobs = Vec::new(alloc);
    let mut total = 0;
    let mut next = 1;
    let mut rest = bytes;
    'lines: while !rest.is_empty() {
        let (text, behind) = split_line(rest);
        let line = next;
        let found = read_line(alloc, text, line, seats)?;
        rest = behind;
        next += 1;
        let Some(call) = found else {
            continue 'lines;
        };
        let length = length_of(&call.op);
        if total + length > MAX_READS {
            return Err(TraceRefusal::Bad(BadTrace::TooMuch { line }));
        }
        total += length;
        let seat = usize::from(call.seat);
        let number = counts[seat] + 1;
        counts[seat] = number;
        let job = Job {
            line,
            seat: call.seat,
            number,
            op: call.op,
        };
        let Ok(()) = jobs.push(job) else {
            return Err(TraceRefusal::NoMemory);
        };
    }
    Ok(jobs)
}

/// How many bytes a call asks to read.
fn length_of(op: &Op) -> u64
    ensures { result ≡ read_length op.now }
{
    match op {
        Op::Pread { length, .. } => *length,
        Op::Pwrite { .. } | Op::Append { .. } | Op::Size | Op::Sync | Op::Collect => 0,
    }
}
