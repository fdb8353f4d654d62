//! The trace that a command reads.

ghost use Rattle.std.specs.Prelude.{◌≡◌, ℕ, List, Some, Ok, Err, IfOk, IfErr, OnOk};
ghost use Rattle.io_ends.specs.Taking.{IsAtEnd};
ghost use Rattle.trace_reader.specs.Trace.{IsTrace};
ghost use Rattle.madfs_cli.specs.Traces.{ReadsCalls, is_made as is_made_of, unmade_line as unmade_line_of};
ghost use Rattle.madfs_cli.specs.Inputs.{IsNotRead};

use crate::statuses::Status;
use io_ends::{ReadAll, Source, read_all};
use log_entry::{Job, Op};
use std::alloc::Global;
use trace_reader::{BadTrace, TraceRefusal, read_trace};

/// The most bytes that a trace may have.
const TRACE_LIMIT: usize = 67_108_864;

/// The jobs of the trace that a source has left, read to its end. A line whose call no command makes yet is a bad one, where no line is bad
/// otherwise.
pub fn read_jobs<T: Source>(alloc: Global, trace: &mut T) -> Result<Vec<Job>, Status>
    ensures jobs { IfOk result (λ jobs. IsTrace 1 jobs.items) }
    ensures read { IfOk result (λ jobs. (bytes : List ℕ) → T.left trace.old ≡ Some bytes → ReadsCalls bytes (Ok jobs.items)) }
    ensures end { OnOk result (IsAtEnd (T.left trace.new)) }
    ensures refused { IfErr result (IsNotRead (T.left trace.old) (T.faults trace.old) (T.faults trace.new)) }
{
    let bytes = match read_all(alloc, trace, TRACE_LIMIT) {
        Ok(bytes) => bytes,
        Err(ReadAll::ReadFault) => return Err(Status::ReadFault),
        Err(ReadAll::TooLong) => return Err(Status::BadTrace(BadTrace::TooLong)),
        Err(ReadAll::NoMemory) => return Err(Status::NoMemory),
    };
    match read_trace(alloc, bytes.as_slice(), 1) {
        Ok(jobs) => match unmade_line(&jobs) {
            None => Ok(jobs),
            Some(line) => Err(Status::BadTrace(BadTrace::BadLine { line })),
        },
        Err(TraceRefusal::Bad(why)) => Err(Status::BadTrace(why)),
        Err(TraceRefusal::NoMemory) => Err(Status::NoMemory),
    }
}

/// The line of the first job whose call no command makes yet.
fn unmade_line(jobs: &[Job]) -> Option<u64>
    ensures { unmade_line_of jobs.now ≡ result }
{
    for job in jobs {
        if !is_made(&job.op) {
            return Some(job.line);
        }
    }
    None
}

/// Whether commands make this call.
fn is_made(op: &Op) -> bool
    ensures { result ≡ is_made_of op.now }
{
    match op {
        Op::Pwrite { .. } | Op::Pread { .. } => true,
        Op::Append { .. } | Op::Size | Op::Sync | Op::Collect => false,
    }
}
