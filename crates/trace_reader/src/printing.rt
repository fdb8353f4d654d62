//! Printing a trace.

ghost use Rattle.std.specs.Prelude.{◌≡◌, ◌++◌, IfOk, OnOk, decimal};
ghost use Rattle.trace_reader.specs.TraceText.{line_text, op_text, trace_text};

use log_entry::text::{push_bytes, push_number};
use log_entry::{Job, Op};
use std::alloc::{AllocError, Global};

/// The text of these jobs: a line for each, in order. Only want of memory refuses it.
pub fn print_trace(alloc: Global, jobs: &[Job]) -> Result<Vec<u8>, AllocError>
    ensures { IfOk result (λ text. text.items ≡ trace_text jobs.now) }
{
    let mut out = Vec::new(alloc);
    for job in jobs {
        push_line(alloc, &mut out, job)?;
    }
    Ok(out)
}

/// Adds the line of a job.
fn push_line(alloc: Global, out: &mut Vec<u8>, job: &Job) -> Result<(), AllocError>
    ensures { OnOk result (out.new.items ≡ out.old.items ++ line_text job.now) }
{
    push_number(out, u64::from(job.seat))?;
    out.extend_from_slice(b" ")?;
    push_op(alloc, out, &job.op)?;
    out.extend_from_slice(b"\n")
}

/// Adds what a line says after the seat.
fn push_op(alloc: Global, out: &mut Vec<u8>, op: &Op) -> Result<(), AllocError>
    ensures { OnOk result (out.new.items ≡ out.old.items ++ op_text op.now) }
{
    match op {
        Op::Pwrite { offset, bytes } => {
            push_word_and_number(out, b"pwrite ", *offset)?;
            out.extend_from_slice(b" ")?;
            push_bytes(alloc, out, bytes.bytes())
        }
        Op::Append { bytes } => {
            out.extend_from_slice(b"append ")?;
            push_bytes(alloc, out, bytes.bytes())
        }
        Op::Pread { offset, length } => {
            push_word_and_number(out, b"pread ", *offset)?;
            push_word_and_number(out, b" ", *length)
        }
        Op::Size => out.extend_from_slice(b"size"),
        Op::Sync => out.extend_from_slice(b"sync"),
        Op::Collect => out.extend_from_slice(b"collect"),
    }
}

/// Adds these bytes, and a number in decimal digits.
fn push_word_and_number(out: &mut Vec<u8>, word: &[u8], number: u64) -> Result<(), AllocError>
    ensures { OnOk result (out.new.items ≡ out.old.items ++ word.now ++ decimal number) }
{
    out.extend_from_slice(word)?;
    push_number(out, number)
}
