//! The line of a call.

ghost use Rattle.std.specs.Prelude.{◌≡◌, ◌++◌, codes, decimal, IfOk, OnOk};
ghost use Rattle.log_entry.specs.Kinds.{IsReplyTo};
ghost use Rattle.history_report.specs.Report.{call_text, operation_text};

use crate::answers::push_answer;
use crate::numbers::push_named;
use log_entry::text::push_number;
use log_entry::{Call, Op};
use std::alloc::{AllocError, Global};

/// The line of a call, its newline included. The reply is of a kind that the operation has. Only want of memory refuses it.
pub fn line(alloc: Global, call: &Call) -> Result<Vec<u8>, AllocError>
    requires { IsReplyTo call.now.op call.now.reply }
    ensures { IfOk result (λ text. text.items ≡ call_text call.now) }
{
    let mut out = Vec::new(alloc);
    push_call(alloc, &mut out, call)?;
    Ok(out)
}

/// Adds the line of a call. Only want of memory refuses it.
#[tactic(auto, unfolding(crate::specs::Report::call_text))]
pub fn push_call(alloc: Global, out: &mut Vec<u8>, call: &Call) -> Result<(), AllocError>
    ensures { OnOk result (out.new.items ≡ out.old.items ++ call_text call.now) }
{
    push_place(out, call)?;
    push_operation(out, &call.op)?;
    out.extend_from_slice(b" = ")?;
    push_answer(alloc, out, &call.reply)?;
    out.extend_from_slice(b"\n")
}

fn push_place(out: &mut Vec<u8>, call: &Call) -> Result<(), AllocError>
    ensures { OnOk result (out.new.items ≡ out.old.items ++ (decimal call.now.position ++ (codes " " ++ (decimal call.now.seat ++ (codes " " ++ (decimal call.now.number ++ codes " ")))))) }
{
    push_number(out, call.position)?;
    push_named(out, b" ", u64::from(call.seat))?;
    push_named(out, b" ", u64::from(call.number))?;
    out.extend_from_slice(b" ")
}

#[tactic(auto, unfolding(crate::specs::Report::operation_text))]
fn push_operation(out: &mut Vec<u8>, op: &Op) -> Result<(), AllocError>
    ensures { OnOk result (out.new.items ≡ out.old.items ++ operation_text op.now) }
{
    match op {
        Op::Pwrite { offset, bytes } => push_range(
            out,
            b"pwrite ",
            *offset,
            bytes.bytes().len() as u64,
        ),
        Op::Append { bytes } => push_named(out, b"append ", bytes.bytes().len() as u64),
        Op::Pread { offset, length } => push_range(out, b"pread ", *offset, *length),
        Op::Size => out.extend_from_slice(b"size"),
        Op::Sync => out.extend_from_slice(b"sync"),
        Op::Collect => out.extend_from_slice(b"collect"),
    }
}

fn push_range(out: &mut Vec<u8>, name: &[u8], offset: u64, length: u64) -> Result<(), AllocError>
    ensures { OnOk result (out.new.items ≡ out.old.items ++ (name.now ++ (decimal offset ++ (codes " " ++ decimal length)))) }
{
    push_named(out, name, offset)?;
    push_named(out, b" ", length)
}
