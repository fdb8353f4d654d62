//! A whole report.

ghost use Rattle.std.specs.Prelude.{◌≡◌, ◌++◌, IfOk, OnOk};
ghost use Rattle.log_entry.specs.Kinds.{HaveKinds};
ghost use Rattle.history_report.specs.Report.{end_text, report_text};

use crate::lines::push_call;
use crate::numbers::push_named;
use log_entry::Call;
use std::alloc::{AllocError, Global};

/// A line for each call, in this order, and a last line with the position and the size in bytes at the end. Each reply is of a kind
/// that its operation has. Only want of memory refuses it.
pub fn print_report(
    alloc: Global,
    calls: &[Call],
    position: u64,
    size: u64,
) -> Result<Vec<u8>, AllocError>
    requires { HaveKinds calls.now }
    ensures { IfOk result (λ text. text.items ≡ report_text calls.now position size) }
{
    let mut out = Vec::new(alloc);
    for call in calls {
        push_call(alloc, &mut out, call)?;
    }
    push_end(&mut out, position, size)?;
    Ok(out)
}

#[tactic(auto, unfolding(crate::specs::Report::end_text))]
fn push_end(out: &mut Vec<u8>, position: u64, size: u64) -> Result<(), AllocError>
    ensures { OnOk result (out.new.items ≡ out.old.items ++ end_text position size) }
{
    push_named(out, b"end ", position)?;
    push_named(out, b" ", size)?;
    out.extend_from_slice(b"\n")
}
