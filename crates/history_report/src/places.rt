//! The order of a report, by the place of each call.

ghost use Rattle.std.specs.Prelude.{◌≡◌, IfOk};
ghost use Rattle.log_entry.specs.Legal.{is_write};
ghost use Rattle.log_entry.specs.Order.{place_of, Orders};

use log_entry::{Call, Op, Reply};
use std::alloc::{AllocError, Global};

/// The same calls in the order of a report: by position; then an accepted write of at least one byte before the other calls of that
/// position; then by seat; then by number. Calls that tie in all of these keep their order. Only want of memory refuses it, and then
/// the calls are gone.
pub fn order(alloc: Global, calls: Vec<Call>) -> Result<Vec<Call>, AllocError>
    ensures { IfOk result (λ ordered. Orders calls.items ordered.items) }
{
    let mut ordered = calls;
    ordered
        .as_mut_slice()
        .sort_by_key(alloc, |call| place(call))?;
    Ok(ordered)
}

/// Whether a call is an accepted `pwrite` or `append` of at least one byte.
pub fn is_write(call: &Call) -> bool
    ensures { result ≡ is_write call.now.op call.now.reply }
{
    match (&call.op, &call.reply) {
        (Op::Pwrite { bytes, .. }, Reply::Wrote { .. }) => !bytes.bytes().is_empty(),
        (Op::Append { bytes }, Reply::Appended { .. }) => !bytes.bytes().is_empty(),
        _ => false,
    }
}

fn place(call: &Call) -> (u64, bool, u8, u32)
    ensures { result ≡ place_of call.now }
{
    (call.position, !is_write(call), call.seat, call.number)
}
