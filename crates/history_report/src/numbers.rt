//! Numbers behind what they are called.

ghost use Rattle.std.specs.Prelude.{◌≡◌, ◌++◌, decimal, OnOk};

use log_entry::text::push_number;
use std::alloc::AllocError;

/// Adds a name and then a number in decimal digits. Only want of memory refuses it.
pub fn push_named(out: &mut Vec<u8>, name: &[u8], number: u64) -> Result<(), AllocError>
    ensures { OnOk result (out.new.items ≡ out.old.items ++ (name.now ++ decimal number)) }
{
    out.extend_from_slice(name)?;
    push_number(out, number)
}
