//! The bytes of a call, from their hexadecimal digits.

ghost use Rattle.std.specs.Prelude.{◌≡◌, ◌*◌, length, unwrap_or, Ok, Err, IfOk, IsTrue, false};
ghost use Rattle.hex.specs.Hex.{hex_digit_value, decode_pairs};
ghost use Rattle.hex.specs.declared.error.FromHexError.{FromHexError};
ghost use Rattle.trace_reader.specs.Calls.{bytes_of};

use log_entry::Blob;
use std::alloc::{AllocError, Global};

/// What stands for the value of a byte that is no digit.
const NO_DIGIT: u8 = 255;

/// The bytes that a text is: two hexadecimal digits each, in either case, or a dash for none; else none. Only want of memory refuses it.
pub fn read_bytes(alloc: Global, text: &[u8]) -> Result<Option<Blob>, AllocError>
    ensures { IfOk result (λ found. bytes_of text.now ≡ found) }
{
    if text == b"-".as_slice() {
        return Ok(Some(Blob::new(Vec::new(alloc))));
    }
    if text.is_empty() || text.len() % 2 != 0 {
        return Ok(None);
    }
    let mut bytes = vec![in alloc; 0u8; text.len() / 2]?;
    if decode(text, bytes.as_mut_slice()) {
        Ok(Some(Blob::new(bytes)))
    } else {
        Ok(None)
    }
}

/// Puts there the bytes whose digits a text has, two each, and says whether all are digits. It goes on after one that is none, so that no
/// byte decides what comes next.
fn decode(text: &[u8], into: &mut [u8]) -> bool
    requires { length text.now ≡ 2 * length into.old }
    ensures yes { IsTrue result → decode_pairs 0 text.now ≡ Ok into.new }
    ensures no { result ≡ false → (why : FromHexError) × (decode_pairs 0 text.now ≡ Err why) }
{
    let mut worst: u8 = 0;
    for at in 0..into.len() {
        let high = value_of(text[2 * at]);
        let low = value_of(text[2 * at + 1]);
        worst = worst.max(high).max(low);
        into[at] = high.wrapping_mul(16).wrapping_add(low);
    }
    worst != NO_DIGIT
}

/// The value of a hexadecimal digit, in either case, and `NO_DIGIT` of another byte.
fn value_of(digit: u8) -> u8
    ensures { result ≡ unwrap_or (hex_digit_value digit) 255 }
{
    if digit >= b'0' && digit <= b'9' {
        digit - b'0'
    } else if digit >= b'a' && digit <= b'f' {
        digit - b'a' + 10
    } else if digit >= b'A' && digit <= b'F' {
        digit - b'A' + 10
    } else {
        NO_DIGIT
    }
}
