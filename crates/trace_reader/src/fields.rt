//! The lines of a text, and the fields of a line.

ghost use Rattle.std.specs.Prelude.{◌≡◌, ◌<◌, ◌≤◌, ◌⊎◌, ◌∷◌, [], length, slice_index, false, MatchOption};
ghost use Rattle.trace_reader.specs.Lines.{lines_of, fields_of, is_blank as is_blank_byte, without_return as said_of};

use memchr::{memchr, memchr2};

/// The first line of a text that has bytes, without its end, and what follows it.
pub fn split_line(text: &[u8]) -> (&[u8], &[u8])
    requires { 0 < length text.now }
    ensures lines { lines_of text.now ≡ result.0.now ∷ lines_of result.1.now }
    ensures shorter { length result.1.now < length text.now }
{
    let Some(end) = memchr(b'\n', text) else {
        return text.split_at(text.len());
    };
    let (line, _) = text.split_at(end);
    let (_, rest) = text.split_at(end + 1);
    (without_return(line), rest)
}

/// A line without the carriage return at its end, if one is there.
fn without_return(line: &[u8]) -> &[u8]
    ensures { result.now ≡ said_of line.now }
{
    if line.is_empty() || line[line.len() - 1] != b'\r' {
        return line;
    }
    let (said, _) = line.split_at(line.len() - 1);
    said
}

/// The first field of a line, and what follows it. None where only blanks are left.
pub fn next_field(text: &[u8]) -> Option<(&[u8], &[u8])>
    ensures { MatchOption result
        (fields_of text.now ≡ [])
        (λ found. (fields_of text.now ≡ found.0.now ∷ fields_of found.1.now) × (0 < length found.0.now)) }
{
    let text = skip_blanks(text);
    if text.is_empty() {
        return None;
    }
    let Some(end) = memchr2(b' ', b'\t', text) else {
        return Some(text.split_at(text.len()));
    };
    Some(text.split_at(end))
}

/// A text without the blanks at its front.
fn skip_blanks(text: &[u8]) -> &[u8]
    ensures same { fields_of result.now ≡ fields_of text.now }
    ensures field { (length result.now ≡ 0) ⊎ (is_blank_byte (slice_index result.now 0) ≡ false) }
{
    for (count, byte) in text.iter().enumerate() {
        if !is_blank(*byte) {
            let (_, rest) = text.split_at(count);
            return rest;
        }
    }
    let (_, rest) = text.split_at(text.len());
    rest
}

/// Whether a byte stands between fields: a space or a tab.
fn is_blank(byte: u8) -> bool
    ensures { result ≡ is_blank_byte byte }
{
    byte == b' ' || byte == b'\t'
}
