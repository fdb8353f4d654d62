//! A line of a trace: its form, and the call that it asks.

ghost use Rattle.std.specs.Prelude.{◌≡◌, ◌⊎◌, Option, Some, None, Ok, MatchOption, IfOk, IfErr};
ghost use Rattle.log_entry.specs.Text.{number_of};
ghost use Rattle.trace_reader.specs.Lines.{fields_of};
ghost use Rattle.trace_reader.specs.Calls.{bare_form as bare_form_of, short_form as short_form_of, long_form as long_form_of, form_of, bytes_of, op_of, line_call, IsRefusal};
ghost use Rattle.trace_reader.specs.Texts.{texts_of};

use crate::digits::read_bytes;
use crate::fields::next_field;
use crate::refusals::{BadTrace, TraceRefusal};
use log_entry::text::read_number;
use log_entry::{Blob, Op};
use std::alloc::Global;

/// The most bytes that one call may read.
const MAX_READ: u64 = 1_048_576;

/// The texts of a call, by its operation.
#[derive(Clone, Copy)]
pub enum Form<'a> {
    Pwrite { offset: &'a [u8], bytes: &'a [u8] },
    Append { bytes: &'a [u8] },
    Pread { offset: &'a [u8], length: &'a [u8] },
    Size,
    Sync,
    Collect,
}

/// A call that a line asks of a seat.
#[derive(Drop)]
pub struct SeatCall {
    pub seat: u8,
    pub op: Op,
}

/// The call that the line of this number asks of a seat below `seats`, or why it asks none: it is passed over where it has no field, or
/// its first field begins with a number sign. The checks come in this order: its form, its seat, its numbers, its bytes.
pub fn read_line(
    alloc: Global,
    text: &[u8],
    line: u64,
    seats: u8,
) -> Result<Option<SeatCall>, TraceRefusal>
    ensures call { IfOk result (λ call. line_call seats line (fields_of text.now) ≡ Ok call) }
    ensures refused { IfErr result (IsRefusal (line_call seats line (fields_of text.now))) }
{
    let Some((seat, words)) = next_field(text) else {
        return Ok(None);
    };
    if seat[0] == b'#' {
        return Ok(None);
    }
    let Some(form) = read_form(words) else {
        return Err(TraceRefusal::Bad(BadTrace::BadLine { line }));
    };
    let Some(seat) = read_number(seat) else {
        return Err(TraceRefusal::Bad(BadTrace::BadNumber { line }));
    };
    if seat >= u64::from(seats) {
        return Err(TraceRefusal::Bad(BadTrace::BadSeat { line, seat }));
    }
    let op = read_op(alloc, form, line)?;
    Ok(Some(SeatCall {
        seat: seat as u8,
        op,
    }))
}

/// The form whose fields a text has: a word and its operands. None where they are no form's.
fn read_form(text: &[u8]) -> Option<Form<'_>>
    ensures { MatchOption result (form_of (fields_of text.now) ≡ None) (λ form. form_of (fields_of text.now) ≡ Some (texts_of form)) }
{
    let Some((word, rest)) = next_field(text) else {
        return None;
    };
    let Some((first, rest)) = next_field(rest) else {
        return bare_form(word);
    };
    let Some((second, rest)) = next_field(rest) else {
        return short_form(word, first);
    };
    if next_field(rest).is_some() {
        return None;
    }
    long_form(word, first, second)
}

/// The form of a word alone.
fn bare_form(word: &[u8]) -> Option<Form<'_>>
    ensures { MatchOption result (bare_form_of word.now ≡ None) (λ form. bare_form_of word.now ≡ Some (texts_of form)) }
{
    if word == b"size".as_slice() {
        return Some(Form::Size);
    }
    if word == b"sync".as_slice() {
        return Some(Form::Sync);
    }
    if word == b"collect".as_slice() {
        return Some(Form::Collect);
    }
    None
}

/// The form of a word and one operand.
fn short_form<'a>(word: &[u8], bytes: &'a [u8]) -> Option<Form<'a>>
    ensures { MatchOption result (short_form_of word.now bytes.now ≡ None) (λ form. short_form_of word.now bytes.now ≡ Some (texts_of form)) }
{
    if word == b"append".as_slice() {
        return Some(Form::Append { bytes });
    }
    None
}

/// The form of a word and two operands.
fn long_form<'a>(word: &[u8], offset: &'a [u8], last: &'a [u8]) -> Option<Form<'a>>
    ensures { MatchOption result (long_form_of word.now offset.now last.now ≡ None) (λ form. long_form_of word.now offset.now last.now ≡ Some (texts_of form)) }
{
    if word == b"pwrite".as_slice() {
        return Some(Form::Pwrite {
            offset,
            bytes: last,
        });
    }
    if word == b"pread".as_slice() {
        return Some(Form::Pread {
            offset,
            length: last,
        });
    }
    None
}

/// The operation of a form, on the line of this number.
fn read_op(alloc: Global, form: Form<'_>, line: u64) -> Result<Op, TraceRefusal>
    ensures op { IfOk result (λ op. op_of line (texts_of form.entry) ≡ Ok op) }
    ensures refused { IfErr result (IsRefusal (op_of line (texts_of form.entry))) }
{
    match form {
        Form::Pwrite { offset, bytes } => {
            let offset = number_at(offset, line)?;
            let bytes = bytes_at(alloc, bytes, line)?;
            Ok(Op::Pwrite { offset, bytes })
        }
        Form::Append { bytes } => {
            let bytes = bytes_at(alloc, bytes, line)?;
            Ok(Op::Append { bytes })
        }
        Form::Pread { offset, length } => {
            let offset = number_at(offset, line)?;
            let length = number_at(length, line)?;
            if length > MAX_READ {
                return Err(TraceRefusal::Bad(BadTrace::BadNumber { line }));
            }
            Ok(Op::Pread { offset, length })
        }
        Form::Size => Ok(Op::Size),
        Form::Sync => Ok(Op::Sync),
        Form::Collect => Ok(Op::Collect),
    }
}

/// The number that a text is, on the line of this number.
fn number_at(text: &[u8], line: u64) -> Result<u64, TraceRefusal>
    ensures number { IfOk result (λ number. number_of text.now ≡ Some number) }
    ensures refused { IfErr result (λ why. (number_of text.now ≡ None) × (why ≡ TraceRefusal.Bad (BadTrace.BadNumber line))) }
{
    match read_number(text) {
        Some(number) => Ok(number),
        None => Err(TraceRefusal::Bad(BadTrace::BadNumber { line })),
    }
}

/// The bytes that a text is, on the line of this number.
fn bytes_at(alloc: Global, text: &[u8], line: u64) -> Result<Blob, TraceRefusal>
    ensures bytes { IfOk result (λ bytes. bytes_of text.now ≡ Some bytes) }
    ensures refused { IfErr result (λ why. (why ≡ TraceRefusal.NoMemory) ⊎ ((bytes_of text.now ≡ None) × (why ≡ TraceRefusal.Bad (BadTrace.BadHex line)))) }
{
    match read_bytes(alloc, text) {
        Ok(Some(bytes)) => Ok(bytes),
        Ok(None) => Err(TraceRefusal::Bad(BadTrace::BadHex { line })),
        Err(_) => Err(TraceRefusal::NoMemory),
    }
}
