//! Why a trace is refused.

use std::fmt;

/// The first thing that is wrong with a trace. Lines count from 1.
#[derive(Clone, Copy, Debug, PartialEq, Eq)]
pub enum BadTrace {
    /// The line is no call.
    BadLine { line: u64 },
    /// The seat is none of the volume's.
    BadSeat { line: u64, seat: u64 },
    /// A number is none, or too great.
    BadNumber { line: u64 },
    /// The bytes are no hexadecimal digits.
    BadHex { line: u64 },
    /// All reads up to this line, with its own, are more than 268,435,456 bytes.
    TooMuch { line: u64 },
    /// The trace has more than 67,108,864 bytes.
    TooLong,
}

/// Why reading a trace gave no jobs.
#[derive(Clone, Copy, Debug, PartialEq, Eq)]
pub enum TraceRefusal {
    Bad(BadTrace),
    /// Want of memory.
    NoMemory,
}

/// The name of the refusal, a space and the line, and for a seat a space and the seat; `TooLong` alone has no line.
impl fmt::Display for BadTrace {
    ghost use Rattle.std.specs.Prelude.{Some};
    ghost use Rattle.trace_reader.specs.RefusalText.{bad_trace_text};

    ghost output = { λ why. Some (bad_trace_text why) };

    fn fmt<W: fmt::Write>(&self, f: &mut fmt::Formatter<W>) -> fmt::Result {
        match self {
            BadTrace::BadLine { line } => write!(f, "BadLine {line}"),
            BadTrace::BadSeat { line, seat } => write!(f, "BadSeat {line} {seat}"),
            BadTrace::BadNumber { line } => write!(f, "BadNumber {line}"),
            BadTrace::BadHex { line } => write!(f, "BadHex {line}"),
            BadTrace::TooMuch { line } => write!(f, "TooMuch {line}"),
            BadTrace::TooLong => write!(f, "TooLong"),
        }
    }
}
