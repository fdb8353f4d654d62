//! How a command ends.

ghost use Rattle.std.specs.Prelude.{◌≡◌};

use opening_rules::BadImage;
use std::fmt;
use trace_reader::BadTrace;

/// How a command ended. Each but `Done` and `NoMemory` comes only for its cause.
#[derive(Clone, Copy, Debug, PartialEq, Eq)]
pub enum Status {
    /// All was read, done and written.
    Done,
    /// The words are no command. Nothing was read or written.
    Usage,
    /// The image is refused, for this. Nothing was written.
    BadImage(BadImage),
    /// The trace is refused, for this. Nothing was written.
    BadTrace(BadTrace),
    /// A read failed. Nothing was written.
    ReadFault,
    /// A write failed. A first part of the text was written, or all of it and a first part of the new image.
    WriteFault,
    /// Want of memory. Nothing was written, or a first part of the text, or all of it and a first part of the new image.
    NoMemory,
}

impl Status {
    ghost use Rattle.madfs_cli.specs.Endings.{exit_code_of};

    /// The exit status of the program: 0 for `Done`, and 2 to 7 for the others, in their order.
    pub fn exit_code(&self) -> u8
        ensures { result ≡ exit_code_of self.now }
    {
        match self {
            Status::Done => 0,
            Status::Usage => 2,
            Status::BadImage(_) => 3,
            Status::BadTrace(_) => 4,
            Status::ReadFault => 5,
            Status::WriteFault => 6,
            Status::NoMemory => 7,
        }
    }
}

/// The line on standard error, without its newline; for `Done` there is none.
impl fmt::Display for Status {
    ghost use Rattle.std.specs.Prelude.{Some};
    ghost use Rattle.madfs_cli.specs.Endings.{ending_line};

    ghost output = { λ status. Some (ending_line status) };

    fn fmt<W: fmt::Write>(&self, f: &mut fmt::Formatter<W>) -> fmt::Result {
        match self {
            Status::Done => Ok(()),
            Status::Usage => write!(f, "madfs: usage: madfs <image> <command> <arguments>"),
            Status::BadImage(why) => write!(f, "madfs: image: {why}"),
            Status::BadTrace(why) => write!(f, "madfs: trace: {why}"),
            Status::ReadFault => write!(f, "madfs: read fault"),
            Status::WriteFault => write!(f, "madfs: write fault"),
            Status::NoMemory => write!(f, "madfs: no memory"),
        }
    }
}
