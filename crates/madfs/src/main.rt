//! The program: makes the real things, calls the top call, and shows its status.
#![tactic(auto)]

ghost use Rattle.std.specs.Prelude.{◌≡◌, ◌⊎◌, ◌++◌, IfOk, IfErr, MatchOption, string_bytes};
ghost use Rattle.madfs_cli.specs.Commands.{IsCommand};

mod image_file;
mod new_image;
mod progress;

use crate::image_file::{ImageFile, NO_FILE};
use crate::new_image::NewImage;
use crate::progress::{ASKED_BY, Counted, Progress};
use io_ends::{FromRead, ToWrite, Words};
use madfs_cli::{Status, run};
use std::alloc::{AllocError, Global};
use std::io::{Eprint, IsTerminal};
use std::process::ExitCode;
use std::rt::{Env, Files};
use std::time::Clock;
use std::{env, io};

/// What `--help` prints.
const HELP: &str = "\
madfs <image> <command> <arguments>

    madfs disk.img mkfs 40 4 512
    printf '0 pwrite 0 616263\\n' | madfs disk.img replay 1
    madfs disk.img cat

An image is a file that holds one file, as blocks and a log of its writes.

mkfs <data blocks> <log blocks> <block bytes>
    makes an image, in the place of what has its name; prints its size
try <data blocks> <log blocks> <block bytes> <seats>
    runs the trace on standard input on a just-made image, which is not kept,
    and prints the report
replay <seats>
    runs the trace on standard input on the image, prints the report, and puts
    the image after it in the image's place
cat
    prints the file that the image holds
dump
    checks the image, and prints its log
generate <number> <seats> <calls>
    prints a trace of so many calls of so many seats, drawn from the number

A trace has one call a line, its fields between spaces or tabs:
    <seat> pwrite <offset> <bytes>
    <seat> pread <offset> <length>
Seats count from 0. A byte is two hex digits; - is no bytes. Lines that are
empty or begin with # are passed over.

Ranges of generate: numbers below 4294967296, seats 1 to 16, at most 20000
calls. It has calls that try and replay do not make yet: append, size, sync
and collect.

Ranges: data and log blocks from 1, at most 65535 blocks with those that mkfs
adds; block bytes 64, 512 or 4096; seats 1; the file up to 65536 blocks; one
read up to 1048576 bytes, all up to 268435456; a trace up to 67108864 bytes.

The image - stands for an image of no bytes, and for a new image that is
thrown away. A new image is written to a file with .new after the image's
name, which must not be there yet, and is renamed over the image once it is
on the disk. So a run that fails or is killed leaves the image as it was, and
of two runs on one image at a time one fails, with status 6.

Exit status, where it is not 0 with one line on standard error:
0: done
2: no such command; see above
3: the image is refused, for what the line says
4: the trace is refused, for what the line says
5: the image or the trace could not be read; check its name
6: the report or the new image could not be written; check the disk's room.
   Or another run is or was at work on the image: run again. Or one that was
   killed left its file with .new: see that no run is at work, and remove it
7: no memory

A run of more than a second says on standard error how far it is, on a line
that it wipes in the end, where that is a terminal, or where the environment
has MADFS_PROGRESS.";

/// What `--version` prints.
const VERSION: &str = "madfs 0.1.0";

/// What stands after the image's name in that of the file that a new image goes to.
const SUFFIX: &str = ".new";

/// What the arguments of the program ask.
#[derive(Drop)]
enum Invocation {
    Help,
    Version,
    /// A command of these words, on the image of this name.
    Command { image: String, words: Words },
}

/// The arguments of the program: the image's name, and the words of a command after it.
///
/// An argument that is no text is a faulty command line.
fn read_arguments<R: Env + AllocGlobal>(rt: &R) -> Result<Invocation, Status>
    ensures { IfErr result (λ status. (status ≡ Status.Usage) ⊎ (status ≡ Status.NoMemory)) }
{
    let mut words = Words::new(rt.alloc());
    let mut arguments = match env::args(rt) {
        Ok(arguments) => arguments,
        Err(fault) if fault.kind() == io::ErrorKind::OutOfMemory => return Err(Status::NoMemory),
        Err(_) => return Err(Status::Usage),
    };
    let _program = arguments.next();
    let Some(image) = arguments.next() else {
        let image = String::new(rt.alloc());
        return Ok(Invocation::Command { image, words });
    };
    for word in arguments {
        if words.push(word.as_str()).is_err() {
            return Err(Status::NoMemory);
        }
    }
    if words.count() == 0 && image.as_str() == "--help" {
        return Ok(Invocation::Help);
    }
    if words.count() == 0 && image.as_str() == "--version" {
        return Ok(Invocation::Version);
    }
    Ok(Invocation::Command { image, words })
}

/// The name of the file that a new image goes to: that of the image and `.new`, or none where it is thrown away.
fn new_name(alloc: Global, image: &str) -> Result<Option<String>, AllocError>
    ensures { IfOk result (λ name. MatchOption name (image.now ≡ NO_FILE.now) (λ text. string_bytes text ≡ image.now ++ SUFFIX.now)) }
{
    if image == NO_FILE {
        return Ok(None);
    }
    let name = format!(in alloc; "{image}{SUFFIX}")?;
    Ok(Some(name))
}

/// Runs a command on the image of this name, standard input and standard output. Where it is done and made a new image, that takes
/// the image's place, and where that fails it is a write fault. Where it is not done, the image is as before.
fn run_command<R: Input + Print + Eprint + Files + Clock + AllocGlobal>(
    rt: &R,
    image: &str,
    words: &Words,
    shown: bool,
) -> Status
    ensures { result ≡ Status.Usage → IsCommand words.now → ⊥ }
{
    let alloc: Global = rt.alloc();
    let Ok(name) = new_name(alloc, image) else {
        return Status::NoMemory;
    };
    let progress = Progress::new(rt, shown);
    let mut source = Counted::new(ImageFile::new(rt, image), &progress);
    let fresh = NewImage::new(rt, name.as_ref().map(|name| name.as_str()));
    let mut fresh = Counted::new(fresh, &progress);
    let mut trace = Counted::new(FromRead::new(rt.reader()), &progress);
    let mut report = Counted::new(ToWrite::new(io::writer(rt)), &progress);
    let status = run(
        alloc,
        words,
        &mut source,
        &mut trace,
        &mut report,
        &mut fresh,
        &progress,
    );
    progress.wipe();
    if status != Status::Done {
        fresh.inner().remove();
    } else if !fresh.inner().replace(source.inner()) {
        return Status::WriteFault;
    }
    status
}

/// Whether a run is to say how far it is: standard error is a terminal, or the environment asks for it.
fn shows_progress<R: Env + AllocGlobal>(rt: &R, error: &impl IsTerminal) -> bool {
    error.is_terminal() || env::var(rt, ASKED_BY).is_ok()
}

/// Prints a text of the program's own. A write that fails is the program's write fault.
fn print_text(rt: &impl Print, text: &str) -> Status
    ensures { (result ≡ Status.Done) ⊎ (result ≡ Status.WriteFault) }
{
    match println!(rt; "{text}") {
        Ok(()) => Status::Done,
        Err(_) => Status::WriteFault,
    }
}

fn main(rt: HostRuntime) -> ExitCode {
    let status = match read_arguments(&rt) {
        Ok(Invocation::Help) => print_text(&rt, HELP),
        Ok(Invocation::Version) => print_text(&rt, VERSION),
        Ok(Invocation::Command { image, words }) => {
            let shown = shows_progress(&rt, &rt.stderr());
            run_command(&rt, image.as_str(), &words, shown)
        }
        Err(status) => status,
    };
    if status != Status::Done {
        let _ = eprintln!(rt; "{status}");
    }
    ExitCode::from(status.exit_code())
}
