//! The top call: one command, from its words to its status.

ghost use Rattle.std.specs.Prelude.{◌≡◌, ◌≢◌, ◌↔◌, ◌⊎◌, true, false};
ghost use Rattle.io_ends.specs.Taking.{IsAtEnd};
ghost use Rattle.opening_rules.specs.declared.refusals.BadImage.{BadImage};
ghost use Rattle.trace_reader.specs.declared.refusals.BadTrace.{BadTrace};
ghost use Rattle.madfs_cli.specs.Commands.{Request, Asks, IsCommand, request_of, reads_image, reads_trace, writes_image};
ghost use Rattle.madfs_cli.specs.Inputs.{WasAccepted};
ghost use Rattle.madfs_cli.specs.Outcomes.{IsOutcome};

use crate::answers::{output_of, show_file};
use crate::commands::{Command, read_command};
use crate::outputs::write_output;
use crate::statuses::Status;
use crate::watch::Watch;
use io_ends::{Sink, Source, Words};
use std::alloc::Global;

/// Runs a command, and says how it ended.
fn run_command<I: Source, T: Source, O: Sink, N: Sink, W: Watch>(
    alloc: Global,
    command: Command,
    image: &mut I,
    trace: &mut T,
    report: &mut O,
    fresh: &mut N,
    watch: &W,
) -> Status
    ensures not_usage { result ≢ Status.Usage }
    ensures image_kept { reads_image (request_of command) ≡ false → image.new ≡ image.old }
    ensures trace_kept { reads_trace (request_of command) ≡ false → trace.new ≡ trace.old }
    ensures fresh_kept { writes_image (request_of command) ≡ false → fresh.new ≡ fresh.old }
    ensures trace_after_image { reads_image (request_of command) ≡ true → (trace.new ≡ trace.old)
        ⊎ WasAccepted (I.left image.old) (I.left image.new) }
    ensures trace_at_bad_image { (why : BadImage) → result ≡ Status.BadImage why → trace.new ≡ trace.old }
    ensures order { ((report.new ≡ report.old) × (fresh.new ≡ fresh.old))
        ⊎ ((reads_image (request_of command) ≡ true → IsAtEnd (I.left image.new))
        × (reads_trace (request_of command) ≡ true → IsAtEnd (T.left trace.new))) }
    ensures unwritten { (result ≡ Status.ReadFault) ⊎ ((why : BadImage) × (result ≡ Status.BadImage why))
        ⊎ ((why : BadTrace) × (result ≡ Status.BadTrace why))
        → (report.new ≡ report.old) × (fresh.new ≡ fresh.old) }
    ensures outcome { IsOutcome (request_of command)
        (record {
          image = record {
            left = I.left image.old;
            faults_before = I.faults image.old;
            faults_after = I.faults image.new;
          };
          trace = record {
            left = T.left trace.old;
            faults_before = T.faults trace.old;
            faults_after = T.faults trace.new;
          };
          report = record {
            given_before = O.written report.old;
            given_after = O.written report.new;
            faults_before = O.faults report.old;
            faults_after = O.faults report.new;
          };
          fresh = record {
            given_before = N.written fresh.old;
            given_after = N.written fresh.new;
            faults_before = N.faults fresh.old;
            faults_after = N.faults fresh.new;
          };
        })
        result }
{
    let making = match command {
        Command::Make(making) => making,
        Command::Cat => return show_file(alloc, image, report),
    };
    match output_of(alloc, making, image, trace, watch) {
        Ok(output) => write_output(&output, report, fresh),
        Err(status) => status,
    }
}

/// Runs the command that the words are, with these things to read and to write, and says how it ended.
///
/// The order of work is: the words, the image read to its end, opened and cleared, the trace read to its end, the calls, the
/// report, the new image. `mkfs` reads nothing and writes the line of the new image's size and the image; `try`, of one seat,
/// reads the trace and writes the report of its run on a just-made image; `replay`, of one seat, reads the image and the trace
/// and writes the report and the image after the run; `cat` and `dump` read the image and write its file and its text;
/// `generate` reads nothing and writes the trace of a number. The image
/// that `mkfs` or `replay` writes opens, to the empty file at position 0 or to what the run leaves.
/// Of a source or a sink that does not tell its bytes, the clauses say what is kept, and the causes.
/// After each call of a trace it tells `watch` how many are made; no clause depends on that.
pub fn run<I: Source, T: Source, O: Sink, N: Sink, W: Watch>(
    alloc: Global,
    words: &Words,
    image: &mut I,
    trace: &mut T,
    report: &mut O,
    fresh: &mut N,
    watch: &W,
) -> Status
    // The words alone decide whether there is a command, and without one nothing is read or written.
    ensures usage { (result ≡ Status.Usage) ↔ (IsCommand words.now → ⊥) }
    ensures command { result ≢ Status.Usage → IsCommand words.now }
    ensures unread { result ≡ Status.Usage → (image.new ≡ image.old) × (trace.new ≡ trace.old)
        × (report.new ≡ report.old) × (fresh.new ≡ fresh.old) }

    // What the command does not name is as before.
    ensures image_kept { (request : Request) → Asks words.now request → reads_image request ≡ false
        → image.new ≡ image.old }
    ensures trace_kept { (request : Request) → Asks words.now request → reads_trace request ≡ false
        → trace.new ≡ trace.old }
    ensures fresh_kept { (request : Request) → Asks words.now request → writes_image request ≡ false
        → fresh.new ≡ fresh.old }

    // The trace is not touched before the image was read to its end and accepted.
    ensures trace_after_image { (request : Request) → Asks words.now request → reads_image request ≡ true
        → (trace.new ≡ trace.old) ⊎ WasAccepted (I.left image.old) (I.left image.new) }
    ensures trace_at_bad_image { (why : BadImage) → result ≡ Status.BadImage why → trace.new ≡ trace.old }

    // Nothing is written before what the command reads was read to its end.
    ensures order { (request : Request) → Asks words.now request → ((report.new ≡ report.old) × (fresh.new ≡ fresh.old))
        ⊎ ((reads_image request ≡ true → IsAtEnd (I.left image.new))
        × (reads_trace request ≡ true → IsAtEnd (T.left trace.new))) }
    ensures unwritten { (result ≡ Status.ReadFault) ⊎ ((why : BadImage) × (result ≡ Status.BadImage why))
        ⊎ ((why : BadTrace) × (result ≡ Status.BadTrace why))
        → (report.new ≡ report.old) × (fresh.new ≡ fresh.old) }

    // What is written at `Done`, the cause of every other way to end, and that a command whose inputs are not refused ends as
    // done where no count of faults rises, but for want of memory.
    ensures outcome { (request : Request) → Asks words.now request → IsOutcome request
        (record {
          image = record {
            left = I.left image.old;
            faults_before = I.faults image.old;
            faults_after = I.faults image.new;
          };
          trace = record {
            left = T.left trace.old;
            faults_before = T.faults trace.old;
            faults_after = T.faults trace.new;
          };
          report = record {
            given_before = O.written report.old;
            given_after = O.written report.new;
            faults_before = O.faults report.old;
            faults_after = O.faults report.new;
          };
          fresh = record {
            given_before = N.written fresh.old;
            given_after = N.written fresh.new;
            faults_before = N.faults fresh.old;
            faults_after = N.faults fresh.new;
          };
        })
        result }
{
    match read_command(words) {
        None => Status::Usage,
        Some(command) => run_command(alloc, command, image, trace, report, fresh, watch),
    }
}
