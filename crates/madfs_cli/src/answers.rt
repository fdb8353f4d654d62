//! What each command makes of what it reads.

ghost use Rattle.std.specs.Prelude.{◌≡◌, ◌≢◌, ◌⊎◌, ℕ, List, [], Some, Ok, IfOk, IfErr, OnOk, true, false};
ghost use Rattle.io_ends.specs.Taking.{IsAtEnd};
ghost use Rattle.log_image.specs.Image.{shape_by};
ghost use Rattle.madfs_cli.specs.Commands.{ShowFile, made_request, reads_image, reads_trace, writes_image};
ghost use Rattle.madfs_cli.specs.Inputs.{IsNotOpened, WasAccepted};
ghost use Rattle.madfs_cli.specs.Images.{RefusesImage, IsDumpOf, made_text, IsNewImage};
ghost use Rattle.madfs_cli.specs.Outcomes.{TakenFrom, GivenTo, IsOutcome, IsOutputOf, ImageRefused, TraceRefused, IsNotMade};
ghost use Rattle.opening_rules.specs.declared.refusals.BadImage.{BadImage};
ghost use Rattle.trace_reader.specs.TraceText.{trace_text};
ghost use Rattle.trace_reader.specs.Generator.{generated};
ghost use Rattle.trace_reader.specs.declared.refusals.BadTrace.{BadTrace};

use crate::commands::Making;
use crate::images::open_image;
use crate::outputs::Output;
use crate::replays::{note_range, replay_trace, try_trace};
use crate::statuses::Status;
use crate::watch::Watch;
use crate::work::Work;
use image_tools::{dump, mkfs, write_file};
use io_ends::{Sink, Source, WriteAll};
use log_entry::text::push_number;
use log_entry::{Geometry, to_bytes};
use log_image::laws::{law_just_made, law_one_meaning};
use std::alloc::{AllocError, Global};
use trace_reader::{generate, print_trace};

/// The line that says how large an image of this shape is: its blocks and its bytes.
fn size_line(alloc: Global, shape: Geometry) -> Result<Vec<u8>, AllocError>
    ensures { IfOk result (λ text. text.items ≡ made_text (shape_by shape)) }
{
    let blocks = u64::from(shape.total());
    let mut text = Vec::new(alloc);
    text.extend_from_slice(b"blocks ")?;
    push_number(&mut text, blocks)?;
    text.extend_from_slice(b" bytes ")?;
    push_number(&mut text, blocks * u64::from(shape.block_bytes()))?;
    text.extend_from_slice(b"\n")?;
    Ok(text)
}

/// A just-made image of this shape, and the line that says how large it is.
fn make_image(alloc: Global, shape: Geometry) -> Result<Output, AllocError>
    ensures text { IfOk result (λ output. output.text.items ≡ made_text (shape_by shape)) }
    ensures image { IfOk result (λ output. IsNewImage (shape_by shape) output.image.items) }
{
    law_just_made();
    let start = mkfs(alloc, shape)?;
    note_range(start.words());
    let image = to_bytes(alloc, start.words())?;
    let text = size_line(alloc, shape)?;
    Ok(Output { text, image })
}

/// The trace of this work.
fn make_trace(alloc: Global, work: Work) -> Result<Output, AllocError>
    ensures text { IfOk result (λ output. output.text.items ≡ trace_text (generated work.number work.seats work.calls)) }
    ensures image { IfOk result (λ output. output.image.items ≡ []) }
{
    let jobs = generate(alloc, work.number, work.seats, work.calls)?;
    let text = print_trace(alloc, &jobs)?;
    Ok(Output {
        text,
        image: Vec::new(alloc),
    })
}

/// Writes the file of the image that a source has left, read to its end, and says how that ended.
pub fn show_file<I: Source, O: Sink>(alloc: Global, image: &mut I, report: &mut O) -> Status
    ensures not_usage { result ≢ Status.Usage }
    ensures order { (report.new ≡ report.old) ⊎ IsAtEnd (I.left image.new) }
    ensures unwritten { (result ≡ Status.ReadFault) ⊎ ((why : BadImage) × (result ≡ Status.BadImage why))
        ⊎ ((why : BadTrace) × (result ≡ Status.BadTrace why)) → report.new ≡ report.old }
    ensures outcome { (trace : TakenFrom) (fresh : GivenTo) → fresh.given_after ≡ fresh.given_before
        → IsOutcome ShowFile
        (record {
          image = record {
            left = I.left image.old;
            faults_before = I.faults image.old;
            faults_after = I.faults image.new;
          };
          trace = trace;
          report = record {
            given_before = O.written report.old;
            given_after = O.written report.new;
            faults_before = O.faults report.old;
            faults_after = O.faults report.new;
          };
          fresh = fresh;
        })
        result }
{
    law_one_meaning();
    let start = match open_image(alloc, image) {
        Ok(start) => start,
        Err(status) => return status,
    };
    match write_file(alloc, &start, report) {
        Ok(()) => Status::Done,
        Err(WriteAll::WriteFault) => Status::WriteFault,
        Err(WriteAll::NoMemory) => Status::NoMemory,
    }
}

/// The text of the image that a source has left, read to its end.
fn show_image<I: Source>(alloc: Global, image: &mut I) -> Result<Output, Status>
    ensures text { IfOk result (λ output. (bytes : List ℕ) → I.left image.old ≡ Some bytes
        → IsDumpOf bytes output.text.items) }
    ensures accepted { OnOk result ((bytes : List ℕ) (why : BadImage) → I.left image.old ≡ Some bytes
        → RefusesImage bytes why → ⊥) }
    ensures image { IfOk result (λ output. output.image.items ≡ []) }
    ensures end { OnOk result (IsAtEnd (I.left image.new)) }
    ensures refused { IfErr result (IsNotOpened (I.left image.old) (I.faults image.old) (I.faults image.new)) }
{
    let start = open_image(alloc, image)?;
    let Ok(text) = dump(alloc, &start) else {
        return Err(Status::NoMemory);
    };
    Ok(Output {
        text,
        image: Vec::new(alloc),
    })
}

/// What is made of the image and the trace that it takes, each read to its end.
pub fn output_of<I: Source, T: Source, W: Watch>(
    alloc: Global,
    making: Making,
    image: &mut I,
    trace: &mut T,
    watch: &W,
) -> Result<Output, Status>
    ensures made { IfOk result (λ output. IsOutputOf (made_request making)
        (record { left = I.left image.old; faults_before = I.faults image.old; faults_after = I.faults image.new })
        (record { left = T.left trace.old; faults_before = T.faults trace.old; faults_after = T.faults trace.new })
        output.text.items output.image.items) }
    ensures no_image { writes_image (made_request making) ≡ false → IfOk result (λ output. output.image.items ≡ []) }
    ensures image_good { OnOk result ((why : BadImage) → ImageRefused (made_request making) (record { left = I.left image.old; faults_before = I.faults image.old; faults_after = I.faults image.new }) why → ⊥) }
    ensures trace_good { OnOk result ((why : BadTrace) → TraceRefused (made_request making) (record { left = T.left trace.old; faults_before = T.faults trace.old; faults_after = T.faults trace.new }) why → ⊥) }
    ensures trace_after_image { reads_image (made_request making) ≡ true → (trace.new ≡ trace.old)
        ⊎ WasAccepted (I.left image.old) (I.left image.new) }
    ensures trace_at_bad_image { IfErr result (λ status. (why : BadImage) → status ≡ Status.BadImage why
        → trace.new ≡ trace.old) }
    ensures image_end { OnOk result (reads_image (made_request making) ≡ true → IsAtEnd (I.left image.new)) }
    ensures trace_end { OnOk result (reads_trace (made_request making) ≡ true → IsAtEnd (T.left trace.new)) }
    ensures image_kept { reads_image (made_request making) ≡ false → image.new ≡ image.old }
    ensures trace_kept { reads_trace (made_request making) ≡ false → trace.new ≡ trace.old }
    ensures refused { IfErr result (IsNotMade (made_request making)
        (record { left = I.left image.old; faults_before = I.faults image.old; faults_after = I.faults image.new })
        (record { left = T.left trace.old; faults_before = T.faults trace.old; faults_after = T.faults trace.new })) }
{
    match making {
        Making::Mkfs { shape } => match make_image(alloc, shape) {
            Ok(output) => Ok(output),
            Err(_) => Err(Status::NoMemory),
        },
        Making::Try { shape } => try_trace(alloc, shape, trace, watch),
        Making::Replay => replay_trace(alloc, image, trace, watch),
        Making::Dump => show_image(alloc, image),
        Making::Generate { work } => match make_trace(alloc, work) {
            Ok(output) => Ok(output),
            Err(_) => Err(Status::NoMemory),
        },
    }
}
