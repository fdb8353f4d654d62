//! A run of a trace's calls on an image.

ghost use Rattle.std.specs.Prelude.{◌≡◌, ◌⊎◌, ◌<◌, ◌^◌, ℕ, slice_index, List, [], Some, Ok, IfOk, IfErr, OnOk, true};
ghost use Rattle.io_ends.specs.Taking.{IsAtEnd};
ghost use Rattle.log_image.specs.Stands.{StandsBy};
ghost use Rattle.log_entry.specs.declared.calls.Job.{Job};
ghost use Rattle.trace_reader.specs.Trace.{IsTrace};
ghost use Rattle.madfs_cli.specs.Traces.{ReadsCalls};
ghost use Rattle.log_image.specs.Image.{shape_by};
ghost use Rattle.opening_rules.specs.declared.refusals.BadImage.{BadImage};
ghost use Rattle.trace_reader.specs.declared.refusals.BadTrace.{BadTrace};
ghost use Rattle.madfs_cli.specs.Commands.{ReplayTrace};
ghost use Rattle.madfs_cli.specs.Inputs.{IsNotRead, WasAccepted};
ghost use Rattle.madfs_cli.specs.Replays.{StandForAFile, IsRunOf, IsTryOf, IsReplayOf};
ghost use Rattle.madfs_cli.specs.Outcomes.{IsNotMade, ImageRefused, TraceRefused};
ghost use Rattle.plain_engine.specs.Engine.{Running};
ghost use Rattle.plain_engine.specs.Replaying.{AreOneSeat, Replays};

use crate::images::open_image;
use crate::outputs::Output;
use crate::statuses::Status;
use crate::traces::read_jobs;
use crate::watch::Watch;
use history_report::print_report;
use image_tools::mkfs;
use io_ends::Source;
use log_entry::{Call, Geometry, Job, to_bytes};
use log_image::Start;
use log_image::laws::law_just_made;
use plain_engine::PlainEngine;
use std::alloc::{AllocError, Global};

/// The report of a run, and the words of the image after it.
#[derive(Drop)]
struct Run {
    text: Vec<u8>,
    words: Vec<u64>,
}

/// The records of the calls that these jobs of one seat ask, answered in turn. Each is told to the watch. Only want of memory refuses
/// it, and leaves the engine as some of the calls did.
fn make_calls<W: Watch>(
    alloc: Global,
    engine: &mut PlainEngine,
    jobs: Vec<Job>,
    watch: &W,
) -> Result<Vec<Call>, AllocError>
    requires { AreOneSeat jobs.items }
    ensures { IfOk result (λ calls. (chain file : List ℕ) → Running engine.old chain file → Replays engine.old engine.new chain file jobs.items calls.items) }
{
    let all = jobs.len() as u64;
    let mut calls = Vec::with_capacity(alloc, jobs.len())?;
    for job in jobs {
        let reply = engine.answer(alloc, &job.op)?;
        calls.push(Call {
            position: engine.position(),
            seat: job.seat,
            number: job.number,
            op: job.op,
            reply,
        })?;
        watch.called(calls.len() as u64, all);
    }
    Ok(calls)
}

/// The run of a trace's calls of one seat on an image.
fn run_jobs<W: Watch>(
    alloc: Global,
    start: Start,
    jobs: Vec<Job>,
    watch: &W,
) -> Result<Run, AllocError>
    requires trace { IsTrace 1 jobs.items }
    requires stands { StandForAFile start.words.items }
    ensures { IfOk result (λ run. (chain file : List ℕ) (position : ℕ)
        → StandsBy start.words.items chain file position
        → IsRunOf start.words.items chain file position jobs.items run.text.items run.words.items) }
{
    let mut engine = PlainEngine::new(alloc, start)?;
    let calls = make_calls(alloc, &mut engine, jobs, watch)?;
    let text = print_report(alloc, &calls, engine.position(), engine.size())?;
    Ok(Run {
        text,
        words: engine.into_words(),
    })
}

/// The report of the trace that a source has left, read to its end and run on a just-made image of this shape.
pub fn try_trace<T: Source, W: Watch>(
    alloc: Global,
    shape: Geometry,
    trace: &mut T,
    watch: &W,
) -> Result<Output, Status>
    ensures report { IfOk result (λ output. (bytes : List ℕ) → T.left trace.old ≡ Some bytes
        → IsTryOf (shape_by shape) bytes output.text.items) }
    ensures image { IfOk result (λ output. output.image.items ≡ []) }
    ensures end { OnOk result (IsAtEnd (T.left trace.new)) }
    ensures refused { IfErr result (IsNotRead (T.left trace.old) (T.faults trace.old) (T.faults trace.new)) }
{
    law_just_made();
    let jobs = read_jobs(alloc, trace)?;
    let Ok(start) = mkfs(alloc, shape) else {
        return Err(Status::NoMemory);
    };
    let Ok(run) = run_jobs(alloc, start, jobs, watch) else {
        return Err(Status::NoMemory);
    };
    Ok(Output {
        text: run.text,
        image: Vec::new(alloc),
    })
}

/// Says of words what their type says: each is below 2^64. For the clauses on a new image.
pub fn note_range(words: &[u64])
    ensures { (place : ℕ) → slice_index words.now place < 2 ^ 64 }
{}

/// The report of the trace that a source has left, run on the image that another has left, and the image after it. The image is read
/// to its end first, and then the trace.
pub fn replay_trace<I: Source, T: Source, W: Watch>(
    alloc: Global,
    image: &mut I,
    trace: &mut T,
    watch: &W,
) -> Result<Output, Status>
    ensures replay { IfOk result (λ output. (bytes text : List ℕ) → I.left image.old ≡ Some bytes
        → T.left trace.old ≡ Some text → IsReplayOf bytes text output.text.items output.image.items) }
    ensures image_good { OnOk result ((why : BadImage) → ImageRefused ReplayTrace (record { left = I.left image.old; faults_before = I.faults image.old; faults_after = I.faults image.new }) why → ⊥) }
    ensures trace_read { OnOk result ((bytes : List ℕ) → T.left trace.old ≡ Some bytes → (jobs : List Job)
        × ReadsCalls bytes (Ok jobs)) }
    ensures trace_after_image { (trace.new ≡ trace.old) ⊎ WasAccepted (I.left image.old) (I.left image.new) }
    ensures trace_at_bad_image { IfErr result (λ status. (why : BadImage) → status ≡ Status.BadImage why
        → trace.new ≡ trace.old) }
    ensures image_end { OnOk result (IsAtEnd (I.left image.new)) }
    ensures trace_end { OnOk result (IsAtEnd (T.left trace.new)) }
    ensures refused { IfErr result (IsNotMade ReplayTrace
        (record { left = I.left image.old; faults_before = I.faults image.old; faults_after = I.faults image.new })
        (record { left = T.left trace.old; faults_before = T.faults trace.old; faults_after = T.faults trace.new })) }
{
    let start = open_image(alloc, image)?;
    let jobs = match read_jobs(alloc, trace) {
        Ok(jobs) => jobs,
        Err(status) => return Err(status),
    };
    let Ok(run) = run_jobs(alloc, start, jobs, watch) else {
        return Err(Status::NoMemory);
    };
    note_range(&run.words);
    let Ok(image) = to_bytes(alloc, &run.words) else {
        return Err(Status::NoMemory);
    };
    Ok(Output {
        text: run.text,
        image,
    })
}
