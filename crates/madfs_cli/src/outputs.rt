//! What a command writes.

ghost use Rattle.std.specs.Prelude.{◌≡◌, ◌≢◌, ◌⊎◌, length};
ghost use Rattle.opening_rules.specs.declared.refusals.BadImage.{BadImage};
ghost use Rattle.madfs_cli.specs.Outcomes.{OutputEnds};

use crate::statuses::Status;
use io_ends::{Sink, WriteAll, write_all};

/// The text and the bytes of an image that a command writes; none where it writes no image.
#[derive(Drop)]
pub struct Output {
    pub text: Vec<u8>,
    pub image: Vec<u8>,
}

/// Writes the text, and after it the image.
pub fn write_output<O: Sink, N: Sink>(output: &Output, report: &mut O, fresh: &mut N) -> Status
    ensures ends { OutputEnds
        (record {
          given_before = O.written report.old;
          given_after = O.written report.new;
          faults_before = O.faults report.old;
          faults_after = O.faults report.new;
        })
        (record {
          given_before = N.written fresh.old;
          given_after = N.written fresh.new;
          faults_before = N.faults fresh.old;
          faults_after = N.faults fresh.new;
        })
        output.now.text.items output.now.image.items result }
    ensures no_refusal { (why : BadImage) → result ≢ Status.BadImage why }
    ensures none { length output.now.image.items ≡ 0 → fresh.new ≡ fresh.old }
{
    match write_all(report, output.text.as_slice()) {
        Ok(()) => {}
        Err(WriteAll::WriteFault) => return Status::WriteFault,
        Err(WriteAll::NoMemory) => return Status::NoMemory,
    }
    match write_all(fresh, output.image.as_slice()) {
        Ok(()) => Status::Done,
        Err(WriteAll::WriteFault) => Status::WriteFault,
        Err(WriteAll::NoMemory) => Status::NoMemory,
    }
}
