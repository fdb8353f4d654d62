//! How far a run is, on one line of standard error.
ghost use Rattle.std.specs.Prelude.{◌≡◌, ◌<◌, ◌≤◌, length};
ghost use Rattle.io_ends.specs.Faults.{ReadCounts, WriteCounts};
ghost use Rattle.io_ends.specs.Taking.{IsGivenCount, ReadTakes};
ghost use Rattle.io_ends.specs.Giving.{IsTakenCount, WriteGives};

use io_ends::{Got, Put, Sink, Source};
use madfs_cli::Watch;
use std::cell::Cell;
use std::io::Eprint;
use std::time::Clock;

/// The environment variable that asks for the line where standard error is no terminal.
pub const ASKED_BY: &str = "MADFS_PROGRESS";

/// Milliseconds before the first line, and between two.
const FIRST: u64 = 1_000;

const BETWEEN: u64 = 200;

/// How many calls are made between two looks at the clock.
const CALLS: u64 = 256;

/// Counts what a run does, and shows it after its first second, at most five times a second, where it is to be shown.
#[derive(Drop)]
pub struct Progress<'a, R: Clock + Eprint> {
    rt: &'a R,
    shown: bool,
    /// Milliseconds of the clock at which the next line is due.
    due: Cell<u64>,
    /// Whether a line stands there, to be wiped.
    stands: Cell<bool>,
    read: Cell<u64>,
    made: Cell<u64>,
    written: Cell<u64>,
}

impl<'a, R: Clock + Eprint> Progress<'a, R> {
    /// The run begins. Nothing is ever shown where `shown` is false.
    pub fn new(rt: &'a R, shown: bool) -> Progress<'a, R> {
        Progress {
            rt,
            shown,
            due: Cell::new(now(rt).saturating_add(FIRST)),
            stands: Cell::new(false),
            read: Cell::new(0),
            made: Cell::new(0),
            written: Cell::new(0),
        }
    }

    /// Shows the line where it is due. One that cannot be written is passed over.
    fn show(&self) {
        if !self.shown {
            return;
        }
        let time = now(self.rt);
        if time < self.due.get() {
            return;
        }
        self.due.set(time.saturating_add(BETWEEN));
        self.stands.set(true);
        let (read, made, written) = (self.read.get(), self.made.get(), self.written.get());
        let _ = eprint!(self.rt;
            "\r\x1b[Kmadfs: {read} bytes read, {made} calls made, {written} bytes written"
        );
    }

    /// The run has ended: a line that stands is wiped.
    pub fn wipe(&self) {
        if self.stands.get() {
            self.stands.set(false);
            let _ = eprint!(self.rt; "\r\x1b[K");
        }
    }
}

impl<'a, R: Clock + Eprint> Watch for Progress<'a, R> {
    fn called(&self, made: u64, all: u64) {
        self.made.set(made);
        if made % CALLS == 0 || made == all {
            self.show();
        }
    }
}

/// The milliseconds of a clock; 0 where it tells none.
fn now(clock: &impl Clock) -> u64 {
    match clock.monotonic() {
        Ok(time) => time.as_millis().min(u128::from(u64::MAX)) as u64,
        Err(_) => 0,
    }
}

/// A source or a sink whose bytes are counted. It is the inner one in all that contracts see.
#[derive(Drop)]
pub struct Counted<'a, S, R: Clock + Eprint> {
    inner: S,
    progress: &'a Progress<'a, R>,
}

impl<'a, S, R: Clock + Eprint> Counted<'a, S, R> {
    /// Counts what this gives or takes from now on.
    pub fn new(inner: S, progress: &'a Progress<'a, R>) -> Counted<'a, S, R>
        ensures { result.inner ≡ inner }
    {
        Counted { inner, progress }
    }

    /// What is counted.
    pub fn inner(&self) -> &S
        ensures { result.now ≡ self.now.inner }
    {
        &self.inner
    }
}

impl<'a, S: Source, R: Clock + Eprint> Source for Counted<'a, S, R> {
    ghost left = { λ counted. S.left counted.inner };

    ghost faults = { λ counted. S.faults counted.inner };

    ghost exact = { S.exact };

    fn read(&mut self, into: &mut [u8]) -> Got {
        let got = self.inner.read(into);
        if let Got::Bytes(count) = got {
            let read = self.progress.read.get();
            self.progress.read.set(read.saturating_add(count as u64));
        }
        self.progress.show();
        got
    }
}

impl<'a, S: Sink, R: Clock + Eprint> Sink for Counted<'a, S, R> {
    ghost written = { λ counted. S.written counted.inner };

    ghost faults = { λ counted. S.faults counted.inner };

    ghost exact = { S.exact };

    fn write(&mut self, piece: &[u8]) -> Put {
        let put = self.inner.write(piece);
        if let Put::Took(count) = put {
            let written = self.progress.written.get();
            self.progress
                .written
                .set(written.saturating_add(count as u64));
        }
        self.progress.show();
        put
    }
}
