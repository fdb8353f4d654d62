//! A source and a sink in memory that fail at given calls.
ghost use Rattle.std.specs.Prelude.{true, ◌≡◌, ◌<◌, ◌≤◌, ◌↔◌, ℕ, List, [], Some, IsTrue, length};
ghost use Rattle.io_ends.specs.Faults.{ReadCounts, WriteCounts};
ghost use Rattle.io_ends.specs.Taking.{IsGivenCount, ReadTakes};
ghost use Rattle.io_ends.specs.Giving.{IsTakenCount, WriteGives};
ghost use Rattle.io_ends.specs.Planned.{fresh, next_fails, after_call};

use crate::in_memory::{Bytes, Gathered};
use crate::sinks::{Put, Sink};
use crate::sources::{Got, Source};
use std::alloc::Global;
use std::marker::Model;

// Which calls are to fail, how many were made, and how many of them failed.
#[derive(Drop)]
struct FaultPlan {
    numbers: Vec<u64>,
    made: u64,
    failed: u64,
}

impl Model for FaultPlan {
    ghost use Rattle.io_ends.specs.Planned.{Plan};

    ghost Value = { Plan };

    ghost view = { λ p. record { fails = p.numbers.items; calls = p.made; faults = p.failed } };
}

impl FaultPlan {
    fn new(fails: Vec<u64>) -> FaultPlan
        ensures { result ≡ fresh fails.items }
    {
        FaultPlan {
            numbers: fails,
            made: 0,
            failed: 0,
        }
    }

    // Counts one call, and says whether it is to fail.
    fn call(&mut self) -> bool
        ensures fails { result ≡ next_fails self.old }
        ensures counts { self.new ≡ after_call self.old }
        ensures later { self.old.faults ≤ self.new.faults }
    {
        self.made = self.made.saturating_add(1);
        let fails = self.numbers.contains(&self.made);
        if fails {
            self.failed = self.failed.saturating_add(1);
        }
        fails
    }
}

/// A source of given bytes that fails at given calls. Contracts see the bytes that it has left, and
/// the calls that are to fail with the counts of calls and of faults, which stand still at 2^64 - 1.
#[derive(Drop)]
pub struct FailingBytes {
    bytes: Bytes,
    faults: FaultPlan,
}

impl Model for FailingBytes {
    ghost use Rattle.io_ends.specs.Planned.{PlannedSource};

    ghost Value = { PlannedSource };

    ghost view = { λ source. record { left = source.bytes; plan = source.faults } };
}

impl FailingBytes {
    /// A source that has all of `bytes` left, and fails at the calls whose numbers, counted from 1,
    /// are in `fails`.
    pub fn new(bytes: Vec<u8>, fails: Vec<u64>) -> FailingBytes
        ensures { result ≡ record { left = bytes.items; plan = fresh fails.items } }
    {
        FailingBytes {
            bytes: Bytes::new(bytes),
            faults: FaultPlan::new(fails),
        }
    }
}

impl Source for FailingBytes {
    ghost left = { λ source. Some source.left };

    ghost faults = { λ source. source.plan.faults };

    ghost exact = { true };

    fn read(&mut self, into: &mut [u8]) -> Got
        requires { 0 < length into.old }
        ensures count { IsGivenCount result (length into.old) }
        ensures bytes { ReadTakes result (Some self.old.left) (Some self.new.left) into.new }
        ensures cause { ReadCounts true result self.old.plan.faults self.new.plan.faults }
        ensures later { self.old.plan.faults ≤ self.new.plan.faults }
        ensures planned { self.new.plan ≡ after_call self.old.plan }
        ensures fails { (result ≡ Got.Failed) ↔ IsTrue (next_fails self.old.plan) }
    {
        if self.faults.call() {
            return Got::Failed;
        }
        self.bytes.read(into)
    }
}

/// A sink that keeps what was written to it and fails at given calls. Contracts see the bytes that it
/// took, and the calls that are to fail with the counts of calls and of faults, which stand still at
/// 2^64 - 1.
#[derive(Drop)]
pub struct FailingGathered {
    gathered: Gathered,
    faults: FaultPlan,
}

impl Model for FailingGathered {
    ghost use Rattle.io_ends.specs.Planned.{PlannedSink};

    ghost Value = { PlannedSink };

    ghost view = { λ sink. record { written = sink.gathered; plan = sink.faults } };
}

impl FailingGathered {
    /// A sink that took nothing yet, and fails at the calls whose numbers, counted from 1, are in
    /// `fails`. It takes no memory before the first write.
    pub fn new(alloc: Global, fails: Vec<u64>) -> FailingGathered
        ensures { result ≡ record { written = []; plan = fresh fails.items } }
    {
        FailingGathered {
            gathered: Gathered::new(alloc),
            faults: FaultPlan::new(fails),
        }
    }

    /// The bytes that it took.
    pub fn bytes(&self) -> &[u8]
        ensures { result.now ≡ self.now.written }
    {
        self.gathered.bytes()
    }
}

impl Sink for FailingGathered {
    ghost written = { λ sink. Some sink.written };

    ghost faults = { λ sink. sink.plan.faults };

    ghost exact = { true };

    fn write(&mut self, piece: &[u8]) -> Put
        requires { 0 < length piece.now }
        ensures count { IsTakenCount result (length piece.now) }
        ensures bytes { WriteGives result (Some self.old.written) (Some self.new.written) piece.now }
        ensures cause { WriteCounts true result self.old.plan.faults self.new.plan.faults }
        ensures later { self.old.plan.faults ≤ self.new.plan.faults }
        ensures planned { self.new.plan ≡ after_call self.old.plan }
        ensures fails { (result ≡ Put.Failed) ↔ IsTrue (next_fails self.old.plan) }
    {
        if self.faults.call() {
            return Put::Failed;
        }
        self.gathered.write(piece)
    }
}
