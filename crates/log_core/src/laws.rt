//! Laws of the core, each the contract of a function that does nothing.

ghost use Rattle.log_core.specs.Laws.{StartMeets, StepKeeps, RunKeeps};
ghost use Rattle.log_core.specs.Following.{NoneReused, RunsAreLegal, StoppedRunsAreLegal, StoppedWritesAreLegal, RecordsAreSeen};
ghost use Rattle.log_core.specs.Causes.{RecordsHaveCauses};
ghost use Rattle.log_core.specs.Stops.{ClearingsStop};
ghost use Rattle.log_core.specs.Crashes.{CrashesAreRecovered, PresentWordsHaveAll};

/// The core that a run starts with meets the invariant.
pub fn law_start()
    ensures { StartMeets }
{}

/// Each step that is allowed keeps the invariant, so it holds after every run, by any seats in any order. A step of a seat is of any kind,
/// with what its call computes before and after it, and with the record of a call that it ends; and seat 0 may be split, and two seats
/// joined.
pub fn law_step()
    ensures each_step { StepKeeps }
    ensures every_run { RunKeeps }
{}

/// At each step of each run: a setting of bits finds no block's bit clear that a kept generation names, and a clearing of bits clears no
/// such bit.
pub fn law_reuse()
    ensures { NoneReused }
{}

/// The calls of each run that ends with no call running, in the order of a report, are one legal history from the start's file and
/// position to the end of the writes, with each seat's calls by their numbers, and their collections put each generation in place, in turn.
/// So are the calls of each run wherever it stops, while calls run, with what running calls have put in and not yet recorded: each write
/// that is in the history, and each collection whose head is in place, at its snapshot's position. With those writes alone they are a
/// legal history of the same file, with each seat's calls by their numbers.
/// Each record of each run is of a position that was the end at a step of its own call, which put it in where it is an accepted write. And
/// what a record says that its call found, the call found at its own steps: each block of an area that it found full, the generation that
/// overtook it, and a held pin, which is another seat's.
pub fn law_legal()
    ensures one_history { RunsAreLegal }
    ensures stopped { StoppedRunsAreLegal }
    ensures stopped_writes { StoppedWritesAreLegal }
    ensures each_seen { RecordsAreSeen }
    ensures causes { RecordsHaveCauses }
{}

/// Whatever a crash leaves after any run: the words stand for the file after the first writes of the history, among them all up to the synced
/// position, and no other. So opening refuses none, clearing keeps it, and each start that is recovered is of that file and its position; and
/// so it is of what clearings leave that are stopped, one after the other. That is what a crash leaves of a clearing's memory after any of
/// its steps. No sync was answered with a position past the synced one. And where each word has its present value, no write is lost.
pub fn law_crash()
    ensures each_crash { CrashesAreRecovered }
    ensures clearings { ClearingsStop }
    ensures none_lost { PresentWordsHaveAll }
{}
