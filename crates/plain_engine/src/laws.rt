//! The law of two runs, the contract of a function that does nothing.

ghost use Rattle.plain_engine.specs.Alike.{RunsLackAlike};

/// What each call of a run says of space is told by the chain, its tail and the taken blocks that the run starts from: another run
/// of the same calls from such says the same.
pub fn law_runs()
    ensures { RunsLackAlike }
{}
