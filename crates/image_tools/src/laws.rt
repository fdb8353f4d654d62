//! Worked texts that the definitions compute, as the contract of a function that does nothing.

ghost use Rattle.image_tools.specs.Rows.{WithRuns, SealedBlock};

/// Worked texts: of an image with an entry whose runs are in a block, and of a sealed log block.
pub fn law_rows()
    ensures with_runs { WithRuns }
    ensures sealed_block { SealedBlock }
{}
