//! Laws of the definitions, each the contract of a function that does nothing, and worked rows that they compute.

ghost use Rattle.log_image.specs.Laws.{HaveOneChain, StandForOne, JustMadeStands, ClearingKeeps, TailKeeps};
ghost use Rattle.log_image.specs.Rows.{JustMade, MadeByRule, AcrossBlocks, AfterCollection, RunsInBlock, MapWithRuns, BehindTail, RecoveredBeforeTail, StoppedBeforeEnd, WrongHeader, SealFirst, LinkInCircle, BlockNamedTwice, BytePastEnd, BaseOffByOne, BaseAfterSnapshot, BlockNotInData, UnnamedBit, RunsDoNotAddUp};

/// Worked images: what they stand for, and images that stand for nothing.
pub fn law_rows()
    ensures just_made { JustMade }
    ensures made_by_rule { MadeByRule }
    ensures across_blocks { AcrossBlocks }
    ensures after_collection { AfterCollection }
    ensures runs_in_block { RunsInBlock }
    ensures map_with_runs { MapWithRuns }
    ensures behind_tail { BehindTail }
    ensures recovered_before_tail { RecoveredBeforeTail }
    ensures stopped_before_end { StoppedBeforeEnd }
    ensures wrong_header { WrongHeader }
    ensures seal_first { SealFirst }
    ensures link_in_circle { LinkInCircle }
    ensures block_named_twice { BlockNamedTwice }
    ensures byte_past_end { BytePastEnd }
    ensures base_off_by_one { BaseOffByOne }
    ensures base_after_snapshot { BaseAfterSnapshot }
    ensures block_not_in_data { BlockNotInData }
    ensures unnamed_bit { UnnamedBit }
    ensures runs_do_not_add_up { RunsDoNotAddUp }
{}

/// The words of an image have one chain, and stand for one file at one position.
pub fn law_one_meaning()
    ensures one_chain { HaveOneChain }
    ensures one_file { StandForOne }
{}

/// A just-made image of any shape stands for the empty file at position 0.
pub fn law_just_made()
    ensures { JustMadeStands }
{}

/// Clearing what stands after the tail keeps what the words stand for: the chain, the file and the position. So it is of words that differ
/// from others after their tail alone, as a clearing leaves them that was stopped.
pub fn law_clearing()
    ensures cleared { ClearingKeeps }
    ensures stopped { TailKeeps }
{}
