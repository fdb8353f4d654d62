//! Laws of the definitions, each the contract of a function that does nothing, and worked rows that they compute.

ghost use Rattle.log_entry.specs.Rows.{WrittenAndRead, WrittenAcrossBlocks, ReadPastGap, NoBytes, TooManyBlocks, PastLimit, LastPosition, NoSpaceAllowed, RefusedIsNoWrite, RefusedWithoutCause, WrongBytes, WrongPosition, EachSeatInOrder, CallTwice, PartOfTrace, WriteGoesFirst};
ghost use Rattle.log_entry.specs.OfTrace.{WholeIsPart, LongPartIsWhole};

/// Worked calls on files of 64-byte blocks: what the definitions allow and what they refuse.
pub fn law_rows()
    ensures written_and_read { WrittenAndRead }
    ensures written_across_blocks { WrittenAcrossBlocks }
    ensures read_past_gap { ReadPastGap }
    ensures no_bytes { NoBytes }
    ensures too_many_blocks { TooManyBlocks }
    ensures past_limit { PastLimit }
    ensures last_position { LastPosition }
    ensures no_space_allowed { NoSpaceAllowed }
    ensures refused_is_no_write { RefusedIsNoWrite }
    ensures refused_without_cause { RefusedWithoutCause }
    ensures wrong_bytes { WrongBytes }
    ensures wrong_position { WrongPosition }
    ensures each_seat_in_order { EachSeatInOrder }
    ensures call_twice { CallTwice }
    ensures part_of_trace { PartOfTrace }
    ensures write_goes_first { WriteGoesFirst }
{}

/// All of a trace's calls are a part of them, and a part that has as many of each seat's calls as the trace is the whole.
pub fn law_traces()
    ensures whole { WholeIsPart }
    ensures long_part { LongPartIsWhole }
{}
