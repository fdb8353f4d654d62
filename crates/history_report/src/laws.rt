//! Laws of the definitions, each the contract of a function that does nothing, and worked rows that they compute.

ghost use Rattle.history_report.specs.Rows.{Written, ReadBytes, ReadNoBytes, TooManyBlocksLine, PastLimitLine, NoSpaceForData, AppendedAt, KeptNothing, KeptForPin, LastLine, TwoCalls};
ghost use Rattle.history_report.specs.TextFixes.{TextFixesCalls};

/// Worked lines of calls, and a worked report.
pub fn law_rows()
    ensures written { Written }
    ensures read_bytes { ReadBytes }
    ensures read_no_bytes { ReadNoBytes }
    ensures too_many_blocks { TooManyBlocksLine }
    ensures past_limit { PastLimitLine }
    ensures no_space_for_data { NoSpaceForData }
    ensures appended_at { AppendedAt }
    ensures kept_nothing { KeptNothing }
    ensures kept_for_pin { KeptForPin }
    ensures last_line { LastLine }
    ensures two_calls { TwoCalls }
{}

/// Together with the operations that were asked, the text of a report says every call, and the position and the size at the end.
pub fn law_text()
    ensures { TextFixesCalls }
{}
