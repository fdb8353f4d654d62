//! Laws of reading, each the contract of a function that does nothing, and worked rows.

ghost use Rattle.trace_reader.specs.Laws.{OneReading, PrintedIsRead, FormsAreTheirFields, FirstIsRefused};
ghost use Rattle.trace_reader.specs.Generator.{GeneratedAreRead};
ghost use Rattle.trace_reader.specs.Rows.{TwoLines, OtherLines, TwoLinesRead, ByHandRead, NothingRead, OddDigits, OtherSeat, LongRead, OtherOperation};

/// Bytes have at most one answer, and what is printed of a trace has that trace as its answer. A refusal is that of the first bad line, and
/// a form is told by its fields.
pub fn law_readings()
    ensures one_reading { OneReading }
    ensures printed_is_read { PrintedIsRead }
    ensures first_is_refused { FirstIsRefused }
    ensures forms { FormsAreTheirFields }
{}

/// What is printed of generated jobs is read as them.
pub fn law_generated()
    ensures { GeneratedAreRead }
{}

/// Worked traces: what is printed of jobs, what bytes are read as, and lines that are refused.
pub fn law_rows()
    ensures two_lines { TwoLines }
    ensures other_lines { OtherLines }
    ensures two_lines_read { TwoLinesRead }
    ensures by_hand_read { ByHandRead }
    ensures nothing_read { NothingRead }
    ensures odd_digits { OddDigits }
    ensures other_seat { OtherSeat }
    ensures long_read { LongRead }
    ensures other_operation { OtherOperation }
{}
