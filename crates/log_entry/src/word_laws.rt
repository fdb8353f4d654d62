//! Laws of the words of an image, each the contract of a function that does nothing, and worked words that they compute.

ghost use Rattle.log_entry.specs.WordRows.{OneBlock, TwoBlocks, RunsInFive, EmptyAndSeal, UnnamedBits, FirstHead, UnnamedHeadBit, LogAndSnapshot, NoKinds, OneByteFile, RunsOfThree, UnnamedRunBits};
ghost use Rattle.log_entry.specs.WordLaws.{FieldOfSum, EntryFields, HeadFields, BlockFields, SnapshotFields, IndirectFields, RunFields, IsOfOne};
ghost use Rattle.log_entry.specs.Words.{IsEntryWord, IsHeadWord, IsBlockWord, IsSnapshotWord, IsIndirectWord, IsRunWord};

/// A field of a sum of fields is the number that was put there, and the fields of each word are the numbers that it was made of.
#[tactic(auto, using(crate::proofs::FieldLemmas::field_of_sum))]
pub fn law_fields()
    ensures sum { FieldOfSum }
    ensures entry { EntryFields }
    ensures head { HeadFields }
    ensures block { BlockFields }
    ensures snapshot { SnapshotFields }
    ensures indirect { IndirectFields }
    ensures run { RunFields }
{}

/// No word is that of two values of a type.
pub fn law_one_value()
    ensures entry { IsOfOne IsEntryWord }
    ensures head { IsOfOne IsHeadWord }
    ensures block { IsOfOne IsBlockWord }
    ensures snapshot { IsOfOne IsSnapshotWord }
    ensures indirect { IsOfOne IsIndirectWord }
    ensures run { IsOfOne IsRunWord }
{}

/// Worked words: whose they are, and words that no value has.
pub fn law_words()
    ensures one_block { OneBlock }
    ensures two_blocks { TwoBlocks }
    ensures runs_in_five { RunsInFive }
    ensures empty_and_seal { EmptyAndSeal }
    ensures unnamed_bits { UnnamedBits }
    ensures first_head { FirstHead }
    ensures unnamed_head_bit { UnnamedHeadBit }
    ensures log_and_snapshot { LogAndSnapshot }
    ensures no_kinds { NoKinds }
    ensures one_byte_file { OneByteFile }
    ensures runs_of_three { RunsOfThree }
    ensures unnamed_run_bits { UnnamedRunBits }
{}
