//! Laws of the definitions, each the contract of a function that does nothing, and worked rows that they compute.

ghost use Rattle.opening_rules.specs.Laws.{HasOneRefusal, IsNotBoth, HasOneRefusalOfBytes, IsNotBothOfBytes, AcceptedStands, StandingIsAccepted};
ghost use Rattle.opening_rules.specs.Rows.{BehindTailAccepted, LinkToItself, NamedTwice, ByteBehindEnd, OneByteShort, OneByteLong, SealInFirstSlot, SlotAfterSeal, BaseNotDue, BadHeaders};

/// Worked images, and what opening answers.
pub fn law_rows()
    ensures behind_tail { BehindTailAccepted }
    ensures link_to_itself { LinkToItself }
    ensures named_twice { NamedTwice }
    ensures byte_behind_end { ByteBehindEnd }
    ensures one_byte_short { OneByteShort }
    ensures one_byte_long { OneByteLong }
    ensures seal_in_first_slot { SealInFirstSlot }
    ensures slot_after_seal { SlotAfterSeal }
    ensures base_not_due { BaseNotDue }
    ensures bad_headers { BadHeaders }
{}

/// An image has one answer: one refusal at most, and none where it is accepted.
pub fn law_one_answer()
    ensures one_refusal { HasOneRefusal }
    ensures not_both { IsNotBoth }
    ensures one_refusal_of_bytes { HasOneRefusalOfBytes }
    ensures not_both_of_bytes { IsNotBothOfBytes }
{}

/// The words of an accepted image stand for a file, by the chain that was walked.
pub fn law_accepted()
    ensures { AcceptedStands }
{}

/// Words that stand for a file are accepted, by their chain, and open to that file at that position.
pub fn law_standing()
    ensures { StandingIsAccepted }
{}
