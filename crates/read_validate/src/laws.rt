//! What a look promises within a core, and alone, as the contracts of functions that do nothing.

ghost use Rattle.read_validate.specs.LookAlone.{LooksAlone};
ghost use Rattle.read_validate.specs.LookSees.{LooksSee, LooksRecord};
ghost use Rattle.read_validate.specs.LookWithin.{LooksWithin};

/// From every start, at every seat, and whatever other seats do between its steps:
///
/// - `looks`: each ask is a step that the core allows, each answer that comes there is admitted, and the look ends, at the tail. Its call has
///   read all bytes that the file has of the range, and no others; the seat has no pin then, and is else as before.
/// - `sees`: the outcome names a position that there is, not before the end at the call's first step. The size, or the bytes and their
///   count, are those of the file at that position.
/// - `records`: the record of a call that asked so, with this position and what was seen as its reply, may be added.
pub fn law_within()
    ensures looks { LooksWithin }
    ensures sees { LooksSee }
    ensures records { LooksRecord }
{}

/// Where no other seat makes a step, over a memory of one caller whose words are those of a core that a run reaches: the position is the end of the
/// history, and what was seen is the file there. The history, the words of the image and those of the bitmap are as before.
pub fn law_alone()
    ensures { LooksAlone }
{}
