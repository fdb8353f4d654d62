//! What the machines promise within a core, as the contract of a function that does nothing.

ghost use Rattle.write_any.specs.GiveOneWithin.{GivesOneWithin};
ghost use Rattle.write_any.specs.LackingAlone.{LacksAlone};
ghost use Rattle.write_any.specs.LosingFew.{LosesFew, LosesFewFromBegin};
ghost use Rattle.write_any.specs.WriteAlone.{WritesAlone};
ghost use Rattle.write_any.specs.WriteWithin.{WritesWhole};

/// From every start, at every seat, and whatever other seats do between its steps: each ask of the machine is a step that the core
/// allows, each answer that comes there is admitted, and it ends. What it ends with:
///
/// - `gives_one`, at a seat that owns the block: the block has left the seat's list, and its bit the seat's bits of blocks found taken.
///   What else the seat's state has is as before, and so is what contracts alone see of it, but for the stored words of the block.
/// - `writes`, at a seat that is to write whole blocks: the entry is in the log, for the bytes of the call at their place, or the write
///   was refused for its cause: the position is the last one, or this call has found each block of the area taken. The seat has no pin
///   and owns no block, and stands at its tail.
/// - `loses_few`, from where the tail was first found: at most two exchanges are lost for each position that other seats move the tail
///   by from there on, and one. `loses_few_from_begin` counts from the position before the call, where the seat's table was ready and
///   the generation is the same.
pub fn law_within()
    ensures gives_one { GivesOneWithin }
    ensures writes { WritesWhole }
    ensures loses_few { LosesFew }
    ensures loses_few_from_begin { LosesFewFromBegin }
{}

/// Where no other seat makes a step, of every seat whose call of whole blocks begins, over a memory of one caller whose words are those of a
/// core that a run reaches: the write comes to its end, and
///
/// - `serves_alone`: the memory has the words of such a core again. It has lost no exchange; the history has exactly this write more, or is
///   as before where the write was refused. Of whatever file at whatever position the words stood for, the reply is a legal one, the position
///   is the one after it, and the words stand for the file after it. The seat is as `writes` of `law_within` says.
/// - `lacks_exactly`: by those words it is refused exactly for these causes, the first that holds. `PositionLimit`: the position is the last
///   one, 2^40 - 1. `NoSpace` for data: the clear blocks of the data area are fewer than those touched, or as many and not one run, since
///   then a block for their runs is wanted, too. `NoSpace` for the log: the chain's tail is a block's end, so that a log block is to be
///   linked, and no block of the log area is clear.
pub fn law_alone()
    ensures serves_alone { WritesAlone }
    ensures lacks_exactly { LacksAlone }
{}
