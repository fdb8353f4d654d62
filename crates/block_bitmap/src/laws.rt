//! What taking, filling and giving blocks promise within a core, as contracts of functions that do nothing.

ghost use Rattle.block_bitmap.specs.TakeWithin.{TakesWithin};
ghost use Rattle.block_bitmap.specs.FillWithin.{FillsWithin, FilledAreCertain};
ghost use Rattle.block_bitmap.specs.GiveWithin.{GivesWithin};

/// From every start, at every seat whose call lacks as many blocks of an area, and whatever other seats do between its steps: each
/// ask is a step that the core allows, each answer that comes there is admitted, and it ends. The seat then owns what it owned and
/// so many blocks of the area more, none twice; or it owns fewer more, and its call has found each block of the area taken. It has the
/// marks that it had.
pub fn law_takes_within()
    ensures { TakesWithin }
{}

/// From every start, at every seat that has so many owned blocks from a place on, runs no sync and has no mark of a head that is
/// still to be fenced, and whatever other seats do between its steps: each ask of a fill is a step that the core allows, each
/// answer that comes there is admitted, and it ends. The blocks are then filled and fenced, and from then on, while the seat has
/// this view, only its content is possible in each of their words.
pub fn law_fills_within()
    ensures fills { FillsWithin }
    ensures certain { FilledAreCertain }
{}

/// From every start, at every seat that owns a block, and whatever other seats do between its steps: each ask of a giving is a
/// step that the core allows, each answer that comes there is admitted, and it ends. It answers how many blocks the seat owned;
/// it then owns none, and nothing else of it has changed but its bits of blocks found taken, which are without theirs. It has the
/// marks that it had.
pub fn law_gives_within()
    ensures { GivesWithin }
{}
