//! The laws of the steps and of the choices, each the contract of a function that does nothing.

ghost use Rattle.persistence.specs.Memory.{Memory};
ghost use Rattle.persistence.specs.Survivors.{Survives};
ghost use Rattle.persistence.specs.Choices.{chosen};
ghost use Rattle.persistence.specs.Steps.{FreshIsOrderly, StepsKeepOrder, StoresGrowCells, OthersLeaveCells, FencesRaiseFloors, FencesForgetOwnMarks};
ghost use Rattle.persistence.specs.Rows.{MarkThenFence, FenceOfAnotherSeat, LaterMark, LostExchange, WonExchange, FloorIsAt, OldestAndNewest, MayBeLeft, NeverLeft, DrawnOfSeed};
ghost use Rattle.persistence.specs.declared.survivors.Choice.{Choice};

/// Worked memories of three words: their cells, and what a crash may leave of them.
pub fn law_rows()
    ensures mark_then_fence { MarkThenFence }
    ensures floor { FloorIsAt 11 }
    ensures fence_of_another_seat { FenceOfAnotherSeat }
    ensures later_mark { LaterMark }
    ensures lost_exchange { LostExchange }
    ensures won_exchange { WonExchange }
    ensures oldest_and_newest { OldestAndNewest }
    ensures left { MayBeLeft 11 21 }
    ensures never_left { NeverLeft }
    ensures drawn_of_seed { DrawnOfSeed }
{}

/// A new image is orderly, and each step leaves an orderly memory.
pub fn law_order()
    ensures fresh { FreshIsOrderly }
    ensures steps { StepsKeepOrder }
{}

/// A step that stores adds one value to the cell of its word; a fence raises floors, to what its seat has marked and no further, and forgets those marks;
/// every other step leaves each cell.
pub fn law_cells()
    ensures stores { StoresGrowCells }
    ensures others { OthersLeaveCells }
    ensures fences { FencesRaiseFloors }
    ensures marks { FencesForgetOwnMarks }
{}

/// A crash may leave what a choice takes.
pub fn law_chosen()
    ensures { (choice : Choice) (memory : Memory) → Survives memory (chosen choice memory) }
{}
