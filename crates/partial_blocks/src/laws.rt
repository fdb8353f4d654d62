//! What the machines promise within a core, and what composed blocks hold, as the contracts of functions that do nothing.

ghost use Rattle.partial_blocks.specs.BasesWithin.{ReadsBaseWithin, ReadsBasesWithin};
ghost use Rattle.partial_blocks.specs.Holding.{ComposesPlace, ComposesWrite, MayBeComposed};
ghost use Rattle.partial_blocks.specs.Committing.{CommitsRun, CommitsRuns};
ghost use Rattle.partial_blocks.specs.Runs.{ComposesRuns, MayComposeRuns, AreOneRunByPlace, AreRunsByPlace};
ghost use Rattle.partial_blocks.specs.KeptBytes.{TakingKeeps, KeepsPlace, ReadingKeeps};

/// From every start, at every seat, and whatever other seats do between its steps: each ask of the machine is a step that the core
/// allows, each answer that comes there is admitted, and it ends. What it ends with:
///
/// - `reads_base`, at a seat at its tail whose base added last is in the block: the seat has the block's words behind those it had.
/// - `reads_bases`, at a seat at its tail that has added the first base that its write lacks: the write lacks none. Each base is the
///   first or the last virtual block that it touches, none stands twice, and each was read whole; those that were there are there.
pub fn law_within()
    ensures reads_base { ReadsBaseWithin }
    ensures reads_bases { ReadsBasesWithin }
{}

/// Where a call lacks no base:
///
/// - `place`: a block that was composed holds the bytes of the call where they lie in its virtual block, and elsewhere the bytes that
///   are there by the bases, or 0 where it is unmapped. Nothing else of the seat has changed but the block's marks.
/// - `write`: so do the first blocks of the list, one for each touched virtual block, and those behind them are as before.
/// - `may`: a call may compute both between two of its steps.
pub fn law_composed()
    ensures place { ComposesPlace }
    ensures write { ComposesWrite }
    ensures may { MayBeComposed }
{}

/// Where entries of others are taken in after an exchange that was lost:
///
/// - `taking`: what bases are left say the same bytes, no virtual block becomes unmapped, and the bases are some of those of touched blocks.
/// - `place`: over any number of such entries, a place whose virtual block does not lack its base holds it still, where its content is the same.
/// - `reading`: so it does where more bases are read.
pub fn law_kept()
    ensures taking { TakingKeeps }
    ensures place { KeepsPlace }
    ensures reading { ReadingKeeps }
{}

/// Where the first owned blocks of a seat at its tail's slot are fenced and hold its write, which nothing refuses there, in each core that
/// knows the seat so:
///
/// - `run`: the direct entry of blocks that are one run may be put into the slot.
/// - `runs`: so may the indirect entry of the block behind them, if it holds the words of their runs and is fenced.
pub fn law_commits()
    ensures run { CommitsRun }
    ensures runs { CommitsRuns }
{}

/// The block behind the first blocks of a seat's list, whose words were 0 but its first:
///
/// - `runs`: once their runs are composed in it, its words are those of an indirect block of them, and no other block has changed.
/// - `may`: a call may compute that between two of its steps.
/// - `one_run`, `many_runs`: what the entry of one run, and that of several, asks of the blocks follows.
pub fn law_runs()
    ensures runs { ComposesRuns }
    ensures may { MayComposeRuns }
    ensures one_run { AreOneRunByPlace }
    ensures many_runs { AreRunsByPlace }
{}
