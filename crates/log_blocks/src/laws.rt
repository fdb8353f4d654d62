//! What the machines promise within a core, as the contract of a function that does nothing.

ghost use Rattle.log_blocks.specs.WalkWithin.{WalksWithin, WalksOnWithin};
ghost use Rattle.log_blocks.specs.PutWithin.{OffersWithin, GrowsWithin, SealsWithin};

/// From every start, at every seat, and whatever other seats do between its steps: each ask of a machine is a step that the core
/// allows, each answer that comes there is admitted, and it ends. A walk ends at the tail, with the table of the pinned chain there; it
/// never goes back where the seat was ready, and comes further where it goes on from an indirect entry. An entry that was put in is in the table, its blocks have left the
/// seat's list, and the seat is at the tail at the next position; a block that was linked has left the list, and the tail is its first
/// slot; after a seal the tail is the block's end. Where another seat was faster, what it put there is taken in or followed, or kept
/// where it is an indirect entry, and an offer counts one exchange more as lost. What else the seat's state has is as before, and so is
/// what contracts alone see of it, but for the stored words of the blocks that left.
pub fn law_within()
    ensures walks { WalksWithin }
    ensures walks_on { WalksOnWithin }
    ensures offers { OffersWithin }
    ensures grows { GrowsWithin }
    ensures seals { SealsWithin }
{}
