//! The laws of the steps, each the contract of a function that does nothing.

ghost use Rattle.image_steps.specs.Steps.{StoresMeanNothing, EntriesAreWrites, LinksGrowTheLog};

/// Words of blocks that are not taken mean nothing: an image in which they are others stands for the same file.
pub fn law_stores()
    ensures { StoresMeanNothing }
{}

/// A direct entry in the slot that is the tail is a write, where its blocks hold the new file.
pub fn law_entries()
    ensures { EntriesAreWrites }
{}

/// The link that is the tail, set to a fresh log block, makes the chain longer and changes no more.
pub fn law_links()
    ensures { LinksGrowTheLog }
{}
