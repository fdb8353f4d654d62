//! The tail of a chain, where reading ends.

ghost use Rattle.std.specs.Prelude.{◌≡◌, ◌≤◌, length};
ghost use Rattle.log_image.specs.Tails.{tail_in};
ghost use Rattle.recovery.specs.Openings.{as_tail};

use log_entry::layouts::{EMPTY, SEAL};

/// The tail of a chain.
#[derive(Clone, Copy, Debug, PartialEq, Eq)]
pub enum Tail {
    /// An empty slot, by its number of word in its block.
    Slot { block: u16, slot: u16 },
    /// The link of a full or sealed block, which is 0.
    Link { block: u16 },
}

/// The tail in the block of this number and these words, in which the chain ends.
pub fn tail_in(block: u16, words: &[u64]) -> Tail
    requires long { 3 ≤ length words.now }
    requires few { length words.now ≤ 512 }
    ensures { as_tail result ≡ tail_in block words.now }
{
    for slot in 3..words.len() {
        if words[slot] == EMPTY {
            return Tail::Slot {
                block,
                slot: slot as u16,
            };
        }
        if words[slot] == SEAL {
            return Tail::Link { block };
        }
    }
    Tail::Link { block }
}
