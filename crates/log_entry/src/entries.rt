//! The entries of the log: what a slot of a log block may hold.

ghost use Rattle.std.specs.Prelude.{◌≡◌, ◌<◌, MatchOption};
ghost use Rattle.log_entry.specs.Words.{entry_unnamed, IsEncodable, IsEntryWord};

use crate::layouts::{
    DIRECT, DIRECT_BLOCK, DIRECT_COUNT, DIRECT_LEFTOVER, DIRECT_UNNAMED, DIRECT_VIRT, EMPTY,
    ENTRY_KIND, INDIRECT, INDIRECT_BLOCK, INDIRECT_UNNAMED, SEAL,
};

/// What a slot of a log block holds.
#[derive(Clone, Copy, Debug, PartialEq, Eq)]
pub enum Entry {
    /// No entry yet.
    Empty,
    /// One run of blocks: `count` virtual blocks from `virt` on are the physical blocks from `block` on.
    Direct {
        /// The first virtual block.
        virt: u16,
        /// The first physical block.
        block: u16,
        /// Blocks, 1 to 256.
        count: u16,
        /// Bytes of the last block past the end of the write, below 4096.
        leftover: u16,
    },
    /// The runs that this physical block names.
    Indirect {
        /// The physical block.
        block: u16,
    },
    /// The end of a log block that takes no entry any more.
    Seal,
}

/// The word of an entry, which has 1 to 256 blocks and a leftover below 4096 where it is direct.
pub fn encode(entry: &Entry) -> u64
    requires { IsEncodable entry.now }
    ensures { IsEntryWord entry.now result }
{
    match *entry {
        Entry::Empty => ENTRY_KIND.with(EMPTY),
        Entry::Direct {
            virt,
            block,
            count,
            leftover,
        } => {
            ENTRY_KIND.with(DIRECT)
                + DIRECT_VIRT.with(u64::from(virt))
                + DIRECT_BLOCK.with(u64::from(block))
                + DIRECT_COUNT.with(u64::from(count - 1))
                + DIRECT_LEFTOVER.with(u64::from(leftover))
        }
        Entry::Indirect { block } => {
            ENTRY_KIND.with(INDIRECT) + INDIRECT_BLOCK.with(u64::from(block))
        }
        Entry::Seal => ENTRY_KIND.with(SEAL),
    }
}

/// The entry that has this word. None exactly where a bit is set that an entry of the word's kind leaves 0: no entry has such a word.
pub fn decode(word: u64) -> Option<Entry>
    ensures cases { MatchOption result (0 < entry_unnamed word) (λ entry. (entry_unnamed word ≡ 0) × IsEntryWord entry word) }
    ensures each { (entry : Entry) → IsEntryWord entry word → result ≡ Some entry }
{
    let kind = ENTRY_KIND.of(word);
    if kind == DIRECT {
        return (DIRECT_UNNAMED.of(word) == 0).then_some(Entry::Direct {
            virt: DIRECT_VIRT.of(word) as u16,
            block: DIRECT_BLOCK.of(word) as u16,
            count: DIRECT_COUNT.of(word) as u16 + 1,
            leftover: DIRECT_LEFTOVER.of(word) as u16,
        });
    }
    if kind == INDIRECT {
        return (INDIRECT_UNNAMED.of(word) == 0).then_some(Entry::Indirect {
            block: INDIRECT_BLOCK.of(word) as u16,
        });
    }
    match word {
        EMPTY => Some(Entry::Empty),
        SEAL => Some(Entry::Seal),
        _ => None,
    }
}
