//! The words of a log block that has no entry yet.

ghost use Rattle.std.specs.Prelude.{◌≡◌, ℕ, ◌+◌, ◌<◌, ◌≤◌, ◌^◌, ◌⊎◌, length, slice_index};
ghost use Rattle.plain_engine.specs.Fresh.{IsFreshWord};

use log_entry::{BlockKind, BlockWord};

/// Stores the words of a log block with no entry, which begins at this position: from word `first` on, so many.
pub fn store_fresh(words: &mut [u64], first: usize, count: usize, position: u64)
    requires room { first + count ≤ length words.old }
    requires long { 2 ≤ count }
    requires below { position < 2 ^ 40 }
    ensures stored { (index : ℕ) → index < count → IsFreshWord position index (slice_index words.new (first + index)) }
    ensures others { (at : ℕ) → (at < first) ⊎ (first + count ≤ at) → slice_index words.new at ≡ slice_index words.old at }
{
    for index in 0..count {
        words[first + index] = 0;
    }
    let kind = BlockWord {
        kind: BlockKind::Log,
        base: position,
    };
    words[first + 1] = kind.encode();
}
