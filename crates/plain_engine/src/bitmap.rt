//! The bits of taken blocks, 64 to a word.

ghost use Rattle.std.specs.Prelude.{◌≡◌, ◌≢◌, ℕ, ◌+◌, ◌*◌, ◌^◌, ◌<◌, ◌≤◌, ◌↔◌, ◌==◌, if◌then◌else◌, nat_le, nat_lt, ◌&&◌, length, IsTrue, MatchOption};
ghost use Rattle.log_image.specs.Taken.{bit_of};
ghost use Rattle.plain_engine.specs.Clear.{IsFirstClear, AllTaken, AllClear, IsLeastRun};

/// Whether the bit of a block is 0.
pub fn is_clear(taken: &[u64], block: usize) -> bool
    requires { block < 64 * length taken.now }
    ensures { IsTrue result ↔ (bit_of taken.now block ≡ 0) }
{
    (taken[block / 64] >> (block % 64)) & 1 == 0
}

/// Sets the bit of a block.
pub fn mark(taken: &mut [u64], block: usize)
    requires { block < 64 * length taken.old }
    ensures { (other : ℕ) → bit_of taken.new other ≡ (if other == block then 1 else bit_of taken.old other) }
{
    taken[block / 64] |= 1 << (block % 64);
}

/// Sets the bits of a run of blocks.
pub fn mark_run(taken: &mut [u64], first: usize, count: usize)
    requires inside { first + count ≤ 64 * length taken.old }
    requires near { first + count < 2 ^ 32 }
    ensures { (other : ℕ) → bit_of taken.new other ≡ (if nat_le first other && nat_lt other (first + count) then 1 else bit_of taken.old other) }
{
    for k in 0..count {
        mark(taken, first + k);
    }
}

/// The first block of a range whose bit is 0.
pub fn first_clear(taken: &[u64], from: usize, end: usize) -> Option<usize>
    requires { end ≤ 64 * length taken.now }
    ensures { MatchOption result (AllTaken taken.now from end) (IsFirstClear taken.now from end) }
{
    for block in from..end {
        if is_clear(taken, block) {
            return Some(block);
        }
    }
    None
}

/// Whether the bits of a range of blocks are all 0.
pub fn are_clear(taken: &[u64], from: usize, end: usize) -> bool
    requires { end ≤ 64 * length taken.now }
    ensures { IsTrue result ↔ AllClear taken.now from end }
{
    for block in from..end {
        if !is_clear(taken, block) {
            return false;
        }
    }
    true
}

/// The least clear block of a range, if so many blocks from it on are clear in the range.
pub fn least_run(taken: &[u64], from: usize, end: usize, count: usize) -> Option<usize>
    requires inside { end ≤ 64 * length taken.now }
    requires near { end < 2 ^ 32 }
    requires few { count < 2 ^ 32 }
    ensures { MatchOption result ((block : ℕ) → IsLeastRun taken.now from end count block → ⊥) (IsLeastRun taken.now from end count) }
{
    let first = first_clear(taken, from, end)?;
    if first + count <= end && are_clear(taken, first, first + count) {
        return Some(first);
    }
    None
}
