//! Clearing what stands after the tail of an opened image.

ghost use Rattle.std.specs.Prelude.{◌≡◌, ℕ, ◌+◌, ◌*◌, ◌<◌, ◌≤◌, ◌==◌, ◌&&◌, ◌||◌, nat_lt, if◌then◌else◌, true, length, slice_index};
ghost use Rattle.log_image.specs.Image.{total, words_in, shape_by};
ghost use Rattle.log_image.specs.Tails.{IsCleared};
ghost use Rattle.recovery.specs.Openings.{as_tail};
ghost use Rattle.recovery.specs.Clearing.{is_inside};

use crate::tails::Tail;
use log_entry::Geometry;

/// Clears the slots after the tail in its block and, where the tail is a slot, that block's link.
pub fn clear_after(words: &mut [u64], geometry: Geometry, tail: Tail)
    requires whole { length words.old ≡ total (shape_by geometry) * words_in (shape_by geometry) }
    requires inside { is_inside (shape_by geometry) (as_tail tail) ≡ true }
    ensures { IsCleared (shape_by geometry) (as_tail tail) words.old words.new }
{
    match tail {
        Tail::Link { .. } => {}
        Tail::Slot { block, slot } => {
            let count = geometry.q() as usize;
            clear_slots(words, block as usize * count, slot as usize, count);
        }
    }
}

/// Clears the first of `count` words from one on, and those of them after a slot.
fn clear_slots(words: &mut [u64], first: usize, slot: usize, count: usize)
    requires inside { first + count ≤ length words.old }
    requires among { slot < count }
    ensures same_length { length words.new ≡ length words.old }
    ensures each { (place : ℕ) → slice_index words.new place ≡ (if place == first || (nat_lt (first + slot) place && nat_lt place (first + count)) then 0 else slice_index words.old place) }
{
    words[first] = 0;
    for place in first + slot + 1..first + count {
        words[place] = 0;
    }
}
