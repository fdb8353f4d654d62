//! How much room a seat's lists have.

ghost use Rattle.std.specs.Prelude.{◌≡◌, ◌≤◌};
ghost use Rattle.pmem_words.specs.Seats.{owned_room as owned_room_of, bitmap_words as bitmap_words_of};

use log_entry::Geometry;

pub fn owned_room(geometry: &Geometry) -> u32
    ensures { result ≡ owned_room_of geometry.now }
{
    geometry.longest() + geometry.snapshot_blocks() + 4
}

pub fn bitmap_words(geometry: &Geometry) -> usize
    ensures { result ≡ bitmap_words_of geometry.now }
{
    geometry.total().div_ceil(64) as usize
}
