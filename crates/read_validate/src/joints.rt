//! Where a look goes when a part of it has ended.

ghost use Rattle.std.specs.Prelude.{◌≡◌};
ghost use Rattle.pmem_words.specs.Parts.{Into};
ghost use Rattle.read_validate.specs.Looking.{at_stage, walked_so, seen, MayReadAt};

use crate::query::{Query, Seen, Stage};
use crate::range::ReadRange;
use pins::Unpin;
use pmem_words::SeatState;

/// The tail was found: a range is read as far as the file has it. Without a mapped byte in it, it is read.
pub fn walked(query: Query, seat: &mut SeatState) -> Stage
    requires { MayReadAt query seat.old }
    ensures { walked_so query seat.old ≡ Into (at_stage query result) seat.new }
{
    let Query::Range { offset, length } = query else {
        return Stage::Unpinning(Unpin::new());
    };
    let count = u64::from(length).min(seat.size().saturating_sub(offset));
    if count == 0 {
        return Stage::Unpinning(Unpin::new());
    }
    match ReadRange::begin(seat, offset, offset + count) {
        Some(range) => Stage::Reading(range),
        None => Stage::Unpinning(Unpin::new()),
    }
}

/// The pin was given up: this was seen.
pub fn seen(query: Query, seat: &SeatState) -> Seen
    ensures { result ≡ seen query seat.now }
{
    let number = match query {
        Query::Size => seat.size(),
        Query::Range { .. } => seat.bytes().len() as u64,
    };
    Seen {
        position: seat.position(),
        number,
    }
}
