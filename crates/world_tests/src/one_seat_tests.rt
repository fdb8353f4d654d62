//! A seat alone on images with entries, whose words are laid by the rules of the format.

ghost use Rattle.std.specs.Prelude.{◌≡◌, IfOk, length};
ghost use Rattle.log_core.specs.Alone.{IsAlone};
ghost use Rattle.write_any.specs.WriteWithin.{MayWrite};

use crate::one_seat::{alone_on, pin_alone, walk_alone, write_by_parts, writing_on};
use log_blocks::Tail;
use log_image::Start;
use pmem_words::{Plain, SeatState, Written};
use recovery::open_words;
use std::alloc::Global;
use std::test::Fail;

/// The words of a just-made image of 40 data blocks and 4 log blocks of 64 bytes, each after its place.
const MADE: [(usize, u64); 5] = [
    (0, 3_552_576_303_075_180_877),
    (1, 393_217),
    (2, 17_179_869_224),
    (3, 4_294_967_337),
    (329, 4_611_686_018_427_387_904),
];

/// Log block 41 gets three used slots: virtual block 0 is block 2; by block 5, virtual blocks 4 and 5 are blocks 1 and 3; and a seal.
const SEALED: [(usize, u64); 6] = [
    (331, 524_289),
    (332, 22),
    (333, 3),
    (40, 8_590_065_668),
    (41, 65_537),
    (42, 65_539),
];

/// It is linked to block 42 of base 2, whose first slot says that virtual block 0 is block 4.
const LINKED: [(usize, u64); 3] = [
    (328, 42),
    (337, 4_611_686_018_427_387_906),
    (339, 1_048_577),
];

/// An image of two data blocks and a log block of 64 bytes: a snapshot of position 2 and one byte, in which virtual block 0 is block 2, and
/// an entry after it, in which it is block 1.
const COLLECTED: [(usize, u64); 12] = [
    (0, 3_552_576_303_075_180_877),
    (1, 393_217),
    (2, 4_294_967_298),
    (3, 8_589_934_597),
    (8, 204),
    (16, 187),
    (33, 4_611_686_018_427_387_906),
    (35, 277_076_930_461_697),
    (40, 4),
    (41, 9_223_372_036_854_775_810),
    (42, 281_474_976_710_657),
    (43, 524_289),
];

/// An image of 7 data blocks and 2 log blocks of 64 bytes, in which virtual block 0 is block 2, 63 bytes left over.
const ONE_ENTRY: [(usize, u64); 6] = [
    (0, 3_552_576_303_075_180_877),
    (1, 393_217),
    (2, 8_589_934_599),
    (3, 4_294_967_304),
    (65, 4_611_686_018_427_387_904),
    (67, 277_076_930_723_841),
];

/// An image of so many words: these at their places, and 0 at the others.
fn image(alloc: Global, count: usize, placed: &[&[(usize, u64)]]) -> Result<Start, Fail> {
    let mut words = vec![in alloc; 0u64; count]?;
    for some in placed {
        for &(place, word) in *some {
            if place < words.len() {
                words[place] = word;
            }
        }
    }
    Ok(open_words(alloc, words)?.clear())
}

/// A seat that has walked to the tail of an image, and what it found there.
fn walked(alloc: Global, start: Start) -> Result<(SeatState, Tail), Fail> {
    let (mut seat, mut memory) = alone_on(alloc, start)?;
    pin_alone(&mut seat, &mut memory);
    let tail = walk_alone(&mut seat, &mut memory);
    Ok((seat, tail))
}

#[test]
fn a_seat_walks_over_a_seal_and_a_link(rt: HostRuntime) -> Result<(), Fail> {
    let start = image(rt.alloc(), 632, &[&MADE, &SEALED])?;
    let (seat, tail) = walked(rt.alloc(), start)?;
    assert_eq!(rt; tail, Tail::End { block: 41 });
    assert_eq!(rt; (seat.position(), seat.size()), (2, 384));
    assert_eq!(rt; (seat.block(0), seat.block(4)), (Some(2), Some(1)));
    let start = image(rt.alloc(), 632, &[&MADE, &SEALED, &LINKED])?;
    let (seat, tail) = walked(rt.alloc(), start)?;
    assert_eq!(rt; tail, Tail::Slot { block: 42, slot: 4 });
    assert_eq!(rt;
        (seat.position(), seat.size(), seat.tail_base()),
        (3, 384, 2)
    );
    assert_eq!(rt; (seat.block(0), seat.block(1)), (Some(4), None));
    assert_eq!(rt; (seat.block(4), seat.block(5)), (Some(1), Some(3)));
    Ok(())
}

#[test]
fn a_seat_walks_from_a_snapshot(rt: HostRuntime) -> Result<(), Fail> {
    let start = image(rt.alloc(), 192, &[&COLLECTED])?;
    let (seat, tail) = walked(rt.alloc(), start)?;
    assert_eq!(rt; tail, Tail::Slot { block: 4, slot: 4 });
    assert_eq!(rt;
        (seat.position(), seat.size(), seat.snapshot_base()),
        (3, 1, 2)
    );
    assert_eq!(rt; (seat.block(0), seat.block(1)), (Some(1), None));
    Ok(())
}

/// A seat that is to write two blocks of 64 bytes, from byte 64 of the file on.
fn writing_two(alloc: Global, start: Start) -> Result<(SeatState, Plain), Fail>
    requires { start.geometry.block_bytes ≡ 64 }
    ensures { IfOk result (λ made. ∥ IsAlone (MayWrite 64) made.0 made.1 ∥₁) }
{
    Ok(writing_on(alloc, start, 64, &[7; 128])?)
}

#[test]
fn blocks_that_are_not_one_run_are_named_by_their_runs(rt: HostRuntime) -> Result<(), Fail> {
    let start = image(rt.alloc(), 256, &[&ONE_ENTRY])?;
    if start.geometry().block_bytes() != 64 {
        return Ok(());
    }
    let (mut seat, mut memory) = writing_two(rt.alloc(), start)?;
    let written = write_by_parts(&mut seat, &mut memory, 64);
    let done = Written {
        position: 2,
        at: 64,
        lost: 0,
        refusal: None,
    };
    assert_eq!(rt; written, done);
    assert_eq!(rt; (seat.size(), seat.owned().len()), (192, 0));
    let (words, taken) = memory.into_parts();
    let due = [
        (68, 18),
        (32, 8_590_065_665),
        (33, 65_537),
        (34, 65_539),
        (8, 0x0707_0707_0707_0707),
        (31, 0x0707_0707_0707_0707),
    ];
    for (place, word) in due {
        assert_eq!(rt; words.get(place).copied(), Some(word));
    }
    assert_eq!(rt; taken.get(0).copied(), Some(0b1_0001_1111));
    Ok(())
}
