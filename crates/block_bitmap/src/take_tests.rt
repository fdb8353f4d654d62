use crate::{Taken, take_alone};
use log_entry::{Area, Geometry};
use pmem_words::{OwnedBlock, Plain, SeatState};
use std::test::Fail;

/// A seat that has taken data blocks alone, on an image of so many data blocks with this bitmap, and how that ended; and the
/// bitmap then.
#[derive(Drop)]
struct Alone {
    ended: Taken,
    seat: SeatState,
    taken: Vec<u64>,
}

fn take_data(
    rt: &HostRuntime,
    data_blocks: u32,
    taken: Vec<u64>,
    count: u16,
) -> Result<Option<Alone>, Fail> {
    let Ok(geometry) = Geometry::new(data_blocks, 4, 64) else {
        return Ok(None);
    };
    let total = geometry.total() as usize;
    if count == 0 || count > 4 || (total + 63) / 64 > taken.len() {
        return Ok(None);
    }
    let mut seat = SeatState::new(rt.alloc(), geometry, 0, 1, 0)?;
    let mut plain = Plain::new(rt.alloc(), Vec::new(rt.alloc()), taken)?;
    let ended = take_alone(&mut seat, &mut plain, Area::Data, count);
    let (_, taken) = plain.into_parts();
    Ok(Some(Alone { ended, seat, taken }))
}

fn data_block(block: u16) -> OwnedBlock {
    OwnedBlock {
        block,
        area: Area::Data,
        filled: false,
        fenced: false,
    }
}

#[test]
fn the_least_clear_blocks_are_taken(rt: HostRuntime) -> Result<(), Fail> {
    let taken = vec![in rt.alloc(); 0b1011u64, 0u64]?;
    let Some(alone) = take_data(&rt, 40, taken, 2)? else {
        return Ok(());
    };
    assert_eq!(rt; alone.ended, Taken::Taken);
    let blocks = [data_block(2), data_block(4)];
    assert_eq!(rt; alone.seat.owned(), blocks.as_slice());
    assert_eq!(rt; alone.seat.found(), [0b11111, 0].as_slice());
    assert_eq!(rt; alone.taken.as_slice(), [0b11111, 0].as_slice());
    Ok(())
}

#[test]
fn no_space_where_one_block_of_two_is_clear(rt: HostRuntime) -> Result<(), Fail> {
    let taken = vec![in rt.alloc(); 0b1011u64]?;
    let Some(alone) = take_data(&rt, 2, taken, 2)? else {
        return Ok(());
    };
    assert_eq!(rt; alone.ended, Taken::NoSpace { area: Area::Data });
    assert_eq!(rt; alone.seat.owned(), [data_block(2)].as_slice());
    assert_eq!(rt; alone.taken.as_slice(), [0b1111].as_slice());
    Ok(())
}

#[test]
fn no_space_after_two_words(rt: HostRuntime) -> Result<(), Fail> {
    let taken = vec![in rt.alloc(); u64::MAX, 0x001f_ffff_fffeu64, 0u64]?;
    let Some(alone) = take_data(&rt, 100, taken, 2)? else {
        return Ok(());
    };
    assert_eq!(rt; alone.ended, Taken::NoSpace { area: Area::Data });
    assert_eq!(rt; alone.seat.owned(), [data_block(64)].as_slice());
    let found = [u64::MAX, 0x001f_ffff_ffff, 0];
    assert_eq!(rt; alone.seat.found(), found.as_slice());
    assert_eq!(rt; alone.taken.as_slice(), found.as_slice());
    Ok(())
}
