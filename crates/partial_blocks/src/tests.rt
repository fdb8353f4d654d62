use super::*;
use log_entry::{Area, Geometry};
use pmem_words::{Ask, Machine, Place, SeatState};
use std::test::Fail;

#[test]
fn bytes_over_two_unmapped_blocks(rt: HostRuntime) -> Result<(), Fail> {
    let Ok(geometry) = Geometry::new(40, 4, 64) else {
        return Ok(());
    };
    let mut seat = SeatState::new(rt.alloc(), geometry, 0, 1, 0)?;
    seat.put_bytes([1u8, 2, 3, 4].as_slice());
    seat.own(3, Area::Data);
    seat.own(4, Area::Data);
    assert_eq!(rt; first_touched(&seat, 62), 0);
    assert_eq!(rt; last_touched(&seat, 62), 1);
    assert_eq!(rt; touched_count(&seat, 62), 2);
    assert_eq!(rt; lacks_base(&seat, 62), None);
    assert_eq!(rt; leftover_of(&seat, 62), 62);
    compose_place(&mut seat, 62, 0);
    compose_place(&mut seat, 62, 1);
    let low = 0x0201_0000_0000_0000;
    let words = [0, 0, 0, 0, 0, 0, 0, low, 0x0403, 0, 0, 0, 0, 0, 0, 0];
    assert_eq!(rt; seat.contents(), words.as_slice());
    Ok(())
}

#[test]
fn a_byte_over_a_mapped_block(rt: HostRuntime) -> Result<(), Fail> {
    let Ok(geometry) = Geometry::new(40, 4, 64) else {
        return Ok(());
    };
    let mut seat = SeatState::new(rt.alloc(), geometry, 0, 1, 0)?;
    seat.put_bytes([0xffu8].as_slice());
    seat.own(3, Area::Data);
    seat.apply(0, 9, 1);
    assert_eq!(rt; lacks_base(&seat, 5), Some(0));
    match ReadBases::begin(5, &mut seat) {
        None => assert!(rt; false),
        Some(reading) => {
            assert_eq!(rt; reading.ask(&seat), Ask::Load(Place::Image(72)));
        }
    }
    Ok(())
}

#[test]
fn a_byte_over_the_bytes_of_a_base(rt: HostRuntime) -> Result<(), Fail> {
    let Ok(geometry) = Geometry::new(40, 4, 64) else {
        return Ok(());
    };
    let mut seat = SeatState::new(rt.alloc(), geometry, 0, 1, 0)?;
    seat.put_bytes([0xffu8].as_slice());
    seat.own(3, Area::Data);
    seat.apply(0, 9, 1);
    seat.add_base(0);
    seat.add_base_word(0x0807_0605_0403_0201);
    seat.add_base_word(9);
    seat.add_base_word(10);
    seat.add_base_word(11);
    seat.add_base_word(12);
    seat.add_base_word(13);
    seat.add_base_word(14);
    seat.add_base_word(15);
    assert_eq!(rt; lacks_base(&seat, 5), None);
    compose_place(&mut seat, 5, 0);
    let words = [0x0807_ff05_0403_0201, 9, 10, 11, 12, 13, 14, 15];
    assert_eq!(rt; seat.contents(), words.as_slice());
    Ok(())
}
