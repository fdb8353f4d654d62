use super::*;
use log_entry::{Area, Geometry};
use pmem_words::{Ask, Machine, Place, SeatState, Turn};
use std::test::Fail;

#[test]
fn a_giving_asks_once_for_each_word_of_the_bitmap(rt: HostRuntime) -> Result<(), Fail> {
    let Ok(geometry) = Geometry::new(100, 4, 64) else {
        return Ok(());
    };
    let mut seat = SeatState::new(rt.alloc(), geometry, 0, 1, 0)?;
    seat.own(66, Area::Data);
    seat.own(2, Area::Data);
    seat.own(64, Area::Data);
    if seat.found().len() < 2 {
        return Ok(());
    }
    let mut give = Give::new(GiveFrom::Owned);
    assert_eq!(rt; give.ask(&seat), Ask::ClearBits(Place::Map(0), 4));
    assert_eq!(rt; matches!(give.tell(&mut seat, 4), Turn::Go), true);
    assert_eq!(rt; give.ask(&seat), Ask::ClearBits(Place::Map(1), 5));
    match give.tell(&mut seat, 5) {
        Turn::Go => assert!(rt; false),
        Turn::Done(count) => assert_eq!(rt; count, 3),
    }
    Ok(())
}
