use super::*;
use log_entry::{Area, Entry, Geometry};
use pmem_words::{Ask, Machine, Place, SeatState, Turn};
use std::test::Fail;

#[test]
fn a_block_is_linked_or_another_is_followed(rt: HostRuntime) -> Result<(), Fail> {
    let Ok(geometry) = Geometry::new(40, 4, 64) else {
        return Ok(());
    };
    let mut seat = SeatState::new(rt.alloc(), geometry, 0, 1, 5)?;
    seat.set_tail_block(41);
    seat.set_tail_slot(8);
    seat.own(42, Area::Log);
    seat.own(1, Area::Data);
    let mut grow = Grow::new(42);
    let ask = Ask::Exchange {
        place: Place::Image(328),
        old: 0,
        new: 42,
    };
    assert_eq!(rt; grow.ask(&seat), ask);
    match grow.tell(&mut seat, 0) {
        Turn::Go => assert!(rt; false),
        Turn::Done(out) => assert_eq!(rt; out, Grown::Linked),
    }
    assert_eq!(rt;
        (seat.tail_block(), seat.tail_slot(), seat.tail_base()),
        (42, 3, 5)
    );
    assert_eq!(rt;
        (seat.owned().len(), seat.contents().len(), seat.at_tail()),
        (1, 8, true)
    );
    match grow.tell(&mut seat, 43) {
        Turn::Go => assert!(rt; false),
        Turn::Done(out) => assert_eq!(rt; out, Grown::Overtaken { block: 43 }),
    }
    assert_eq!(rt;
        (seat.tail_block(), seat.tail_slot(), seat.tail_base()),
        (43, 3, 5)
    );
    assert_eq!(rt; (seat.owned().len(), seat.lost()), (1, 0));
    Ok(())
}

#[test]
fn a_seal_ends_the_block_of_the_tail(rt: HostRuntime) -> Result<(), Fail> {
    let Ok(geometry) = Geometry::new(40, 4, 64) else {
        return Ok(());
    };
    let mut seat = SeatState::new(rt.alloc(), geometry, 0, 1, 1)?;
    seat.set_tail_block(41);
    seat.set_tail_slot(4);
    let mut seal = Seal::new();
    let ask = Ask::Exchange {
        place: Place::Image(332),
        old: 0,
        new: 3,
    };
    assert_eq!(rt; seal.ask(&seat), ask);
    match seal.tell(&mut seat, 0) {
        Turn::Go => assert!(rt; false),
        Turn::Done(out) => assert_eq!(rt; out, Sealed::Sealed),
    }
    assert_eq!(rt;
        (seat.tail_block(), seat.tail_slot(), seat.at_tail()),
        (41, 8, true)
    );
    Ok(())
}

#[test]
fn an_offer_goes_over_the_seal_that_it_found(rt: HostRuntime) -> Result<(), Fail> {
    let Ok(geometry) = Geometry::new(40, 4, 64) else {
        return Ok(());
    };
    let mut seat = SeatState::new(rt.alloc(), geometry, 0, 1, 1)?;
    seat.set_tail_block(41);
    seat.set_tail_slot(4);
    let mut offer = Offer::new(Entry::Direct {
        virt: 0,
        block: 1,
        count: 1,
        leftover: 0,
    });
    let ask = Ask::Exchange {
        place: Place::Image(332),
        old: 0,
        new: 262_145,
    };
    assert_eq!(rt; offer.ask(&seat), ask);
    match offer.tell(&mut seat, 3) {
        Turn::Go => assert!(rt; false),
        Turn::Done(out) => assert_eq!(rt; out, Offered::Overtaken { word: 3 }),
    }
    assert_eq!(rt;
        (seat.position(), seat.tail_slot(), seat.at_tail()),
        (1, 8, false)
    );
    assert_eq!(rt; (seat.lost(), seat.won()), (1, false));
    Ok(())
}

#[test]
fn an_offer_keeps_the_indirect_entry_that_it_found(rt: HostRuntime) -> Result<(), Fail> {
    let Ok(geometry) = Geometry::new(40, 4, 64) else {
        return Ok(());
    };
    let mut seat = SeatState::new(rt.alloc(), geometry, 0, 1, 1)?;
    seat.set_tail_block(41);
    seat.set_tail_slot(5);
    let mut offer = Offer { entry: 262_145 };
    match offer.tell(&mut seat, 18) {
        Turn::Go => assert!(rt; false),
        Turn::Done(out) => assert_eq!(rt; out, Offered::Overtaken { word: 18 }),
    }
    assert_eq!(rt; (seat.position(), seat.tail_slot(), seat.lost()), (1, 5, 1));
    assert_eq!(rt; seat.kept().len(), 1);
    assert_eq!(rt; Walk::behind(18).ask(&seat), Ask::Load(Place::Image(32)));
    assert_eq!(rt; Walk::new().ask(&seat), Ask::Load(Place::Image(1)));
    Ok(())
}

#[test]
fn an_offer_puts_its_entry_in(rt: HostRuntime) -> Result<(), Fail> {
    let Ok(geometry) = Geometry::new(40, 4, 64) else {
        return Ok(());
    };
    let mut seat = SeatState::new(rt.alloc(), geometry, 0, 1, 0)?;
    seat.set_tail_block(41);
    seat.set_tail_slot(3);
    seat.own(2, Area::Data);
    seat.own(1, Area::Data);
    let mut offer = Offer { entry: 262_145 };
    match offer.tell(&mut seat, 0) {
        Turn::Go => assert!(rt; false),
        Turn::Done(out) => assert_eq!(rt; out, Offered::Committed { position: 1 }),
    }
    assert_eq!(rt;
        (seat.position(), seat.tail_slot(), seat.size()),
        (1, 4, 64)
    );
    assert_eq!(rt; (seat.at_tail(), seat.won(), seat.lost()), (true, true, 0));
    assert_eq!(rt; seat.block(0), Some(1));
    assert_eq!(rt; (seat.owned().len(), seat.contents().len()), (1, 8));
    Ok(())
}
