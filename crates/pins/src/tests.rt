use super::*;
use log_entry::{Geometry, Head, Held};
use pmem_words::{Ask, Machine, Memory, Place, Plain, SeatState, Turn};
use std::test::Fail;

#[test]
fn a_pin_asks_three_times_and_is_given_up_by_one_store(rt: HostRuntime) -> Result<(), Fail> {
    let Ok(geometry) = Geometry::new(40, 4, 64) else {
        return Ok(());
    };
    let mut seat = SeatState::new(rt.alloc(), geometry, 0, 1, 0)?;
    let mut pin = Pin::new();
    let load = Ask::Load(Place::Image(3));
    assert_eq!(rt; pin.ask(&seat), load);
    assert_eq!(rt;
        matches!(pin.tell(&mut seat, 4_294_967_299), Turn::Go),
        true
    );
    assert_eq!(rt; pin.ask(&seat), Ask::Store(Place::Pin(0), 1));
    assert_eq!(rt; matches!(pin.tell(&mut seat, 0), Turn::Go), true);
    assert_eq!(rt; pin.ask(&seat), load);
    let first = Head {
        generation: 1,
        block: 3,
    };
    match pin.tell(&mut seat, 4_294_967_299) {
        Turn::Go => assert!(rt; false),
        Turn::Done(head) => assert_eq!(rt; head, first),
    }
    assert_eq!(rt; seat.head(), 4_294_967_299);
    assert_eq!(rt; (seat.pin(), seat.generation(), seat.valid()), (1, 1, true));
    let mut unpin = Unpin::new();
    assert_eq!(rt; unpin.ask(&seat), Ask::Store(Place::Pin(0), 0));
    assert_eq!(rt; matches!(unpin.tell(&mut seat, 1), Turn::Go), false);
    assert_eq!(rt;
        (seat.pin(), seat.generation(), seat.valid()),
        (0, 1, false)
    );
    Ok(())
}

#[test]
fn a_pin_follows_a_head_that_moves(rt: HostRuntime) -> Result<(), Fail> {
    let Ok(geometry) = Geometry::new(40, 4, 64) else {
        return Ok(());
    };
    let mut seat = SeatState::new(rt.alloc(), geometry, 0, 1, 0)?;
    let mut pin = Pin::new();
    assert_eq!(rt;
        matches!(pin.tell(&mut seat, 4_294_967_299), Turn::Go),
        true
    );
    assert_eq!(rt; matches!(pin.tell(&mut seat, 0), Turn::Go), true);
    assert_eq!(rt;
        matches!(pin.tell(&mut seat, 8_589_934_597), Turn::Go),
        true
    );
    assert_eq!(rt; seat.valid(), false);
    assert_eq!(rt; pin.ask(&seat), Ask::Store(Place::Pin(0), 2));
    Ok(())
}

#[test]
fn a_scan_finds_the_first_pin_that_needs_a_generation(rt: HostRuntime) -> Result<(), Fail> {
    let Ok(geometry) = Geometry::new(40, 4, 64) else {
        return Ok(());
    };
    let mut seat = SeatState::new(rt.alloc(), geometry, 1, 2, 0)?;
    let mut plain = Plain::new(rt.alloc(), Vec::new(rt.alloc()), Vec::new(rt.alloc()))?;
    plain.perform(&seat, Ask::Store(Place::Pin(0), 1));
    plain.perform(&seat, Ask::Store(Place::Pin(1), 2));
    let held = Scanned::Held(Held {
        seat: 0,
        generation: 1,
    });
    assert_eq!(rt; scan_alone(&mut seat, &mut plain, 1), held);
    assert_eq!(rt; scan_alone(&mut seat, &mut plain, 0), Scanned::Clear);
    assert_eq!(rt; seat.pins_seen(), [1, 2].as_slice());
    Ok(())
}
