use super::*;
use log_entry::{Area, Geometry, Held};
use std::test::Fail;

#[test]
fn a_new_seat_is_empty_and_has_room(rt: HostRuntime) -> Result<(), Fail> {
    let Ok(geometry) = Geometry::new(16_384, 64, 4096) else {
        return Ok(());
    };
    let seat = SeatState::new(rt.alloc(), geometry, 3, 4, 77)?;
    assert_eq!(rt;
        (seat.number(), seat.seats(), seat.position(), seat.job()),
        (3, 4, 77, Task::Idle)
    );
    assert_eq!(rt; seat.geometry().block_bytes(), 4096);
    assert_eq!(rt;
        (
            seat.size(),
            seat.block(0),
            seat.owned().len(),
            seat.found().len()
        ),
        (0, None, 0, 259)
    );
    Ok(())
}

#[test]
fn the_head_and_the_pin(rt: HostRuntime) -> Result<(), Fail> {
    let Ok(geometry) = Geometry::new(40, 4, 64) else {
        return Ok(());
    };
    let mut seat = SeatState::new(rt.alloc(), geometry, 3, 4, 77)?;
    seat.set_head(11);
    seat.set_pin(12);
    seat.set_generation(13);
    seat.set_valid(true);
    assert_eq!(rt;
        (seat.head(), seat.pin(), seat.generation(), seat.valid()),
        (11, 12, 13, true)
    );
    Ok(())
}

#[test]
fn what_was_walked(rt: HostRuntime) -> Result<(), Fail> {
    let Ok(geometry) = Geometry::new(40, 4, 64) else {
        return Ok(());
    };
    let mut seat = SeatState::new(rt.alloc(), geometry, 3, 4, 77)?;
    seat.apply(2, 40, 3);
    seat.grow(9);
    assert_eq!(rt;
        (seat.block(4), seat.block(5), seat.size()),
        (Some(42), None, 9)
    );
    assert_eq!(rt; seat.table().block(2), Some(40));
    seat.reset_table(1);
    assert_eq!(rt; (seat.block(4), seat.size()), (None, 1));
    seat.set_position(21);
    seat.set_tail_block(22);
    seat.set_tail_slot(3);
    seat.set_tail_base(24);
    seat.set_snapshot_base(25);
    seat.set_first_log(26);
    assert_eq!(rt;
        (
            seat.position(),
            seat.tail_block(),
            seat.tail_slot(),
            seat.tail_base()
        ),
        (21, 22, 3, 24)
    );
    assert_eq!(rt; (seat.snapshot_base(), seat.first_log()), (25, 26));
    seat.set_at_tail(true);
    seat.set_ready(true);
    assert_eq!(rt; (seat.at_tail(), seat.ready()), (true, true));
    Ok(())
}

#[test]
fn what_is_read_of_a_snapshot(rt: HostRuntime) -> Result<(), Fail> {
    let Ok(geometry) = Geometry::new(40, 4, 64) else {
        return Ok(());
    };
    let mut seat = SeatState::new(rt.alloc(), geometry, 3, 4, 77)?;
    seat.set_reading(true);
    seat.set_reading_generation(31);
    seat.set_reading_block(32);
    seat.set_reading_slot(5);
    seat.set_reading_place(6);
    assert_eq!(rt;
        (
            seat.reading(),
            seat.reading_generation(),
            seat.reading_block(),
            seat.reading_slot()
        ),
        (true, 31, 32, 5)
    );
    assert_eq!(rt; seat.reading_place(), 6);
    let word = KeptWord {
        block: 34,
        slot: 6,
        word: 35,
    };
    seat.keep(word);
    assert_eq!(rt; seat.kept(), [word].as_slice());
    seat.clear_kept();
    assert_eq!(rt; seat.kept().len(), 0);
    Ok(())
}

#[test]
fn the_present_call(rt: HostRuntime) -> Result<(), Fail> {
    let Ok(geometry) = Geometry::new(40, 4, 64) else {
        return Ok(());
    };
    let mut seat = SeatState::new(rt.alloc(), geometry, 3, 4, 77)?;
    seat.set_job(Task::Append);
    assert_eq!(rt; seat.job(), Task::Append);
    seat.put_bytes(&[1, 2, 3]);
    seat.lay_bytes(&[4]);
    assert_eq!(rt; seat.bytes(), [1, 2, 3, 4].as_slice());
    seat.put_bytes(&[5]);
    assert_eq!(rt; seat.bytes(), [5].as_slice());
    seat.set_lost(41);
    seat.set_won(true);
    seat.set_sync_to(Some(42));
    assert_eq!(rt;
        (seat.lost(), seat.won(), seat.sync_to()),
        (41, true, Some(42))
    );
    Ok(())
}

#[test]
fn partly_touched_blocks(rt: HostRuntime) -> Result<(), Fail> {
    let Ok(geometry) = Geometry::new(40, 4, 64) else {
        return Ok(());
    };
    let mut seat = SeatState::new(rt.alloc(), geometry, 3, 4, 77)?;
    seat.add_base(3);
    seat.add_base(4);
    seat.add_base_word(51);
    assert_eq!(rt; seat.base_words(), [51].as_slice());
    seat.drop_base(0);
    assert_eq!(rt; seat.bases(), [4].as_slice());
    assert_eq!(rt; seat.base_words().len(), 0);
    seat.clear_bases();
    assert_eq!(rt; seat.bases().len(), 0);
    Ok(())
}

#[test]
fn blocks_that_a_seat_owns(rt: HostRuntime) -> Result<(), Fail> {
    let Ok(geometry) = Geometry::new(40, 4, 64) else {
        return Ok(());
    };
    let mut seat = SeatState::new(rt.alloc(), geometry, 3, 4, 77)?;
    seat.own(7, Area::Data);
    seat.own(8, Area::Log);
    seat.own(9, Area::Data);
    seat.set_word(1, 2, 61);
    seat.disown(0);
    seat.disown_from(1);
    assert_eq!(rt; seat.contents(), [0, 0, 61, 0, 0, 0, 0, 0].as_slice());
    seat.set_filled(0, true);
    seat.set_fenced(0, true);
    let left = OwnedBlock {
        block: 8,
        area: Area::Log,
        filled: true,
        fenced: true,
    };
    assert_eq!(rt; seat.owned(), [left].as_slice());
    Ok(())
}

#[test]
fn blocks_that_are_fenced_and_given_back(rt: HostRuntime) -> Result<(), Fail> {
    let Ok(geometry) = Geometry::new(40, 4, 64) else {
        return Ok(());
    };
    let mut seat = SeatState::new(rt.alloc(), geometry, 3, 4, 77)?;
    seat.own(7, Area::Data);
    seat.own(8, Area::Data);
    seat.own(64, Area::Data);
    seat.set_filled(1, true);
    seat.fence_filled();
    seat.disown_in_word(0, 128);
    seat.disown_in_word(1, 1);
    let left = OwnedBlock {
        block: 8,
        area: Area::Data,
        filled: true,
        fenced: true,
    };
    assert_eq!(rt; seat.owned(), [left].as_slice());
    assert_eq!(rt; seat.contents().len(), 8);
    Ok(())
}

#[test]
fn bits_of_blocks(rt: HostRuntime) -> Result<(), Fail> {
    let Ok(geometry) = Geometry::new(40, 4, 64) else {
        return Ok(());
    };
    let mut seat = SeatState::new(rt.alloc(), geometry, 3, 4, 77)?;
    if seat.found().len() == 0 || seat.named().len() == 0 {
        return Ok(());
    }
    seat.add_found(0, 7);
    seat.remove_found(0, 2);
    assert_eq!(rt; seat.found().first(), Some(&5));
    seat.clear_found();
    assert_eq!(rt; seat.found().first(), Some(&0));
    seat.add_named(0, 6);
    assert_eq!(rt; seat.named().first(), Some(&6));
    seat.remove_named(0, 2);
    assert_eq!(rt; seat.named().first(), Some(&4));
    seat.clear_named();
    assert_eq!(rt; seat.named().first(), Some(&0));
    seat.note_first(3);
    seat.note(5);
    assert_eq!(rt; seat.named().first(), Some(&8));
    seat.set_noting(true);
    seat.note(5);
    assert_eq!(rt; seat.named().first(), Some(&40));
    Ok(())
}

#[test]
fn blocks_to_be_given_back(rt: HostRuntime) -> Result<(), Fail> {
    let Ok(geometry) = Geometry::new(40, 4, 64) else {
        return Ok(());
    };
    let mut seat = SeatState::new(rt.alloc(), geometry, 3, 4, 77)?;
    seat.add_replaced(7);
    seat.add_replaced(8);
    seat.add_replaced(9);
    seat.truncate_replaced(2);
    assert_eq!(rt; seat.replaced(), [7, 8].as_slice());
    seat.add_limbo(6);
    seat.keep_replaced();
    assert_eq!(rt; seat.limbo(), [6, 7, 8].as_slice());
    assert_eq!(rt; seat.replaced().len(), 0);
    seat.truncate_limbo(1);
    assert_eq!(rt; seat.limbo(), [6].as_slice());
    seat.set_replaced_generation(71);
    seat.set_limbo_generation(72);
    assert_eq!(rt;
        (seat.replaced_generation(), seat.limbo_generation()),
        (71, 72)
    );
    Ok(())
}

#[test]
fn pins_that_were_seen(rt: HostRuntime) -> Result<(), Fail> {
    let Ok(geometry) = Geometry::new(40, 4, 64) else {
        return Ok(());
    };
    let mut seat = SeatState::new(rt.alloc(), geometry, 3, 4, 77)?;
    seat.add_pin_seen(11);
    assert_eq!(rt; seat.pins_seen(), [11].as_slice());
    seat.clear_pins_seen();
    assert_eq!(rt; seat.pins_seen().len(), 0);
    let held = Held {
        seat: 2,
        generation: 81,
    };
    seat.set_limbo_held(Some(held));
    assert_eq!(rt; seat.limbo_held(), Some(held));
    seat.set_head_fenced(false);
    assert_eq!(rt; seat.head_fenced(), false);
    Ok(())
}
