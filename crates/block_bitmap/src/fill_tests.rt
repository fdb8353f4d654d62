use super::*;
use log_entry::{Area, Geometry};
use pmem_words::{Ask, Machine, Memory, OwnedBlock, Place, Plain, SeatState, Task, Turn};
use std::test::Fail;

#[test]
fn a_fill_stores_word_by_word(rt: HostRuntime) -> Result<(), Fail> {
    let Ok(geometry) = Geometry::new(40, 4, 64) else {
        return Ok(());
    };
    let mut seat = SeatState::new(rt.alloc(), geometry, 0, 1, 0)?;
    seat.own(2, Area::Data);
    seat.set_word(0, 1, 9);
    let mut fill = Fill::new(0, 1);
    assert_eq!(rt; fill.ask(&seat), Ask::Store(Place::Image(16), 0));
    assert_eq!(rt; matches!(fill.tell(&mut seat, 0), Turn::Go), true);
    assert_eq!(rt; fill.ask(&seat), Ask::Store(Place::Image(17), 9));
    assert_eq!(rt; Fill::Fence.ask(&seat), Ask::Fence);
    Ok(())
}

#[test]
fn a_task_that_begins_forgets_the_one_before(rt: HostRuntime) -> Result<(), Fail> {
    let Ok(geometry) = Geometry::new(40, 4, 64) else {
        return Ok(());
    };
    let mut seat = SeatState::new(rt.alloc(), geometry, 0, 1, 0)?;
    seat.set_lost(3);
    seat.set_at_tail(true);
    begin_alone(
        &mut seat,
        Task::Take {
            area: Area::Data,
            count: 2,
        },
    );
    assert_eq!(rt; (seat.lost(), seat.at_tail()), (0, false));
    assert_eq!(rt;
        seat.job(),
        Task::Take {
            area: Area::Data,
            count: 2
        }
    );
    Ok(())
}
