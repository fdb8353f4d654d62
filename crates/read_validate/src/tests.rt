use super::*;
use log_entry::Geometry;
use pmem_words::{Ask, Machine, Place, SeatState};
use std::test::Fail;

#[test]
fn a_look_begins_with_a_load_of_the_head(rt: HostRuntime) -> Result<(), Fail> {
    let Ok(geometry) = Geometry::new(40, 4, 64) else {
        return Ok(());
    };
    let seat = SeatState::new(rt.alloc(), geometry, 0, 1, 0)?;
    let load = Ask::Load(Place::Image(3));
    let range = Query::Range {
        offset: 60,
        length: 8,
    };
    assert_eq!(rt; Look::new(Query::Size).ask(&seat), load);
    assert_eq!(rt; Look::new(range).ask(&seat), load);
    Ok(())
}
