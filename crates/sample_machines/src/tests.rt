use super::*;
use log_entry::Geometry;
use pmem_words::{Plain, SeatState};
use std::test::Fail;

#[test]
fn a_post_takes_the_first_empty_slot(rt: HostRuntime) -> Result<(), Fail> {
    let Ok(geometry) = Geometry::new(40, 4, 64) else {
        return Ok(());
    };
    let mut seat = SeatState::new(rt.alloc(), geometry, 0, 1, 0)?;
    let words = vec![in rt.alloc(); 1, 2, 0, 0, 0, 0, 0]?;
    let mut plain = Plain::new(rt.alloc(), words, Vec::new(rt.alloc()))?;
    seat.put_bytes(&[7, 8]);
    assert_eq!(rt; post_alone(&mut seat, &mut plain, 5, 99, 4), true);
    assert_eq!(rt; seat.tail_slot(), 2);
    let (words, _) = plain.into_parts();
    assert_eq!(rt; words.as_slice(), [1, 2, 99, 0, 0, 7, 8].as_slice());
    Ok(())
}

#[test]
fn a_post_ends_at_the_limit(rt: HostRuntime) -> Result<(), Fail> {
    let Ok(geometry) = Geometry::new(40, 4, 64) else {
        return Ok(());
    };
    let mut seat = SeatState::new(rt.alloc(), geometry, 0, 1, 0)?;
    let words = vec![in rt.alloc(); 1, 2, 3, 0, 0]?;
    let mut plain = Plain::new(rt.alloc(), words, Vec::new(rt.alloc()))?;
    seat.put_bytes(&[7, 8]);
    assert_eq!(rt; post_alone(&mut seat, &mut plain, 3, 99, 3), false);
    seat.put_bytes(&[9]);
    lay_alone(&mut seat, &mut plain, 4);
    let (words, _) = plain.into_parts();
    assert_eq!(rt; words.as_slice(), [1, 2, 3, 7, 9].as_slice());
    Ok(())
}
