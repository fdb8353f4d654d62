use super::*;
use log_entry::Geometry;
use std::test::Fail;

#[test]
fn each_ask_has_one_answer(rt: HostRuntime) -> Result<(), Fail> {
    let Ok(geometry) = Geometry::new(40, 4, 64) else {
        return Ok(());
    };
    let seat = SeatState::new(rt.alloc(), geometry, 0, 1, 0)?;
    let words = vec![in rt.alloc(); 5, 0, 7]?;
    let taken = vec![in rt.alloc(); 6]?;
    let mut plain = Plain::new(rt.alloc(), words, taken)?;
    let first = Place::Image(0);
    let second = Place::Image(1);
    assert_eq!(rt; plain.perform(&seat, Ask::Load(first)), 5);
    assert_eq!(rt; plain.perform(&seat, Ask::Store(first, 8)), 0);
    assert_eq!(rt; plain.perform(&seat, Ask::Mark(0)), 8);
    assert_eq!(rt; plain.perform(&seat, Ask::Fence), 0);
    assert_eq!(rt;
        plain.perform(
            &seat,
            Ask::Exchange {
                place: second,
                old: 0,
                new: 9
            }
        ),
        0
    );
    assert_eq!(rt;
        plain.perform(
            &seat,
            Ask::Exchange {
                place: second,
                old: 0,
                new: 4
            }
        ),
        9
    );
    assert_eq!(rt; plain.perform(&seat, Ask::SetBits(Place::Map(0), 9)), 6);
    assert_eq!(rt; plain.perform(&seat, Ask::ClearBits(Place::Map(0), 3)), 15);
    assert_eq!(rt; plain.perform(&seat, Ask::Load(Place::Pin(15))), 0);
    assert_eq!(rt; plain.perform(&seat, Ask::Store(Place::Pin(15), 3)), 0);
    assert_eq!(rt; plain.perform(&seat, Ask::Load(Place::Pin(15))), 3);
    assert_eq!(rt; plain.perform(&seat, Ask::Load(Place::FenceOf(200))), 0);
    let (words, taken) = plain.into_parts();
    assert_eq!(rt; words.as_slice(), [8, 9, 7].as_slice());
    assert_eq!(rt; taken.as_slice(), [12].as_slice());
    Ok(())
}
