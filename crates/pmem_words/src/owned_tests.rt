use super::*;
use log_entry::Area;
use std::test::Fail;

#[test]
fn owned_blocks_and_their_words(rt: HostRuntime) -> Result<(), Fail> {
    let mut owned = OwnedBlocks::new(rt.alloc(), 2, 3)?;
    owned.own(7, Area::Data);
    owned.own(8, Area::Log);
    owned.own(9, Area::Data);
    owned.set_word(1, 1, 5);
    owned.set_word(2, 0, 6);
    assert_eq!(rt; owned.contents(), [0, 0, 0, 5, 6, 0].as_slice());
    owned.set_block(0, &[1, 0, 0, 0, 0, 0, 0, 0, 0, 2, 0, 0, 0, 0, 0, 0]);
    assert_eq!(rt; owned.contents(), [1, 512, 0, 5, 6, 0].as_slice());
    owned.set_filled(1, true);
    owned.set_fenced(1, true);
    owned.disown(0);
    owned.disown_from(1);
    let left = OwnedBlock {
        block: 8,
        area: Area::Log,
        filled: true,
        fenced: true,
    };
    assert_eq!(rt; owned.blocks(), [left].as_slice());
    assert_eq!(rt; owned.contents(), [0, 5].as_slice());
    Ok(())
}

#[test]
fn blocks_leave_by_their_bits(rt: HostRuntime) -> Result<(), Fail> {
    let mut owned = OwnedBlocks::new(rt.alloc(), 2, 4)?;
    owned.own(7, Area::Data);
    owned.own(66, Area::Log);
    owned.own(70, Area::Data);
    owned.own(71, Area::Data);
    owned.set_word(1, 0, 5);
    owned.set_word(2, 1, 6);
    owned.set_word(3, 1, 8);
    owned.set_filled(1, true);
    owned.fence_filled();
    owned.disown_in_word(1, 64);
    let mut blocks = [0u16; 3];
    let mut fenced = [false; 3];
    for place in 0..owned.blocks().len() {
        if place < 3 {
            blocks[place] = owned.blocks()[place].block;
            fenced[place] = owned.blocks()[place].fenced;
        }
    }
    assert_eq!(rt; owned.blocks().len(), 3);
    assert_eq!(rt; blocks, [7, 66, 71]);
    assert_eq!(rt; fenced, [false, true, false]);
    assert_eq!(rt; owned.contents(), [0, 0, 5, 0, 0, 8].as_slice());
    Ok(())
}
