//! A log block of an image of two data blocks and a log block.

ghost use Rattle.log_entry.specs.Geometry.{HasShape};

use crate::OpenRefusal;
use crate::blocks::read_block;
use crate::reading::Reading;
use block_table::Table;
use log_entry::Geometry;
use opening_rules::BadImage;
use std::alloc::{AllocError, Global};
use std::test::Fail;

/// What reading block 3 with these first slots answers, and the reading after it.
fn read_with(
    alloc: Global,
    geometry: Geometry,
    slots: [u64; 2],
) -> Result<(Result<Option<u16>, OpenRefusal>, Reading), AllocError>
    requires { HasShape geometry 2 1 64 }
{
    let mut words = vec![in alloc; 0u64; 192]?;
    words[25] = 0x4000_0000_0000_0000;
    words[27] = slots[0];
    words[28] = slots[1];
    let table = Table::new(alloc, 64)?;
    let taken = vec![in alloc; 1u64]?;
    let mut reading = Reading {
        chain: Vec::new(alloc),
        in_logs: false,
        position: 0,
        table,
        taken,
    };
    let read = read_block(&mut reading, &words, geometry, 3);
    Ok((read, reading))
}

#[test]
fn a_log_block_is_read_or_refused(rt: HostRuntime) -> Result<(), Fail> {
    let geometry = Geometry::new(2, 1, 64)?;
    let (read, reading) = read_with(rt.alloc(), geometry, [262_145, 0])?;
    assert_eq!(rt; read, Ok(None));
    assert_eq!(rt; reading.position, 1);
    assert_eq!(rt; reading.table.block(0), Some(1));
    assert_eq!(rt; reading.table.size(), 64);

    let (shared, _) = read_with(rt.alloc(), geometry, [262_145, 262_145])?;
    let share = BadImage::BadShare { block: 1 };
    assert_eq!(rt; shared, Err(OpenRefusal::Bad(share)));

    let word = 0x40_0000_0004_0001;
    let (unnamed, _) = read_with(rt.alloc(), geometry, [word, 0])?;
    let entry = BadImage::BadEntry {
        block: 3,
        slot: 3,
        word,
    };
    assert_eq!(rt; unnamed, Err(OpenRefusal::Bad(entry)));
    Ok(())
}
