//! Shapes, texts and contents with values from outside.

use crate::text::{push_bytes, push_number, read_number};
use crate::{Area, BadShape, Blob, Geometry};
use std::test::Fail;

/// Data blocks, log blocks and block bytes; and of the shape the words of a block, the snapshot blocks, the spare blocks, all blocks, and the most blocks of a write.
const SHAPES: [([u32; 3], [u32; 5]); 2] = [
    ([40, 4, 64], [8, 8, 34, 79, 7]),
    ([16384, 64, 4096], [512, 33, 84, 16533, 256]),
];

#[test]
fn shapes_have_their_numbers(rt: HostRuntime) -> Result<(), Fail> {
    for ([data_blocks, log_blocks, block_bytes], want) in SHAPES {
        let shape = Geometry::new(data_blocks, log_blocks, block_bytes)?;
        let spare = shape.count(Area::Spare);
        let got = [
            shape.q(),
            shape.snapshot_blocks(),
            spare,
            shape.total(),
            shape.longest(),
        ];
        assert_eq!(rt; got, want, "at {data_blocks} {log_blocks} {block_bytes}");
        assert_eq!(rt; shape.block_bytes(), block_bytes);
        assert_eq!(rt; shape.limit(), 65536 * u64::from(block_bytes));
    }
    Ok(())
}

#[test]
fn areas_follow_one_another(rt: HostRuntime) -> Result<(), Fail> {
    let shape = Geometry::new(40, 4, 64)?;
    assert_eq!(rt; shape.first(Area::Data), 1);
    assert_eq!(rt; shape.first(Area::Log), 41);
    assert_eq!(rt; shape.first(Area::Spare), 45);
    for (block, area) in [
        (0, None),
        (40, Some(Area::Data)),
        (44, Some(Area::Log)),
        (78, Some(Area::Spare)),
        (79, None),
    ] {
        assert_eq!(rt; shape.area_of(block), area, "at {block}");
    }
    Ok(())
}

#[test]
fn numbers_that_are_no_shape_are_refused(rt: HostRuntime) {
    let bad_block = Err(BadShape::BadBlock { value: 63 });
    assert_eq!(rt; Geometry::new(0, 0, 63), bad_block);
    let no_data = Err(BadShape::BadArea { area: Area::Data });
    assert_eq!(rt; Geometry::new(0, 0, 64), no_data);
    let no_log = Err(BadShape::BadArea { area: Area::Log });
    assert_eq!(rt; Geometry::new(1, 0, 64), no_log);
    // 1 and 65,385 and 1 and 2 * (129 + 1) + 16 of 4096 bytes
    let many = Err(BadShape::TooManyBlocks { total: 65663 });
    assert_eq!(rt; Geometry::new(65385, 1, 4096), many);
}

#[test]
fn numbers_are_printed_and_read(rt: HostRuntime) -> Result<(), Fail> {
    let mut out = Vec::new(rt.alloc());
    push_number(&mut out, u64::MAX)?;
    assert_eq!(rt; out.as_slice(), b"18446744073709551615".as_slice());
    assert_eq!(rt; read_number(b"18446744073709551615"), Some(u64::MAX));
    assert_eq!(rt; read_number(b"00042"), Some(42));
    for text in [b"".as_slice(), b"18446744073709551616", b"+1"] {
        assert_eq!(rt; read_number(text), None);
    }
    Ok(())
}

#[test]
fn bytes_are_printed_and_copied(rt: HostRuntime) -> Result<(), Fail> {
    let alloc = rt.alloc();
    let mut out = Vec::new(alloc);
    push_bytes(alloc, &mut out, &[0, 171, 255])?;
    push_bytes(alloc, &mut out, &[])?;
    assert_eq!(rt; out.as_slice(), b"00abff-".as_slice());
    let blob = Blob::new(out);
    let copy = blob.copy(alloc)?;
    assert_eq!(rt; copy.bytes(), b"00abff-".as_slice());
    Ok(())
}
