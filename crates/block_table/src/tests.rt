use super::*;
use std::test::Fail;

#[test]
fn a_later_call_prevails(rt: HostRuntime) -> Result<(), Fail> {
    let mut table = Table::new(rt.alloc(), 64)?;
    assert_eq!(rt;
        (
            table.block_bytes(),
            table.size(),
            table.mapped(),
            table.block(0)
        ),
        (64, 0, 0, None)
    );

    table.apply(10, 100, 5);
    table.apply(12, 7, 2);
    table.apply(65_535, 65_535, 1);
    for (virt, want) in [
        (9, None),
        (10, Some(100)),
        (12, Some(7)),
        (13, Some(8)),
        (14, Some(104)),
        (15, None),
        (65_535, Some(65_535)),
    ] {
        assert_eq!(rt; table.block(virt), want, "at {virt}");
    }
    assert_eq!(rt; table.mapped(), 6);

    table.grow(700);
    table.grow(300);
    assert_eq!(rt; table.size(), 700);
    table.reset(5);
    assert_eq!(rt;
        (
            table.size(),
            table.mapped(),
            table.block(10),
            table.block(65_535)
        ),
        (5, 0, None, None)
    );
    assert_eq!(rt; table.next_run(0), None);
    Ok(())
}

#[test]
fn runs_follow_in_order(rt: HostRuntime) -> Result<(), Fail> {
    let mut table = Table::new(rt.alloc(), 4096)?;
    table.apply(3, 20, 2);
    table.apply(5, 22, 1);
    table.apply(6, 30, 1);
    table.apply(100, 1000, 256);
    table.apply(356, 1256, 44);
    table.apply(65_534, 50, 2);
    for (from, want) in [
        (0, Some((3, 20, 3))),
        (4, Some((4, 21, 2))),
        (7, Some((100, 1000, 256))),
        (356, Some((356, 1256, 44))),
        (101, Some((101, 1001, 256))),
        (65_535, Some((65_535, 51, 1))),
        (65_536, None),
        (u32::MAX, None),
    ] {
        let run = table.next_run(from);
        assert_eq!(rt;
            run.map(|run| (run.virt, run.block, run.count)),
            want,
            "from {from}"
        );
    }
    Ok(())
}
