//! Words and bytes with values from outside.

use crate::{Entry, Head, decode, encode, of_bytes, to_bytes};

#[test]
fn words_are_made_and_read(rt: HostRuntime) {
    let two_blocks = Entry::Direct {
        virt: 0,
        block: 1,
        count: 2,
        leftover: 62,
    };
    assert_eq!(rt; encode(&two_blocks), 272_696_063_819_777);
    assert_eq!(rt; decode(272_696_063_819_777), Some(two_blocks));
    assert_eq!(rt; decode(22 + (1 << 18)), None);
    let head = Head {
        generation: 1,
        block: 3,
    };
    assert_eq!(rt; head.encode(), 4_294_967_299);
    assert_eq!(rt; Head::decode(4_294_967_299), Some(head));
    assert_eq!(rt; Head::decode(4_294_967_299 + (1 << 16)), None);
}

#[test]
fn words_are_eight_bytes_each_and_come_back(rt: HostRuntime) {
    let words = [277_076_930_461_697, 272_696_063_819_777];
    let bytes = to_bytes(rt.alloc(), &words).expect(&rt, "memory");
    let lowest_first = [1, 0, 4, 0, 0, 252, 0, 0, 1, 0, 4, 0, 4, 248, 0, 0];
    assert_eq!(rt; bytes.as_slice(), lowest_first.as_slice());
    let back = of_bytes(rt.alloc(), &lowest_first).expect(&rt, "memory");
    assert_eq!(rt; back.as_slice(), words.as_slice());
}
