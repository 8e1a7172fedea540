//! Known values, computed by hand, and every divisor and dividend of 8 bits compared with `/` and `%`.

use super::{is_printed, shows};
use crate::tests::assert_at;
use modular_barrett::one_by_one::PreMulInv1by1;

// A divisor, what `Debug` prints of its divider, and 255 divided by it.
const ROWS: &[(u8, &str, (u8, u8))] = &[
    (2, "PreMulInv1by1 { multiplier: 1, shift: 0 }", (127, 1)),
    (255, "PreMulInv1by1 { multiplier: 2, shift: 7 }", (1, 0)),
    (3, "PreMulInv1by1 { multiplier: 86, shift: 1 }", (85, 0)),
];

#[test]
fn rows(rt: HostRuntime) {
    let rt = &rt;
    for row in ROWS {
        let d = row.0;
        assert!(rt; d > 1);
        let divider = PreMulInv1by1::<u8>::new(d);
        assert_at(rt, divider.div_rem(255, d) == row.2, &d);
        assert_at(rt, shows(rt.alloc(), &divider, row.1), &d);
    }
}

#[test]
fn wider_words_and_copies(rt: HostRuntime) {
    let rt = &rt;
    check!(rt, 1; PreMulInv1by1::<u16>::new(641).div_rem(65535, 641) == (102, 153));
    check!(rt, 2; PreMulInv1by1::<u32>::new(641).div_rem(u32::MAX, 641) == (6700416, 639));
    check!(rt, 3; PreMulInv1by1::<u64>::new(u64::MAX).div_rem(u64::MAX, u64::MAX) == (1, 0));
    check!(rt, 4; PreMulInv1by1::<usize>::new(2).div_rem(usize::MAX, 2) == (usize::MAX / 2, 1));
    let divider = PreMulInv1by1::<u8>::new(7);
    let copy = divider;
    check!(rt, 5; copy == divider);
    // rust instead: check!(rt, 6; divider != PreMulInv1by1::of(5));
    check!(rt, 6; divider != PreMulInv1by1::new(5));
    check!(rt, 7; is_printed(rt.alloc(), &divider));
}

#[test]
fn every_byte(rt: HostRuntime) {
    for d in 2..=255u8 {
        let divider = PreMulInv1by1::<u8>::new(d);
        for a in 0..=255u8 {
            assert_at(&rt, divider.div_rem(a, d) == (a / d, a % d), &(a, d));
        }
    }
}
