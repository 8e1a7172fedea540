//! Known values, computed by hand, and every divisor and dividend of 8 bits compared with `/` and `%`.

use super::is_printed;
use crate::tests::assert_at;
use modular_barrett::normalized::Normalized2by1Divisor;

#[test]
fn rows(rt: HostRuntime) {
    let rt = &rt;
    check!(rt, 1; Normalized2by1Divisor::<u8>::invert_word(128) == 255);
    check!(rt, 2; Normalized2by1Divisor::<u8>::invert_word(130) == 248);
    check!(rt, 3; Normalized2by1Divisor::<u8>::invert_word(255) == 1);
    check!(rt, 4; Normalized2by1Divisor::<u8>::new(130).div_rem_2by1(33023) == (254, 3));
    check!(rt, 5; Normalized2by1Divisor::<u8>::new(255).div_rem_2by1(65279) == (255, 254));
    let divider = Normalized2by1Divisor::<u8>::new(128);
    check!(rt, 6; divider.divisor() == 128);
    check!(rt, 7; divider.div_rem_2by1(32767) == (255, 127));
    check!(rt, 8; divider.div_rem_1by1(255) == (1, 127));
}

#[test]
fn wider_words_and_copies(rt: HostRuntime) {
    let rt = &rt;
    check!(rt, 1; Normalized2by1Divisor::<u16>::new(65535).div_rem_2by1(4294901759) == (65535, 65534));
    check!(rt, 2; Normalized2by1Divisor::<u32>::new(1 << 31).div_rem_2by1(1 << 62) == (1 << 31, 0));
    check!(rt, 3; Normalized2by1Divisor::<u64>::new(u64::MAX).div_rem_2by1(0) == (0, 0));
    check!(rt, 4; Normalized2by1Divisor::<usize>::new(usize::MAX).div_rem_1by1(usize::MAX) == (1, 0));
    let divider = Normalized2by1Divisor::<u8>::new(130);
    let copy = divider;
    check!(rt, 5; copy == divider);
    // rust instead: check!(rt, 6; divider != Normalized2by1Divisor::of(131));
    check!(rt, 6; divider != Normalized2by1Divisor::new(131));
    check!(rt, 7; is_printed(rt.alloc(), &divider));
}

#[test]
fn every_double_byte(rt: HostRuntime) {
    let rt = &rt;
    for d in 128..=255u8 {
        let divider = Normalized2by1Divisor::<u8>::new(d);
        for a in 0..=255u8 {
            assert_at(rt, divider.div_rem_1by1(a) == (a / d, a % d), &(a, d));
        }
        for high in 0..d {
            for low in 0..=255u8 {
                let a = low as u16 + 256 * high as u16;
                let (q, r) = divider.div_rem_2by1(a);
                let is_right = (q as u16, r as u16) == (a / d as u16, a % d as u16);
                assert_at(rt, is_right, &(a, d));
            }
        }
    }
}
