//! Known values, computed by hand, and bytes compared with `%`.

use crate::tests::assert_at;
use crate::tests::dividers::is_printed;
use crate::tests::residues::{agree, remainder};
use modular_barrett::premul::PreMulInv2by1;
use modular_reduced::reducer::Reducer;

#[test]
fn parts(rt: HostRuntime) {
    let rt = &rt;
    let ring = PreMulInv2by1::<u8>::new(21);
    check!(rt, 1; ring.divisor() == 168);
    check!(rt, 2; ring.modulus() == 21);
    check!(rt, 3; ring.shift() == 3);
    check!(rt, 4; ring.divider().divisor() == 168);
    let copy = ring;
    check!(rt, 5; copy == ring);
    // the same divisor for another modulus
    // rust instead: check!(rt, 6; ring != PreMulInv2by1::of(42));
    check!(rt, 6; ring != PreMulInv2by1::new(42));
    check!(rt, 7; is_printed(rt.alloc(), &ring));
}

// Each modulus has as many checked forms as values.
#[test]
fn forms_of_every_modulus(rt: HostRuntime) {
    let rt = &rt;
    for m in 1..=255u8 {
        let ring = PreMulInv2by1::<u8>::new(m);
        let mut forms = 0u16;
        for f in 0..=255u8 {
            if ring.check(&f) {
                forms = forms.wrapping_add(1);
            }
            assert_at(rt, remainder(&ring, f) == f % m, &(f, m));
        }
        assert_at(rt, forms == m as u16, &m);
    }
}

#[test]
fn operations_on_bytes(rt: HostRuntime) {
    let rt = &rt;
    for m in [1u8, 2, 3, 21, 127, 128, 129, 255] {
        assert!(rt; m > 0);
        let ring = PreMulInv2by1::<u8>::new(m);
        for a in 0..=255u8 {
            for b in 0..=255u8 {
                assert_at(rt, agree(&ring, m, a, b), &(a, b, m));
            }
        }
    }
}
