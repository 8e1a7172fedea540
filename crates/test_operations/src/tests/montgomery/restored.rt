//! The two numbers that are precomputed of a modulus, and which of them restore a reducer.

use modular_monty::montgomery::Montgomery;
use modular_prim::plain_word::PlainWord;
use modular_reduced::reducer::Reducer;
use std::process::Abort;

// Whether the two numbers restore a reducer of m.
fn is_restored<T: PlainWord>(m: T, negated_inverse: T, square: T) -> bool {
    match Montgomery::<T>::restored(m, negated_inverse, square) {
        Some(ring) => ring.modulus() == m,
        None => false,
    }
}

// Whether a modulus has these two numbers, and they restore its reducer.
fn are_computed<T: PlainWord>(row: &(T, T, T)) -> bool {
    let m = row.0;
    if m.is_zero_word() {
        return false;
    }
    // rust instead: Montgomery::<T>::of(m).computed_once() == (row.1, row.2) && is_restored(m, row.1, row.2)
    Montgomery::<T>::new(m).computed_once() == (row.1, row.2) && is_restored(m, row.1, row.2)
}

// A modulus and its two numbers: the moduli 1, odd, even and powers of two.
const COMPUTED: &[(u8, u8, u8)] = &[
    (1, 255, 0),
    (2, 255, 0),
    (3, 85, 1),
    (20, 51, 1),
    (97, 95, 61),
    (128, 255, 0),
    (254, 129, 4),
    (255, 1, 1),
];

fn assert_computed<T: PlainWord>(rt: &impl Abort, rows: &[(T, T, T)]) {
    for row in rows {
        check!(rt, 1; are_computed(row));
    }
}

const COMPUTED_OF_64_BITS: &[(u64, u64, u64)] = &[
    (1, 18446744073709551615, 0),
    (20, 3689348814741910323, 1),
    (97, 6656041676080766047, 35),
    (9223372036854775808, 18446744073709551615, 0),
    (18446744073709551557, 14694863923124558067, 3481),
];

#[test]
fn computed(rt: HostRuntime) {
    let rt = &rt;
    assert_computed::<u8>(rt, COMPUTED);
    assert_computed::<u16>(rt, &[(97, 23647, 35)]);
    assert_computed::<u32>(rt, &[(97, 2700958815, 61), (4294967295, 1, 1)]);
    assert_computed::<u64>(rt, COMPUTED_OF_64_BITS);
}

// Whether two numbers have the same odd part; 0 has none.
fn have_one_odd_part(m: u8, n: u8) -> bool {
    m != 0 && n != 0 && m >> m.trailing_zeros() == n >> n.trailing_zeros()
}

#[test]
fn changed_words(rt: HostRuntime) {
    let rt = &rt;
    for &(m, negated_inverse, square) in COMPUTED {
        for word in 0..=255u8 {
            let one_part = have_one_odd_part(word, m);
            check!(rt, 1; is_restored(word, negated_inverse, square) == one_part);
            check!(rt, 2; is_restored(m, word, square) == (word == negated_inverse));
            check!(rt, 3; is_restored(m, negated_inverse, word) == (word == square));
        }
    }
}

#[test]
fn changed_words_of_64_bits(rt: HostRuntime) {
    let rt = &rt;
    let (m, negated_inverse, square) = (18446744073709551557u64, 14694863923124558067, 3481);
    for bit in 0..64u32 {
        let changed = 1 << bit;
        check!(rt, 1; !is_restored(m ^ changed, negated_inverse, square));
        check!(rt, 2; !is_restored(m, negated_inverse ^ changed, square));
        check!(rt, 3; !is_restored(m, negated_inverse, square ^ changed));
    }
    check!(rt, 4; !is_restored::<u64>(0, 18446744073709551615, 0));
}
