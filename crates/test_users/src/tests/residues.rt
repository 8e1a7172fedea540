//! Numbers by their residues, with known values from other sources.

use super::assert_at;
use num_modular::residues::{are_reduced, decode, encode, is_system};
use residue_numbers::combine;
use residue_numbers::mixed_radix::System;
use std::cmp::Ordering;

// Whether the moduli are a system in which the number has these residues, and is decoded from them.
fn there_and_back(moduli: &[u64], number: u128, residues: &[u64]) -> bool {
    let mut room = [0u64; 8];
    let count = moduli.len();
    if count > 8 || residues.len() != count || !is_system(moduli) {
        return false;
    }
    let found = &mut room[..count];
    encode(moduli, number, found);
    *found == *residues && are_reduced(moduli, residues) && decode(moduli, residues) == number
}

// Moduli, a number, and its residues.
const NUMBERS: &[(&[u64], u128, &[u64])] = &[
    // Sun Zi's number
    (&[3, 5, 7], 23, &[2, 3, 2]),
    (&[3, 5, 7], 104, &[2, 4, 6]),
    (
        &[18446744073709551615, 18446744073709551614],
        123456789012345678901234567890123456789,
        &[558601170425184219, 7251207113188671137],
    ),
    (
        &[2, 3, 5, 7, 11, 13, 17, 19],
        9698689,
        &[1, 1, 4, 0, 0, 0, 2, 6],
    ),
];

#[test]
fn numbers(rt: HostRuntime) {
    for &(moduli, number, residues) in NUMBERS {
        assert_at(&rt, there_and_back(moduli, number, residues), &number);
    }
}

// Moduli, and whether they are a system.
#[rattlefmt::skip]
const SYSTEMS: &[(&[u64], bool)] = &[
    (&[3, 5, 7], true),
    (&[], true),
    (&[1, 1], true),
    (&[2, 3, 5, 7, 11, 13, 17, 19], true),
    (&[2, 3, 5, 7, 11, 13, 17, 19, 23], true),
    (&[3, 5, 9], false),
    (&[0], false),
    (&[3, 0], false),
    (&[6, 35, 10], false),
    (&[4, 9, 10], false),
    // 2^128 - 1, and (2^64 - 1)·(2^64 + 6)
    (&[18446744073709551615, 274177, 67280421310721], true),
    (&[18446744073709551615, 2, 9223372036854775811], false),
    (&[18446744073709551615, 18446744073709551614, 7], false),
];

#[test]
fn systems(rt: HostRuntime) {
    for &(moduli, is_one) in SYSTEMS {
        assert_at(&rt, is_system(moduli) == is_one, &moduli);
    }
}

#[test]
fn combinations(rt: HostRuntime) {
    let rt = &rt;
    check!(rt, 1; combine(3, 4, 5, 6) == Some((11, 12)));
    check!(rt, 2; combine(1, 4, 2, 6).is_none());
    check!(rt, 3; combine(2, 3, 3, 5) == Some((8, 15)));
    // modulo 1 every number is 0, and equal moduli have one remainder
    check!(rt, 4; combine(9, 1, 7, 1) == Some((0, 1)));
    check!(rt, 5; combine(9, 7, 16, 7) == Some((2, 7)));
    check!(rt, 6; combine(9, 7, 15, 7).is_none());
    // 2^64 - 1 and 2^64 - 2: the product less 1
    check!(rt, 7;
        combine(18446744073709551614, 18446744073709551615, 18446744073709551613, 18446744073709551614)
            == Some((340282366920938463408034375210639556609, 340282366920938463408034375210639556610)));
}

// Whether the residues of these moduli have these digits, and the digits these residues.
fn has_digits<const N: usize>(moduli: &[u64; N], residues: &[u64; N], digits: &[u64; N]) -> bool {
    let mut inverses = [0u64; N];
    let Some(system) = System::new(moduli, &mut inverses) else {
        return false;
    };
    let mut found = [0u64; N];
    let mut back = [0u64; N];
    if !are_reduced(moduli, residues) {
        return false;
    }
    system.digits(residues, &mut found);
    system.residues(digits, &mut back);
    found == *digits && back == *residues
}

#[test]
fn mixed_radix(rt: HostRuntime) {
    let rt = &rt;
    // 23 = 2 + 2 * 3 + 1 * 3 * 5
    check!(rt, 1; has_digits(&[3, 5, 7], &[2, 3, 2], &[2, 2, 1]));
    // the product of nine moduli less 1
    check!(rt, 2;
        has_digits(
            &[2, 3, 5, 7, 11, 13, 17, 19, 23],
            &[1, 2, 4, 6, 10, 12, 16, 18, 22],
            &[1, 2, 4, 6, 10, 12, 16, 18, 22]
        )
    );
    // 2^190 + 12345678901234567890, beyond 2^128: computed with Python's integers
    check!(rt, 3;
        has_digits(
            &[18446744073709551557, 18446744073709551533, 18446744073709551521],
            &[16957364919662007124, 16957364919662098720, 16957364919662170114],
            &[16957364919662007124, 9223372036854779583, 4611686018427387939]
        )
    );
}

// Whether the number of these words has these residues, and their digits denote these words.
fn has_residues<const N: usize>(moduli: &[u64; N], words: &[u64; N], residues: &[u64; N]) -> bool {
    let mut inverses = [0u64; N];
    let Some(system) = System::new(moduli, &mut inverses) else {
        return false;
    };
    let mut found = [0u64; N];
    let mut digits = [0u64; N];
    let mut back = [9u64; N];
    if !are_reduced(moduli, residues) {
        return false;
    }
    system.encode(words, &mut found);
    system.digits(residues, &mut digits);
    system.words(&digits, &mut back);
    found == *residues && back == *words
}

#[test]
fn words(rt: HostRuntime) {
    let rt = &rt;
    check!(rt, 1; has_residues(&[3, 5, 7], &[23, 0, 0], &[2, 3, 2]));
    // 2^190 + 12345678901234567890: computed with Python's integers
    check!(rt, 2;
        has_residues(
            &[18446744073709551557, 18446744073709551533, 18446744073709551521],
            &[12345678901234567890, 0, 4611686018427387904],
            &[16957364919662007124, 16957364919662098720, 16957364919662170114]
        )
    );
    check!(rt, 3; has_residues(&[], &[], &[]));
}

#[test]
fn mixed_radix_systems(rt: HostRuntime) {
    let rt = &rt;
    check!(rt, 1; System::new(&[4, 6], &mut [0; 2]).is_none());
    check!(rt, 2; System::new(&[3, 0], &mut [0; 2]).is_none());
    check!(rt, 3; System::new(&[3, 5], &mut [0; 3]).is_none());
    check!(rt, 4; System::new(&[], &mut []).is_some());
    check!(rt, 5; System::new(&[1, 1], &mut [0; 2]).is_some());
}

// How the numbers compare that these digits denote.
fn order<const N: usize>(moduli: &[u64; N], left: &[u64; N], right: &[u64; N]) -> Option<Ordering> {
    let mut inverses = [0u64; N];
    let Some(system) = System::new(moduli, &mut inverses) else {
        return None;
    };
    if are_reduced(moduli, left) && are_reduced(moduli, right) {
        Some(system.compare(left, right))
    } else {
        None
    }
}

#[test]
fn mixed_radix_order(rt: HostRuntime) {
    let rt = &rt;
    // 23 and 24, 23 and 23, 38 and 37
    check!(rt, 1; order(&[3, 5, 7], &[2, 2, 1], &[0, 3, 1]) == Some(Ordering::Less));
    check!(rt, 2; order(&[3, 5, 7], &[2, 2, 1], &[2, 2, 1]) == Some(Ordering::Equal));
    check!(rt, 3; order(&[3, 5, 7], &[2, 2, 2], &[1, 2, 2]) == Some(Ordering::Greater));
    check!(rt, 4; order(&[3, 5, 7], &[0, 0, 1], &[2, 4, 0]) == Some(Ordering::Greater));
}
