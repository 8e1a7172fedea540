//! Known values of the reducers by folds: the moduli, and the reductions of the greatest words with their counts.
//! `test_rings` has rows of their rings.

use modular_folds::mersenne::{FixedMersenne, FixedMersenne32, FixedMersenne64};
use modular_folds::solinas::{FixedTrinomialSolinas32, FixedTrinomialSolinas64};

#[test]
fn moduli(rt: HostRuntime) {
    let rt = &rt;
    check!(rt, 1; FixedMersenne32::<2, 1>::fixed_modulus() == 3);
    check!(rt, 2; FixedMersenne32::<32, 5>::fixed_modulus() == 4294967291);
    check!(rt, 3; FixedMersenne64::<61, 1>::fixed_modulus() == 2305843009213693951);
    check!(rt, 4; FixedMersenne64::<64, 59>::fixed_modulus() == 18446744073709551557);
    check!(rt, 5; FixedMersenne::<64, 59>::fixed_modulus() == 18446744073709551557);
    check!(rt, 6; FixedTrinomialSolinas32::<2, 1, -1>::fixed_modulus() == 1);
    check!(rt, 7; FixedTrinomialSolinas32::<4, 2, 1>::fixed_modulus() == 13);
    check!(rt, 8; FixedTrinomialSolinas32::<5, 4, -3>::fixed_modulus() == 13);
    check!(rt, 9; FixedTrinomialSolinas32::<32, 31, -1>::fixed_modulus() == 2147483647);
    check!(rt, 10; FixedTrinomialSolinas64::<6, 2, 1>::fixed_modulus() == 61);
    check!(rt, 11; FixedTrinomialSolinas64::<64, 32, 1>::fixed_modulus() == 18446744069414584321);
}

#[test]
fn residues_by_mersenne_numbers(rt: HostRuntime) {
    let rt = &rt;
    check!(rt, 1; FixedMersenne32::<2, 1>::reduce_double(u64::MAX) == 0);
    check!(rt, 2; FixedMersenne32::<32, 5>::reduce_double(u64::MAX) == 24);
    check!(rt, 3; FixedMersenne32::<16, 5>::reduce_single(u32::MAX) == 24);
    check!(rt, 4; FixedMersenne32::<13, 1>::reduce_single(67108863) == 0);
    check!(rt, 5; FixedMersenne64::<64, 59>::reduce_single(u64::MAX) == 58);
    check!(rt, 6; FixedMersenne64::<64, 59>::reduce_double(u128::MAX) == 3480);
    check!(rt, 7; FixedMersenne::<64, 59>::reduce_single(u128::MAX) == 3480);
    check!(rt, 8; FixedMersenne32::<16, 5>::reduce_counted(4294967295) == (24, 3));
    check!(rt, 9; FixedMersenne32::<13, 1>::reduce_counted(67108863) == (0, 2));
    check!(rt, 10; FixedMersenne32::<2, 1>::reduce_counted(18446744073709551615) == (0, 32));
    check!(rt, 11; FixedMersenne64::<64, 59>::reduce_counted(u128::MAX).0 == 3480);
    check!(rt, 12; FixedMersenne::<64, 59>::reduce_counted(u128::MAX).0 == 3480);
    check!(rt, 13; FixedMersenne32::<32, 5>::reduce_single(u32::MAX) == 4);
    check!(rt, 14; FixedMersenne32::<32, 5>::reduce_uncounted(u64::MAX) == 24);
    check!(rt, 15; FixedMersenne64::<64, 59>::reduce_uncounted(u128::MAX) == 3480);
}

#[test]
fn residues_by_solinas_numbers(rt: HostRuntime) {
    let rt = &rt;
    check!(rt, 1; FixedTrinomialSolinas32::<4, 2, 1>::reduce_double(u64::MAX) == 2);
    check!(rt, 2; FixedTrinomialSolinas32::<4, 2, 1>::reduce_double(255) == 8);
    check!(rt, 3; FixedTrinomialSolinas32::<32, 31, -1>::reduce_double(u64::MAX) == 3);
    check!(rt, 4; FixedTrinomialSolinas32::<5, 4, -3>::reduce_single(31) == 5);
    check!(rt, 5; FixedTrinomialSolinas32::<5, 4, -3>::reduce_double(u64::MAX) == 2);
    check!(rt, 6; FixedTrinomialSolinas64::<64, 32, 1>::reduce_single(u64::MAX) == 4294967294);
    check!(rt, 7; FixedTrinomialSolinas64::<64, 32, 1>::reduce_double(u128::MAX) == 18446744065119617024);
    check!(rt, 8; FixedTrinomialSolinas64::<64, 63, -1>::reduce_double(u128::MAX) == 3);
    check!(rt, 9; FixedTrinomialSolinas64::<64, 63, 1>::reduce_double(u128::MAX) == 3);
    check!(rt, 10; FixedTrinomialSolinas32::<4, 2, 1>::reduce_counted(255) == (8, 3));
    check!(rt, 11; FixedTrinomialSolinas32::<5, 4, -3>::reduce_counted(31) == (5, 0));
    check!(rt, 12; FixedTrinomialSolinas32::<32, 31, -1>::reduce_single(u32::MAX) == 1);
    check!(rt, 13; FixedTrinomialSolinas32::<32, 31, -1>::reduce_uncounted(u64::MAX) == 3);
    check!(rt, 14; FixedTrinomialSolinas32::<4, 2, 1>::reduce_uncounted(255) == 8);
}
