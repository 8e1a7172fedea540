//! Lost symbols restored by transforms, by `ErasurePattern`; polynomials with given roots.

ghost use Rattle.std.specs.Prelude.{◌≤◌};

use super::erasure::{forms_of, words_of};
use num_modular::{Montgomery, Reducer, Vanilla};
use ring_codes::erasure::{RestoreError, expand_roots, multiply_by_root};
use ring_erasures::pattern::ErasurePattern;
use std::process::Abort;

// Whether the symbols that are left are of a word of the code, and the word afterwards.
fn restored<R: Reducer<u64>, const N: usize>(
    r: &R,
    root: u64,
    k: usize,
    word: &[u64; N],
    lost: &[usize],
) -> Result<(bool, [u64; N]), RestoreError>
    requires some { 1 ≤ k }
    requires few { N ≤ 16 }
{
    let root = r.transform(root);
    let mut word = forms_of(r, word);
    let mut factors = [0; N];
    let mut scratch = [0; 48];
    match ErasurePattern::new(r, &root, k, lost, &mut factors, &mut scratch) {
        Err(error) => Err(error),
        Ok(pattern) => {
            let found = pattern.restore(&mut word, &mut scratch);
            Ok((found, words_of(r, &word)))
        }
    }
}

// The word of the message 3, 1, 4 at the powers of 9 modulo 17.
const WORD_17: [u64; 8] = [8, 13, 12, 0, 6, 12, 3, 4];

fn assert_rows<R: Reducer<u64>>(rt: &impl Abort, r: &R) {
    let lost = &[7, 0, 2, 5, 4];
    check!(rt, 1; restored(r, 9, 3, &[16, 13, 0, 0, 1, 1, 3, 0], lost) == Ok((true, WORD_17)));
    check!(rt, 2; restored(r, 9, 3, &WORD_17, &[]) == Ok((true, WORD_17)));
    check!(rt, 3; restored(r, 9, 3, &[8, 13, 12, 0, 6, 12, 0, 4], &[6]) == Ok((true, WORD_17)));
    let wrong = [8, 13, 12, 1, 6, 12, 0, 4];
    check!(rt, 4; restored(r, 9, 3, &wrong, &[6]) == Ok((false, wrong)));
    check!(rt, 5; restored(r, 9, 3, &wrong, &[6, 3]) == Ok((true, WORD_17)));
}

fn assert_errors<R: Reducer<u64>>(rt: &impl Abort, r: &R) {
    let few = Err(RestoreError::TooFewSymbols);
    check!(rt, 6; restored(r, 9, 3, &WORD_17, &[7, 0, 2, 5, 4, 4]) == few);
    check!(rt, 7; restored(r, 9, 9, &WORD_17, &[]) == few);
    check!(rt, 8; restored(r, 9, 3, &WORD_17, &[1, 8, 1]) == Err(RestoreError::PlaceOutOfRange));
    check!(rt, 9; restored(r, 9, 3, &WORD_17, &[1, 7, 1, 8]) == Err(RestoreError::PlaceTwice));
    let unfit = Err(RestoreError::PointsDontFit);
    check!(rt, 10; restored(r, 4, 3, &WORD_17, &[1]) == unfit);
    check!(rt, 11; restored(r, 9, 3, &[1, 2, 3, 4, 5, 6], &[1]).is_err());
}

// The words of 5, 7, 11, 13, 2 at the powers of 8 modulo 97, and of 200, 100, 50, 25 at those of 4 modulo 257.
fn assert_primes<R: Reducer<u64>>(rt: &impl Abort, r: &R, other: &R) {
    let word = [
        38, 93, 82, 14, 58, 33, 70, 37, 95, 55, 20, 38, 31, 15, 34, 46,
    ];
    let left = [0, 0, 82, 0, 0, 0, 70, 0, 95, 0, 0, 38, 0, 0, 0, 46];
    let lost = &[0, 1, 3, 4, 5, 7, 9, 10, 12, 13, 14];
    check!(rt, 12; restored(r, 8, 5, &left, lost) == Ok((true, word)));
    check!(rt, 13; restored(r, 8, 4, &left, lost) == Ok((false, left)));
    let word = [118, 173, 65, 246, 125, 28, 235, 96];
    let front = [118, 173, 65, 246, 0, 0, 0, 0];
    check!(rt, 14; restored(other, 4, 4, &front, &[4, 5, 6, 7]) == Ok((true, word)));
}

// Modulo 85, where 13^2 is -1: the word of 1 + 2X, and that of 7.
fn assert_composite<R: Reducer<u64>>(rt: &impl Abort, r: &R) {
    check!(rt, 15; restored(r, 13, 2, &[0, 27, 0, 60], &[2, 0]) == Ok((true, [3, 27, 84, 60])));
    check!(rt, 16; restored(r, 13, 1, &[0, 27, 0, 60], &[2, 0]) == Ok((false, [0, 27, 0, 60])));
    check!(rt, 17; restored(r, 13, 1, &[0, 0, 7, 0], &[1, 0, 3]) == Ok((true, [7, 7, 7, 7])));
    check!(rt, 18; restored(r, 1, 1, &[5], &[]) == Ok((true, [5])));
}

// The word of 60000, 1, 2, .., 7 at the powers of 4 modulo 65537, half of it lost.
fn assert_fermat<R: Reducer<u64>>(rt: &impl Abort, r: &R) {
    let word = [
        60028, 9025, 42524, 58101, 58972, 54253, 44572, 4955, 59996, 31165, 9883, 10890, 61020,
        18579, 11931, 30884,
    ];
    let left = [
        0, 9025, 0, 58101, 0, 0, 44572, 4955, 0, 31165, 0, 10890, 0, 18579, 0, 30884,
    ];
    let lost = &[0, 2, 4, 5, 8, 10, 12, 14];
    check!(rt, 19; restored(r, 4, 8, &left, lost) == Ok((true, word)));
}

fn assert_restored<R: Reducer<u64> + Copy>(rt: &impl Abort)
    requires of_17 { R.admits 17 }
    requires of_85 { R.admits 85 }
    requires of_97 { R.admits 97 }
    requires of_257 { R.admits 257 }
    requires of_65537 { R.admits 65537 }
{
    assert_rows(rt, &R::new(&17));
    assert_errors(rt, &R::new(&17));
    assert_primes(rt, &R::new(&97), &R::new(&257));
    assert_composite(rt, &R::new(&85));
    assert_fermat(rt, &R::new(&65537));
}

// A modulus that is even has no points that fit.
fn assert_even(rt: &impl Abort) {
    let ring = Vanilla::<u64>::new(&2);
    check!(rt, 20; restored(&ring, 1, 1, &[1, 1], &[0]) == Err(RestoreError::PointsDontFit));
}

#[test]
fn symbols_restored_by_montgomery_forms(rt: HostRuntime) {
    assert_restored::<Montgomery<u64>>(&rt);
}

#[test]
fn symbols_restored_by_residues(rt: HostRuntime) {
    assert_restored::<Vanilla<u64>>(&rt);
    assert_even(&rt);
}

// (X - 1)·(X - 2)·(X - 3) = X^3 - 6X^2 + 11X - 6 modulo 97, and its three lowest coefficients times X - 2.
#[test]
fn coefficients_of_given_roots(rt: HostRuntime) {
    let ring = Vanilla::<u64>::new(&97);
    let mut coefficients = [5; 5];
    expand_roots(&ring, &[1, 2, 3], &mut coefficients);
    check!(&rt, 21; coefficients == [91, 11, 91, 1, 0]);
    multiply_by_root(&ring, &2, &mut coefficients, 3);
    check!(&rt, 22; coefficients == [12, 69, 23, 1, 0]);
    expand_roots(&ring, &[], &mut coefficients);
    check!(&rt, 23; coefficients == [1, 0, 0, 0, 0]);
}
