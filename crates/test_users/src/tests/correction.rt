//! Correction of wrong symbols: messages that are found, symbols that are too far from each word, and numbers without
//! an inverse.

ghost use Rattle.std.specs.Prelude.{◌+◌, ◌*◌, ◌<◌, ◌≤◌};

use super::erasure::{forms_of, words_of};
use num_modular::{FixedMersenne64, Montgomery, Reducer};
use ring_codes::erasure::{CorrectError, RestoreError};
use ring_correction::{correct, recover_correct};
use std::process::Abort;

const MERSENNE_PRIME: u64 = 2305843009213693951;

type Found<const K: usize> = Result<([u64; K], usize), CorrectError<u64>>;

// The message and the number of wrong symbols, given the symbols at places of the points, with so much scratch.
fn corrected_in<R: Reducer<u64>, const N: usize, const S: usize, const K: usize>(
    r: &R,
    room: usize,
    points: &[u64; N],
    places: &[usize; S],
    symbols: &[u64; S],
) -> Found<K>
    requires some { 0 < K }
    requires room { 3 * (S + K) + 2 ≤ room }
    requires within { room ≤ 100 }
{
    let points = forms_of(r, points);
    let symbols = forms_of(r, symbols);
    let mut scratch = [0; 100];
    let mut message = [0; K];
    let mut word = [0; N];
    match correct(
        r,
        &points,
        places,
        &symbols,
        &mut scratch[..room],
        &mut message,
        &mut word,
    ) {
        Err(error) => Err(error),
        Ok(errors) => Ok((words_of(r, &message), errors)),
    }
}

fn corrected<R: Reducer<u64>, const N: usize, const S: usize, const K: usize>(
    r: &R,
    points: &[u64; N],
    places: &[usize; S],
    symbols: &[u64; S],
) -> Found<K>
    requires some { 0 < K }
    requires room { 3 * (S + K) + 2 ≤ 100 }
{
    corrected_in(r, 100, points, places, symbols)
}

// Symbols at places of the points 0 to 6, and the message of three symbols with the number of errors.
struct Row<'a, const S: usize> {
    places: &'a [usize; S],
    symbols: &'a [u64; S],
    found: Found<3>,
}

fn holds<R: Reducer<u64>, const S: usize>(r: &R, row: &Row<S>) -> bool
    requires { S ≤ 7 }
{
    corrected::<R, 7, S, 3>(r, &[0, 1, 2, 3, 4, 5, 6], row.places, row.symbols) == row.found
}

const TWO_ERRORS: &Row<7> = &Row {
    places: &[0, 1, 2, 3, 4, 5, 6],
    symbols: &[1, 0, 17, 34, 57, 900, 121],
    found: Ok(([1, 2, 3], 2)),
};

const THREE_ERRORS: &Row<7> = &Row {
    places: &[0, 1, 2, 3, 4, 5, 6],
    symbols: &[1, 0, 17, 34, 57, 900, 1],
    found: Err(CorrectError::TooManyErrors),
};

const ONE_ERROR: &Row<5> = &Row {
    places: &[1, 2, 3, 4, 5],
    symbols: &[6, 16, 34, 57, 86],
    found: Ok(([1, 2, 3], 1)),
};

const NO_ERROR: &Row<3> = &Row {
    places: &[4, 5, 6],
    symbols: &[57, 86, 121],
    found: Ok(([1, 2, 3], 0)),
};

const ONE_OF_FOUR: &Row<4> = &Row {
    places: &[3, 4, 5, 6],
    symbols: &[34, 58, 86, 121],
    found: Err(CorrectError::TooManyErrors),
};

const TOO_FEW: &Row<2> = &Row {
    places: &[3, 4],
    symbols: &[34, 57],
    found: Err(CorrectError::Restore(RestoreError::TooFewSymbols)),
};

fn assert_rows<R: Reducer<u64>>(rt: &impl Abort, r: &R) {
    check!(rt, 1; holds(r, TWO_ERRORS));
    check!(rt, 2; holds(r, THREE_ERRORS));
    check!(rt, 3; holds(r, ONE_ERROR));
    check!(rt, 4; holds(r, NO_ERROR));
    check!(rt, 5; holds(r, ONE_OF_FOUR));
    check!(rt, 6; holds(r, TOO_FEW));
}

// The message or the error of these symbols at the points 0 to 6.
fn found_of_seven<R: Reducer<u64>>(r: &R, symbols: &[u64; 7]) -> Found<3> {
    corrected(r, &[0, 1, 2, 3, 4, 5, 6], &[0, 1, 2, 3, 4, 5, 6], symbols)
}

// The message or the error of these symbols at the points 1 to 3.
fn found_of_three<R: Reducer<u64>>(r: &R, symbols: &[u64; 3]) -> Found<1> {
    corrected(r, &[1, 2, 3], &[0, 1, 2], symbols)
}

// Modulo composite numbers. Without a wrong symbol the message is found, whatever divides the symbols.
fn assert_without_errors<R: Reducer<u64>>(rt: &impl Abort, r: &R, small: &R, square: &R) {
    let found = found_of_seven(r, &[500, 197, 891, 580, 265, 947, 624]);
    check!(rt, 11; found == Ok(([500, 700, 999], 0)));
    check!(rt, 12; found_of_seven(r, &[11, 11, 11, 11, 11, 11, 11]) == Ok(([11, 0, 0], 0)));
    check!(rt, 13; found_of_three(small, &[5, 5, 5]) == Ok(([5], 0)));
    let found = found_of_seven(square, &[101, 308, 525, 752, 989, 1236, 1493]);
    check!(rt, 14; found == Ok(([101, 202, 5], 0)));
}

// With wrong symbols. At these rows no number without an inverse is in the way.
fn assert_composite<R: Reducer<u64>>(rt: &impl Abort, r: &R, small: &R, square: &R) {
    let found = found_of_seven(r, &[502, 197, 891, 585, 265, 947, 624]);
    check!(rt, 15; found == Ok(([500, 700, 999], 2)));
    check!(rt, 16; found_of_three(small, &[7, 8, 7]) == Ok(([7], 1)));
    check!(rt, 17; found_of_three(small, &[5, 5, 9]) == Ok(([5], 1)));
    let found = found_of_seven(square, &[101, 309, 525, 752, 989, 1344, 1493]);
    check!(rt, 18; found == Ok(([101, 202, 5], 2)));
}

// Numbers without an inverse are in the way of the key equation, which goes alone where scratch is short; the row was
// found by search.
fn found_of_five<R: Reducer<u64>>(r: &R, room: usize) -> Found<2>
    requires enough { 23 ≤ room }
    requires within { room ≤ 100 }
{
    let places = &[0, 1, 2, 3, 4];
    corrected_in(r, room, &[0, 1, 2, 3, 4], places, &[2, 10, 4, 26, 34])
}

// The points are 3^(16·i) modulo 257.
fn corrects_four<R: Reducer<u64>>(r: &R) -> bool {
    let points = &[
        1, 249, 64, 2, 241, 128, 4, 225, 256, 8, 193, 255, 16, 129, 253, 32,
    ];
    let places = &[0, 1, 2, 3, 4, 5, 6, 7, 8, 9, 10, 11, 12, 13, 14, 15];
    let symbols = &[
        1, 166, 198, 34, 141, 61, 6, 7, 51, 200, 123, 157, 9, 183, 31, 0,
    ];
    corrected(r, points, places, symbols) == Ok(([72, 101, 108, 108, 111, 33, 0, 255], 4))
}

// Generic in the reducer, as each call with a known one takes long to prove.
fn assert_corrections<R: Reducer<u64> + Copy>(rt: &impl Abort)
    requires of_15 { R.admits 15 }
    requires of_35 { R.admits 35 }
    requires of_257 { R.admits 257 }
    requires of_929 { R.admits 929 }
    requires of_1001 { R.admits 1001 }
    requires of_10201 { R.admits 10201 }
{
    assert_rows(rt, &R::new(&929));
    let (product, small, square) = (&R::new(&1001), &R::new(&15), &R::new(&10201));
    assert_without_errors(rt, product, small, square);
    assert_composite(rt, product, small, square);
    check!(rt, 19; found_of_five(&R::new(&35), 43) == Err(CorrectError::NoInverse(14)));
    check!(rt, 20; found_of_five(&R::new(&35), 44) == Ok(([2, 8], 1)));
    check!(rt, 21; corrects_four(&R::new(&257)));
}

#[test]
fn corrections_by_montgomery_forms(rt: HostRuntime) {
    assert_corrections::<Montgomery<u64>>(&rt);
}

fn corrects_one<R: Reducer<u64>>(r: &R) -> bool {
    let points = &[1, 2, 3, 2305843009213693950, 1152921504606846976];
    let symbols = &[
        1234567891111111109,
        163292774983836910,
        0,
        1071275120077891482,
        40823193005218486,
    ];
    corrected(r, points, &[0, 1, 2, 3, 4], symbols)
        == Ok(([2305843009213693950, 1234567890123456789, 987654321], 1))
}

#[test]
fn corrections_modulo_a_mersenne_prime(rt: HostRuntime) {
    check!(&rt, 1; corrects_one(&FixedMersenne64::<61, 1>::new(&MERSENNE_PRIME)));
}

// The secret of six coefficients from the shares at the points 1 to 16.
fn recovered_of_16<R: Reducer<u64>>(r: &R, shares: &[u64; 16]) -> Result<u64, CorrectError<u64>> {
    let points = forms_of(r, &[1, 2, 3, 4, 5, 6, 7, 8, 9, 10, 11, 12, 13, 14, 15, 16]);
    let places = &[0, 1, 2, 3, 4, 5, 6, 7, 8, 9, 10, 11, 12, 13, 14, 15];
    let shares = forms_of(r, shares);
    let mut scratch = [0; 68];
    let mut coefficients = [0; 6];
    let mut word = [0; 16];
    match recover_correct(
        r,
        &points,
        places,
        &shares,
        &mut scratch,
        &mut coefficients,
        &mut word,
    ) {
        Err(error) => Err(error),
        Ok(secret) => Ok(r.residue(secret)),
    }
}

// Forged are the shares at the places 0, 3, 7, 10 and 15, and in the second row the one at 12, too.
fn assert_forged<R: Reducer<u64>>(rt: &impl Abort, r: &R) {
    let five = &[
        0,
        2263660705714498339,
        1983826127546273476,
        535653252670485421,
        1705317880778951981,
        2028236365750446848,
        350017465022302839,
        12345,
        2254886438323883737,
        1977471093176659282,
        2305843009213693950,
        1271170814873572156,
        1510847948136904331,
        1700392217122106196,
        1343865738562750294,
        1343865738562750294,
    ];
    check!(rt, 1; recovered_of_16(r, five) == Ok(1234567890123456789));
    let six = &[
        0,
        2263660705714498339,
        1983826127546273476,
        535653252670485421,
        1705317880778951981,
        2028236365750446848,
        350017465022302839,
        12345,
        2254886438323883737,
        1977471093176659282,
        2305843009213693950,
        1271170814873572156,
        1510847948136904408,
        1700392217122106196,
        1343865738562750294,
        1343865738562750294,
    ];
    check!(rt, 2; recovered_of_16(r, six) == Err(CorrectError::TooManyErrors));
}

#[test]
fn secrets_with_forged_shares(rt: HostRuntime) {
    assert_forged(&rt, &FixedMersenne64::<61, 1>::new(&MERSENNE_PRIME));
}
