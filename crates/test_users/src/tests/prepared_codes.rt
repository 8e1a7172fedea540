//! Prepared codes, and codes at the powers of a root.

ghost use Rattle.std.specs.Prelude.{◌≡◌, ◌*◌, ◌%◌, ◌≤◌};

use super::erasure::{forms_of, words_of};
use num_modular::plans::{Plan, PlannedModulus};
use num_modular::ring::root_fits;
use num_modular::{Montgomery, Reducer};
use ring_codes::erasure::{
    PreparedCode, encode_by_plan, encode_by_transform, fill_powers, is_codeword_by_transform,
    points_fit,
};
use std::process::Abort;

// The symbols at the wanted points, given those at the known points; `None` where the known points don't fit, or the
// prepared code refuses what it wrote, or accepts it with the first symbol changed.
fn extended<R: Reducer<u64>, const K: usize, const W: usize>(
    r: &R,
    known: &[u64; K],
    wanted: &[u64; W],
    symbols: &[u64; K],
) -> Option<[u64; W]>
    requires table { W * K ≤ 100 }
    requires scratch { 2 * K ≤ 100 }
{
    let known = forms_of(r, known);
    let wanted = forms_of(r, wanted);
    let symbols = forms_of(r, symbols);
    let mut table = [0; 100];
    let mut scratch = [0; 100];
    let rows = &mut table[..W * K];
    let code = PreparedCode::new(r, &known, &wanted, rows, &mut scratch[..2 * K])?;
    let mut others = [0; W];
    code.extend(&symbols, &mut others);
    if !code.is_codeword(&symbols, &others) {
        return None;
    }
    let found = words_of(r, &others);
    if W > 0 {
        others[0] = r.add(&others[0], &r.transform(1));
        if code.is_codeword(&symbols, &others) {
            return None;
        }
    }
    Some(found)
}

fn assert_prepared<R: Reducer<u64>>(rt: &impl Abort, prime: &R, composite: &R) {
    let ends = &[3, 4, 5, 6];
    check!(rt, 1; extended(prime, &[0, 1, 2], ends, &[3, 2, 1]) == Some([0, 928, 927, 926]));
    check!(rt, 2; extended(composite, &[0, 1, 2], ends, &[500, 700, 999]) == Some([396, 893, 488, 182]));
    // the word 1, 6, 17, 34, 57, 86, 121 from places 6, 1 and 4
    check!(rt, 3; extended(prime, &[6, 1, 4], &[0, 2, 4], &[121, 6, 57]) == Some([1, 17, 57]));
    check!(rt, 4; extended(composite, &[0, 3, 7], ends, &[1, 2, 3]) == None);
    check!(rt, 5; extended(prime, &[5, 934], ends, &[1, 2]) == None);
}

// The word of a message at the powers of g; `None` where g doesn't suit its length, or the points don't fit or are
// others.
fn transformed<R: Reducer<u64>, const N: usize, const K: usize>(
    r: &R,
    g: u64,
    points: &[u64; N],
    message: &[u64; K],
) -> Option<[u64; N]>
    requires { K ≤ N }
{
    let root = r.transform(g);
    if !root_fits(r, &root, N) {
        return None;
    }
    let mut powers = [0; N];
    fill_powers(r, &root, &mut powers);
    if !points_fit(r, &powers) {
        return None;
    }
    if words_of(r, &powers) != *points {
        return None;
    }
    let mut word = [0; N];
    encode_by_transform(r, &root, &forms_of(r, message), &mut word);
    Some(words_of(r, &word))
}

// The message of a word at the powers of g; `None` where g doesn't suit its length, or it is of no message of K symbols.
fn untransformed<R: Reducer<u64>, const N: usize, const K: usize>(
    r: &R,
    g: u64,
    word: &[u64; N],
) -> Option<[u64; K]>
    requires few { K ≤ N }
    requires odd { R.modulus r.now % 2 ≡ 1 }
{
    let root = r.transform(g);
    if !root_fits(r, &root, N) {
        return None;
    }
    let mut scratch = [0; N];
    let mut message = [0; K];
    if !is_codeword_by_transform(r, &root, &forms_of(r, word), &mut scratch, &mut message) {
        return None;
    }
    Some(words_of(r, &message))
}

fn assert_transformed<R: Reducer<u64>>(rt: &impl Abort, prime: &R, composite: &R)
    requires { R.modulus composite.now % 2 ≡ 1 }
{
    let points = &[
        1, 249, 64, 2, 241, 128, 4, 225, 256, 8, 193, 255, 16, 129, 253, 32,
    ];
    let word = [
        17, 166, 198, 34, 141, 61, 6, 11, 51, 227, 123, 157, 9, 183, 31, 251,
    ];
    check!(rt, 11; transformed(prime, 249, points, &[72, 101, 108, 108, 111, 33, 0, 255]) == Some(word));
    check!(rt, 12; transformed(composite, 13, &[1, 13, 84, 72], &[1, 2, 3]) == Some([6, 24, 2, 57]));
    check!(rt, 13; transformed(composite, 13, &[1, 13, 84, 72], &[80, 0, 0, 7]) == Some([2, 74, 73, 1]));
    check!(rt, 14; untransformed(composite, 13, &[6, 24, 2, 57]) == Some([1, 2, 3]));
    check!(rt, 15; untransformed::<R, 4, 3>(composite, 13, &[6, 24, 2, 58]) == None);
}

// The word of a message by a plan for four entries modulo 97, at the points 1, 22, 96 and 75.
fn planned_word() -> Option<[u64; 4]> {
    let modulus = PlannedModulus::<u64>::new(97);
    let mut table = [modulus.factor(0); 2];
    let plan = Plan::new(&modulus, 22, &mut table)?;
    let mut word = [0; 4];
    encode_by_plan(&plan, &[1, 2, 300], &mut word);
    Some(word)
}

// Generic in the reducer, as each call with a known one takes long to prove.
fn assert_codes<R: Reducer<u64> + Copy>(rt: &impl Abort)
    requires of_257 { R.admits 257 }
    requires of_929 { R.admits 929 }
    requires of_1001 { R.admits 1001 }
    requires of_85 { R.admits 85 }
{
    let prime = &R::new(&929);
    let composite = &R::new(&1001);
    assert_prepared(rt, prime, composite);
    let prime = &R::new(&257);
    let composite = &R::new(&85);
    assert_transformed(rt, prime, composite);
}

#[test]
fn prepared_codes_by_montgomery_forms(rt: HostRuntime) {
    assert_codes::<Montgomery<u64>>(&rt);
}

#[test]
fn words_by_a_plan(rt: HostRuntime) {
    check!(&rt, 1; planned_word() == Some([12, 36, 8, 45]));
}
