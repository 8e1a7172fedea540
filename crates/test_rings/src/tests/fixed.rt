//! The reducers of fixed moduli, and the three reducers of any modulus at the same moduli.

ghost use Rattle.modular_folds.specs.Mersenne.{IsMersenne};
ghost use Rattle.modular_folds.specs.Solinas.{IsTrinomial};
ghost use Rattle.modular_monty.specs.Proth.{IsProth, greatest_proth_32};

use super::assert_right;
use super::edges::{Edges, STOPPED};
use super::integers::Integer;
use super::questions::{Question, first_wrong, says_yes};
use super::runs::{ends_with, run_from_zeros};
use modular_folds::rings::{FoldModulus, FoldRing};
use modular_monty::odd_ring::{OddModulus, OddRing};
use num_modular::ring::{RingCommand, RunEnd};
use num_modular::word::RingWord;
use num_modular::{
    FixedMersenneInt, FixedMersenneInt32, FixedMersenneInt64, FixedMontgomeryInt32,
    FixedMontgomeryInt64, FixedProthInt32, FixedProthInt64, FixedSolinasInt32, FixedSolinasInt64,
    OddMontgomeryInt, ReducedInt, Reducer, umax,
};
use std::marker::PhantomData;

// A run from zeros modulo m.
// rattle: line
#[derive(Drop)]
struct Run<'a, T> {
    m: T,
    commands: &'a [RingCommand<T>],
    end: RunEnd,
    residues: [T; 5],
}

impl<'a, T: RingWord> Question<T> for Run<'a, T> {
    type Answer = bool;

    fn modulus(&self) -> T {
        self.m
    }

    // Whether the run ends so and leaves these residues, and modulo 1 the same forms.
    fn answer<R: Reducer<T> + Copy>(&self, m: T) -> bool {
        let ring = &R::new(&m);
        let mut left = [T::zero(); 5];
        run_from_zeros(ring, self.commands, &mut left) == Some(self.end)
            && (m != T::one() || left == self.residues)
            && ends_with(ring, self.commands, self.end, self.residues)
    }
}

// 255, its inverse, its powers 0 and 1, and its negative.
#[rattlefmt::skip]
const OF_255: [RingCommand<u32>; 5] = [
    RingCommand::Load { dst: 0, n: 255 },
    RingCommand::Inv { dst: 1, a: 0 },
    RingCommand::Pow { dst: 2, a: 0, exp: 0 },
    RingCommand::Pow { dst: 3, a: 0, exp: 1 },
    RingCommand::Neg { dst: 4, a: 0 },
];

// 3 + 5, 3 * 5, and the missing inverse of 0.
const SMALL: [RingCommand<u32>; 5] = [
    RingCommand::Load { dst: 0, n: 3 },
    RingCommand::Load { dst: 1, n: 5 },
    RingCommand::Add { dst: 2, a: 0, b: 1 },
    RingCommand::Mul { dst: 3, a: 0, b: 1 },
    RingCommand::Inv { dst: 0, a: 4 },
];

// 10, 20 and their product.
const PRODUCT: [RingCommand<u64>; 3] = [
    RingCommand::Load { dst: 0, n: 10 },
    RingCommand::Load { dst: 1, n: 20 },
    RingCommand::Mul { dst: 2, a: 0, b: 1 },
];

#[rattlefmt::skip]
const INTEGERS_OF_BYTES: &[Integer<u8>] = &[
    Integer { m: 21, x: 255, n: 3, residues: [3, 6, 0, 9, 18, 6, 9, 6], inverse: None },
    Integer { m: 11, x: 5, n: 6, residues: [5, 0, 10, 8, 6, 10, 3, 5], inverse: Some(9) },
    Integer { m: 5, x: 12, n: 13, residues: [2, 0, 4, 1, 3, 4, 4, 2], inverse: Some(3) },
    Integer { m: 5, x: 12, n: 3, residues: [2, 0, 4, 1, 3, 4, 4, 3], inverse: Some(3) },
    Integer { m: 20, x: 7, n: 9, residues: [7, 16, 18, 3, 13, 14, 9, 7], inverse: Some(3) },
];

#[rattlefmt::skip]
const EDGES_OF_32_BITS: &[Edges<u32>] = &[
    Edges { m: 1, last: 0, greatest: u32::MAX, words: [0; 6], end: RunEnd::Done, residues: [0; 5] },
    Edges { m: 3, last: 2, greatest: u32::MAX, words: [0, 1, 2, 0, 0, 1],
        end: STOPPED, residues: [0, 2, 1, 1, 0] },
    Edges { m: 13, last: 12, greatest: u32::MAX, words: [0, 1, 12, 0, 8, 1],
        end: STOPPED, residues: [0, 12, 1, 9, 5] },
    Edges { m: 4294967291, last: 4294967290, greatest: u32::MAX, words: [0, 1, 4294967290, 0, 4, 1],
        end: STOPPED, residues: [0, 4294967290, 1, 5, 1024] },
    Edges { m: 2147483647, last: 2147483646, greatest: u32::MAX, words: [0, 1, 2147483646, 0, 1, 1],
        end: STOPPED, residues: [0, 2147483646, 1, 2, 1] },
    Edges { m: 2139095041, last: 2139095040, greatest: u32::MAX, words: [0, 1, 2139095040, 0, 16777213, 1],
        end: STOPPED, residues: [0, 2139095040, 1, 16777214, 1220518082] },
    Edges { m: 2147483649, last: 2147483648, greatest: u32::MAX, words: [0, 1, 2147483648, 0, 2147483646, 1],
        end: STOPPED, residues: [0, 2147483648, 1, 2147483647, 2147483622] },
    Edges { m: 2415919105, last: 2415919104, greatest: u32::MAX, words: [0, 1, 2415919104, 0, 1879048190, 1],
        end: STOPPED, residues: [0, 2415919104, 1, 1879048191, 1165849440] },
    Edges { m: 2281701377, last: 2281701376, greatest: u32::MAX, words: [0, 1, 2281701376, 0, 2013265918, 1],
        end: STOPPED, residues: [0, 2281701376, 1, 2013265919, 1316215725] },
    Edges { m: 4293918721, last: 4293918720, greatest: u32::MAX, words: [0, 1, 4293918720, 0, 1048574, 1],
        end: STOPPED, residues: [0, 4293918720, 1, 1048575, 3928746259] },
];

#[rattlefmt::skip]
const RUNS_OF_32_BITS: &[Run<u32>] = &[
    Run { m: 1, commands: &OF_255, end: RunEnd::Done, residues: [0; 5] },
    Run { m: 17, commands: &SMALL, end: RunEnd::NoInverse { at: 4 }, residues: [3, 5, 8, 15, 0] },
];

#[rattlefmt::skip]
const INTEGERS_OF_32_BITS: &[Integer<u32>] = &[
    Integer { m: 13, x: 3, n: 5, residues: [3, 8, 11, 2, 10, 6, 9, 9], inverse: Some(9) },
    Integer { m: 17, x: 3, n: 5, residues: [3, 8, 15, 15, 14, 6, 9, 5], inverse: Some(6) },
    Integer { m: 8191, x: 100, n: 200,
        residues: [100, 300, 8091, 3618, 8091, 200, 1809, 2621], inverse: Some(7290) },
    Integer { m: 1, x: 4294967295, n: 5, residues: [0, 0, 0, 0, 0, 0, 0, 0], inverse: Some(0) },
    Integer { m: 9, x: 5, n: 7, residues: [5, 3, 7, 8, 4, 1, 7, 5], inverse: Some(2) },
    Integer { m: 13, x: 7, n: 26, residues: [7, 7, 7, 0, 6, 1, 10, 10], inverse: Some(2) },
    Integer { m: 13, x: 0, n: 7, residues: [0, 7, 6, 0, 0, 0, 0, 0], inverse: None },
    Integer { m: 13, x: 26, n: 7, residues: [0, 7, 6, 0, 0, 0, 0, 0], inverse: None },
    Integer { m: 15, x: 7, n: 5, residues: [7, 12, 2, 5, 8, 14, 4, 7], inverse: Some(13) },
    Integer { m: 15, x: 5, n: 7, residues: [5, 12, 13, 5, 10, 10, 10, 5], inverse: None },
    Integer { m: 15, x: 30, n: 7, residues: [0, 7, 8, 0, 0, 0, 0, 0], inverse: None },
    Integer { m: 4294967295, x: 4294967294, n: 4294967293,
        residues: [4294967294, 4294967292, 1, 2, 1, 4294967293, 1, 4294967294],
        inverse: Some(4294967294) },
];

#[rattlefmt::skip]
const EDGES_OF_64_BITS: &[Edges<u64>] = &[
    Edges { m: 9223372036854775809, last: 9223372036854775808, greatest: u64::MAX,
        words: [0, 1, 9223372036854775808, 0, 9223372036854775806, 1],
        end: STOPPED, residues: [0, 9223372036854775808, 1, 9223372036854775807, 1631756369875208049] },
    Edges { m: 18446744069414584321, last: 18446744069414584320, greatest: u64::MAX,
        words: [0, 1, 18446744069414584320, 0, 4294967294, 1],
        end: STOPPED, residues: [0, 18446744069414584320, 1, 4294967295, 16916351865793422117] },
    Edges { m: 18446744073709551557, last: 18446744073709551556, greatest: u64::MAX,
        words: [0, 1, 18446744073709551556, 0, 58, 1],
        end: STOPPED, residues: [0, 18446744073709551556, 1, 59, 4959809447704153900] },
    Edges { m: 18446742974197923841, last: 18446742974197923840, greatest: u64::MAX,
        words: [0, 1, 18446742974197923840, 0, 1099511627774, 1],
        end: STOPPED, residues: [0, 18446742974197923840, 1, 1099511627775, 15609959589899219629] },
];

#[rattlefmt::skip]
const RUNS_OF_64_BITS: &[Run<u64>] = &[
    Run { m: 97, commands: &PRODUCT, end: RunEnd::Done, residues: [10, 20, 6, 0, 0] },
    // the empty list
    Run { m: 97, commands: &[], end: RunEnd::Done, residues: [0; 5] },
];

#[rattlefmt::skip]
const INTEGERS_OF_64_BITS: &[Integer<u64>] = &[
    Integer { m: 61, x: 10, n: 20, residues: [10, 30, 51, 17, 51, 20, 39, 13], inverse: Some(55) },
    Integer { m: 97, x: 10, n: 20, residues: [10, 30, 87, 6, 87, 20, 3, 73], inverse: Some(68) },
    Integer { m: 2305843009213693951, x: 1000, n: 2000,
        residues: [1000, 3000, 2305843009213692951, 2000000, 2305843009213692951, 2000, 1000000, 876922260974252121],
        inverse: Some(1035323511136948584) },
    Integer { m: 18446744069414584321, x: 18446744069414584320, n: 18446744069414584319,
        residues: [18446744069414584320, 18446744069414584318, 1, 2, 1, 18446744069414584319, 1, 18446744069414584320],
        inverse: Some(18446744069414584320) },
    Integer { m: 97, x: 97, n: 3, residues: [0, 3, 94, 0, 0, 0, 0, 0], inverse: None },
    Integer { m: 18446744069414584321, x: 2, n: 3,
        residues: [2, 5, 18446744069414584320, 6, 18446744069414584319, 4, 4, 8],
        inverse: Some(9223372034707292161) },
    Integer { m: 18446744069414584321, x: 18446744069414584321, n: 2,
        residues: [0, 2, 18446744069414584319, 0, 0, 0, 0, 0],
        inverse: None },
    Integer { m: 18446744073709551557, x: 2, n: 3,
        residues: [2, 5, 18446744073709551556, 6, 18446744073709551555, 4, 4, 8],
        inverse: Some(9223372036854775779) },
    Integer { m: 18446744073709551615, x: 18446744073709551614, n: 18446744073709551614,
        residues: [18446744073709551614, 18446744073709551613, 0, 1, 1, 18446744073709551613, 1, 1],
        inverse: Some(18446744073709551614) },
];

// The greatest words of 128 and of 64 bits.
#[rattlefmt::skip]
const EDGES_OF_128_BITS: &[Edges<umax>] = &[
    Edges { m: 18446744073709551557, last: 18446744073709551556, greatest: u128::MAX,
        words: [0, 1, 18446744073709551556, 0, 3480, 1],
        end: STOPPED, residues: [0, 18446744073709551556, 1, 3481, 7017496497902952425] },
    Edges { m: 18446744073709551557, last: 18446744073709551556, greatest: u64::MAX as u128,
        words: [0, 1, 18446744073709551556, 0, 58, 1],
        end: STOPPED, residues: [0, 18446744073709551556, 1, 59, 4959809447704153900] },
];

#[rattlefmt::skip]
const INTEGERS_OF_128_BITS: &[Integer<umax>] = &[
    Integer { m: 2147483647, x: 1000, n: 2000,
        residues: [1000, 3000, 2147482647, 2000000, 2147482647, 2000, 1000000, 611334175], inverse: Some(36507222) },
    Integer { m: 18446744073709551557, x: 18446744073709551556, n: 1,
        residues: [18446744073709551556, 0, 18446744073709551555, 18446744073709551556, 1,
            18446744073709551555, 1, 18446744073709551556],
        inverse: Some(18446744073709551556) },
    Integer { m: 15, x: 7, n: 5, residues: [7, 12, 2, 5, 8, 14, 4, 7], inverse: Some(13) },
    Integer { m: 15, x: 5, n: 7, residues: [5, 12, 13, 5, 10, 10, 10, 5], inverse: None },
    Integer { m: 15, x: 30, n: 7, residues: [0, 7, 8, 0, 0, 0, 0, 0], inverse: None },
];

#[test]
fn reducers_of_any_modulus(rt: HostRuntime) {
    let rt = &rt;
    assert_right(rt, first_wrong(INTEGERS_OF_BYTES));
    assert_right(rt, first_wrong(EDGES_OF_32_BITS));
    assert_right(rt, first_wrong(RUNS_OF_32_BITS));
    assert_right(rt, first_wrong(INTEGERS_OF_32_BITS));
    assert_right(rt, first_wrong(EDGES_OF_64_BITS));
    assert_right(rt, first_wrong(RUNS_OF_64_BITS));
    assert_right(rt, first_wrong(INTEGERS_OF_64_BITS));
}

// A word n; whether it is a form itself, and the form and the residue of n, by each reducer of the fixed modulus m.
struct Word<T> {
    m: T,
    n: T,
    is_form: bool,
    form: T,
    residue: T,
}

impl<T: RingWord> Question<T> for Word<T> {
    type Answer = bool;

    fn modulus(&self) -> T {
        self.m
    }

    fn answer<R: Reducer<T> + Copy>(&self, m: T) -> bool {
        let ring = &R::new(&m);
        let form = ring.transform(self.n);
        ring.check(&self.n) == self.is_form
            && form == self.form
            && ring.residue(form) == self.residue
    }
}

#[rattlefmt::skip]
const WORDS_OF_32_BITS: &[Word<u32>] = &[
    Word { m: 1, n: 4294967295, is_form: false, form: 0, residue: 0 },
    Word { m: 13, n: 12, is_form: true, form: 12, residue: 12 },
    Word { m: 13, n: 13, is_form: false, form: 0, residue: 0 },
    Word { m: 13, n: 31, is_form: false, form: 5, residue: 5 },
    Word { m: 15, n: 14, is_form: true, form: 14, residue: 14 },
    Word { m: 15, n: 15, is_form: false, form: 0, residue: 0 },
    Word { m: 2147483649, n: 4294967295, is_form: false, form: 6, residue: 2147483646 },
    Word { m: 2415919105, n: 4294967292, is_form: false, form: 2028179012, residue: 1879048187 },
];

#[rattlefmt::skip]
const WORDS_OF_64_BITS: &[Word<u64>] = &[
    Word { m: 97, n: 96, is_form: true, form: 36, residue: 96 },
    Word { m: 97, n: 97, is_form: false, form: 0, residue: 0 },
    Word { m: 9223372036854775809, n: 18446744073709551615, is_form: false, form: 6, residue: 9223372036854775806 },
    Word { m: 18446744069414584321, n: 18446744069414584320, is_form: true,
        form: 18446744069414584320, residue: 18446744069414584320 },
    Word { m: 18446744069414584321, n: 18446744069414584321, is_form: false, form: 0, residue: 0 },
];

#[rattlefmt::skip]
const WORDS_OF_128_BITS: &[Word<umax>] = &[
    Word { m: 15, n: 14, is_form: true, form: 14, residue: 14 },
    Word { m: 15, n: 15, is_form: false, form: 0, residue: 0 },
    Word { m: 15, n: u128::MAX, is_form: false, form: 0, residue: 0 },
];

// Whether all that the rows say of m is right for the reducer of these integers, and there is such a row. The type of
// the integers names the reducer, as a call of their functions with a known reducer takes long to prove.

fn is_right_32<R: Reducer<u32> + Copy>(m: u32, _: PhantomData<ReducedInt<u32, R>>) -> bool
    requires { R.admits m }
{
    let mut is_asked = false;
    says_yes::<u32, R, Edges<u32>>(m, EDGES_OF_32_BITS, &mut is_asked)
        && says_yes::<u32, R, Run<u32>>(m, RUNS_OF_32_BITS, &mut is_asked)
        && says_yes::<u32, R, Integer<u32>>(m, INTEGERS_OF_32_BITS, &mut is_asked)
        && says_yes::<u32, R, Word<u32>>(m, WORDS_OF_32_BITS, &mut is_asked)
        && is_asked
}

fn is_right_64<R: Reducer<u64> + Copy>(m: u64, _: PhantomData<ReducedInt<u64, R>>) -> bool
    requires { R.admits m }
{
    let mut is_asked = false;
    says_yes::<u64, R, Edges<u64>>(m, EDGES_OF_64_BITS, &mut is_asked)
        && says_yes::<u64, R, Run<u64>>(m, RUNS_OF_64_BITS, &mut is_asked)
        && says_yes::<u64, R, Integer<u64>>(m, INTEGERS_OF_64_BITS, &mut is_asked)
        && says_yes::<u64, R, Word<u64>>(m, WORDS_OF_64_BITS, &mut is_asked)
        && is_asked
}

fn is_right_128<R: Reducer<umax> + Copy>(m: umax, _: PhantomData<ReducedInt<umax, R>>) -> bool
    requires { R.admits m }
{
    let mut is_asked = false;
    says_yes::<umax, R, Edges<umax>>(m, EDGES_OF_128_BITS, &mut is_asked)
        && says_yes::<umax, R, Integer<umax>>(m, INTEGERS_OF_128_BITS, &mut is_asked)
        && says_yes::<umax, R, Word<umax>>(m, WORDS_OF_128_BITS, &mut is_asked)
        && is_asked
}

// The same for reducers by Montgomery forms and by folds, generic in the modulus that their type knows: a call then needs
// the laws of that modulus alone.

fn by_odd_32<M: OddModulus<u32>>(m: u32, of: PhantomData<ReducedInt<u32, OddRing<u32, M>>>) -> bool
    requires { M.admits m }
{
    is_right_32(m, of)
}

fn by_folds_32<M: FoldModulus<u32>>(
    m: u32,
    of: PhantomData<ReducedInt<u32, FoldRing<u32, M>>>,
) -> bool
    requires { M.admits m }
{
    is_right_32(m, of)
}

fn by_odd_64<M: OddModulus<u64>>(m: u64, of: PhantomData<ReducedInt<u64, OddRing<u64, M>>>) -> bool
    requires { M.admits m }
{
    is_right_64(m, of)
}

fn by_folds_64<M: FoldModulus<u64>>(
    m: u64,
    of: PhantomData<ReducedInt<u64, FoldRing<u64, M>>>,
) -> bool
    requires { M.admits m }
{
    is_right_64(m, of)
}

// The moduli of more than two calls, generic in their parameters.

fn by_solinas<const P1: u8, const P2: u8, const K: i32>(m: u32) -> bool
    requires { IsTrinomial 32 P1 P2 K m }
{
    by_folds_32(m, PhantomData::<FixedSolinasInt32<P1, P2, K>>)
}

fn by_mersenne<const P: u8, const K: u32>(m: u32) -> bool
    requires { IsMersenne 32 P K m }
{
    by_folds_32(m, PhantomData::<FixedMersenneInt32<P, K>>)
}

fn by_proth<const N: u8, const K: u8>(m: u32) -> bool
    requires { IsProth 32 greatest_proth_32 N K m }
{
    by_odd_32(m, PhantomData::<FixedProthInt32<N, K>>)
}

fn by_mersenne_over_128<const P: u8, const K: u64>(m: umax) -> bool
    requires { IsMersenne 64 P K m }
{
    is_right_128(m, PhantomData::<FixedMersenneInt<P, K>>)
}

#[test]
fn fixed_moduli_of_32_bits(rt: HostRuntime) {
    let rt = &rt;
    check!(rt, 1; by_odd_32(1, PhantomData::<FixedMontgomeryInt32<1>>));
    check!(rt, 2; by_odd_32(17, PhantomData::<FixedMontgomeryInt32<17>>));
    check!(rt, 3; by_odd_32(4294967295, PhantomData::<FixedMontgomeryInt32<4294967295>>));
    // by folds
    check!(rt, 4; by_solinas::<2, 1, -1>(1));
    check!(rt, 5; by_solinas::<5, 4, -3>(13));
    check!(rt, 6; by_solinas::<4, 2, 1>(13));
    check!(rt, 7; by_solinas::<32, 31, -1>(2147483647));
    check!(rt, 8; by_solinas::<32, 20, 1>(4293918721));
    check!(rt, 9; by_mersenne::<2, 1>(3));
    check!(rt, 10; by_mersenne::<4, 7>(9));
    check!(rt, 11; by_mersenne::<4, 1>(15));
    check!(rt, 12; by_mersenne::<13, 1>(8191));
    check!(rt, 13; by_mersenne::<32, 5>(4294967291));
    // Proth numbers
    check!(rt, 14; by_proth::<1, 1>(3));
    check!(rt, 15; by_proth::<4, 1>(17));
    check!(rt, 16; by_proth::<23, 255>(2139095041));
    check!(rt, 17; by_proth::<31, 1>(2147483649));
    check!(rt, 18; by_proth::<27, 17>(2281701377));
    check!(rt, 19; by_proth::<28, 9>(2415919105));
}

#[test]
fn fixed_moduli_of_64_bits(rt: HostRuntime) {
    let rt = &rt;
    check!(rt, 1; by_odd_64(97, PhantomData::<FixedMontgomeryInt64<97>>));
    check!(rt, 2; by_odd_64(97, PhantomData::<FixedProthInt64<5, 3>>));
    check!(rt, 3; by_odd_64(9223372036854775809, PhantomData::<FixedProthInt64<63, 1>>));
    check!(rt, 4; by_odd_64(u64::MAX, PhantomData::<FixedMontgomeryInt64<18446744073709551615>>));
    check!(rt, 5; by_folds_64(61, PhantomData::<FixedSolinasInt64<6, 2, 1>>));
    check!(rt, 6; by_folds_64(18446744069414584321, PhantomData::<FixedSolinasInt64<64, 32, 1>>));
    check!(rt, 7; by_folds_64(18446742974197923841, PhantomData::<FixedSolinasInt64<64, 40, 1>>));
    check!(rt, 8; by_folds_64(2305843009213693951, PhantomData::<FixedMersenneInt64<61, 1>>));
    check!(rt, 9; by_folds_64(18446744073709551557, PhantomData::<FixedMersenneInt64<64, 59>>));
    check!(rt, 10; by_odd_64(97, PhantomData::<OddMontgomeryInt<u64>>));
}

#[test]
fn fixed_moduli_over_words_of_128_bits(rt: HostRuntime) {
    let rt = &rt;
    check!(rt, 1; by_mersenne_over_128::<4, 1>(15));
    check!(rt, 2; by_mersenne_over_128::<31, 1>(2147483647));
    check!(rt, 3; by_mersenne_over_128::<64, 59>(18446744073709551557));
}
