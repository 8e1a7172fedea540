//! The same commands over each reducer.

use super::commands::STOPPING;
use super::questions::{Question, answers, first_wrong};
use super::runs::{Row, is_right, run_over};
use super::{assert_at, assert_right};
use num_modular::Reducer;
use num_modular::ring::{RingCommand, RunEnd};
use num_modular::word::RingWord;

// Every command; a run ends where an inverse doesn't exist.
fn commands<T: RingWord>(x: T, y: T, exp: T) -> [RingCommand<T>; 12] {
    [
        RingCommand::Load { dst: 0, n: x },
        RingCommand::Load { dst: 1, n: y },
        RingCommand::Mul { dst: 2, a: 0, b: 1 },
        RingCommand::Sub { dst: 0, a: 1, b: 2 },
        RingCommand::Dbl { dst: 2, a: 2 },
        RingCommand::Add { dst: 2, a: 2, b: 0 },
        RingCommand::Pow { dst: 1, a: 2, exp },
        RingCommand::Sqr { dst: 0, a: 0 },
        RingCommand::Neg { dst: 0, a: 0 },
        RingCommand::Inv { dst: 2, a: 1 },
        RingCommand::Mul { dst: 1, a: 1, b: 2 },
        RingCommand::Inv { dst: 0, a: 0 },
    ]
}

// Commands over three registers of value 0.
// rattle: line
#[derive(Drop)]
struct Run<'a, T> {
    m: T,
    commands: &'a [RingCommand<T>],
}

impl<'a, T: RingWord> Question<T> for Run<'a, T> {
    // The end, and the residues after it.
    type Answer = (Option<RunEnd>, [T; 3]);

    fn modulus(&self) -> T {
        self.m
    }

    fn answer<R: Reducer<T> + Copy>(&self, m: T) -> (Option<RunEnd>, [T; 3]) {
        run_over(&R::new(&m), self.commands)
    }
}

#[test]
fn the_three_reducers_end_alike_with_equal_residues(rt: HostRuntime) {
    let commands = &commands(201, 254, 77);
    for m in 1..=255u8 {
        let is_same = match answers(&Run { m, commands }) {
            Some(found) => found[0].0.is_some() && found[1] == found[0] && found[2] == found[0],
            None => false,
        };
        assert_at(&rt, is_same, &m);
    }
}

// 2^63, 2^64 - 2 and 6 * 2^40.
const LARGE_EVEN: &[u64] = &[9223372036854775808, 18446744073709551614, 6597069766656];

#[test]
fn they_end_alike_for_large_even_moduli(rt: HostRuntime) {
    let commands = &commands(
        81985529216486896,
        18364758544493064721,
        12297829382473034411,
    );
    for &m in LARGE_EVEN {
        let is_same = match answers(&Run { m, commands }) {
            Some(found) => found[0].0.is_some() && found[1] == found[0] && found[2] == found[0],
            None => false,
        };
        assert_at(&rt, is_same, &m);
    }
}

#[rattlefmt::skip]
const MODULO_21: Row<3> = Row { m: 21, commands: &STOPPING, end: RunEnd::NoInverse { at: 3 }, residues: [5, 7, 17],
    scaled: [40, 56, 136], montgomery: [20, 7, 5] };

#[test]
fn a_missing_inverse_modulo_21(rt: HostRuntime) {
    check!(&rt, 1; is_right(&MODULO_21));
}

const COMMANDS_MODULO_1: [RingCommand<u8>; 2] = [
    RingCommand::Load { dst: 0, n: 255 },
    RingCommand::Inv { dst: 0, a: 0 },
];

#[rattlefmt::skip]
const MODULO_1: Row<3> = Row { m: 1, commands: &COMMANDS_MODULO_1, end: RunEnd::Done, residues: [0; 3],
    scaled: [0; 3], montgomery: [0; 3] };

#[test]
fn the_ring_of_one_value(rt: HostRuntime) {
    check!(&rt, 1; is_right(&MODULO_1));
}

// The residue of a + b, as a result and in place.
fn sums<R: Reducer<u8>>(reducer: &R, a: u8, b: u8) -> [u8; 2] {
    let f = reducer.transform(a);
    let g = reducer.transform(b);
    let mut sum = f;
    reducer.add_in_place(&mut sum, &g);
    [reducer.residue(sum), reducer.residue(reducer.add(&f, &g))]
}

// The residue of a - b, as a result and in place.
fn differences<R: Reducer<u8>>(reducer: &R, a: u8, b: u8) -> [u8; 2] {
    let f = reducer.transform(a);
    let g = reducer.transform(b);
    let mut difference = f;
    reducer.sub_in_place(&mut difference, &g);
    [
        reducer.residue(difference),
        reducer.residue(reducer.sub(&f, &g)),
    ]
}

// The residue of a * b, as a result and in place.
fn products<R: Reducer<u8>>(reducer: &R, a: u8, b: u8) -> [u8; 2] {
    let f = reducer.transform(a);
    let g = reducer.transform(b);
    let mut product = f;
    reducer.mul_in_place(&mut product, &g);
    [
        reducer.residue(product),
        reducer.residue(reducer.mul(&f, &g)),
    ]
}

// The residues of 2a, -a, the square and the cube.
fn multiples_and_powers<R: Reducer<u8>>(reducer: &R, a: u8) -> [u8; 4] {
    let f = reducer.transform(a);
    [
        reducer.residue(reducer.dbl(f)),
        reducer.residue(reducer.neg(f)),
        reducer.residue(reducer.sqr(f)),
        reducer.residue(reducer.pow(f, &3)),
    ]
}

// The residues that the calls of a reducer return for a and b.
fn residues_of_calls<R: Reducer<u8>>(reducer: &R, a: u8, b: u8) -> ([[u8; 2]; 3], [u8; 4]) {
    let of_two = [
        sums(reducer, a, b),
        differences(reducer, a, b),
        products(reducer, a, b),
    ];
    (of_two, multiples_and_powers(reducer, a))
}

fn tests_of_calls<R: Reducer<u8>>(reducer: &R, a: u8) -> (bool, bool, bool) {
    let f = reducer.transform(a);
    (
        reducer.check(&f),
        reducer.is_zero(&f),
        reducer.inv(f).is_some(),
    )
}

// A number, and what its tests return modulo 21: whether its form is checked, is 0 and has an inverse.
struct Calls {
    a: u8,
    tests: (bool, bool, bool),
}

impl Question<u8> for Calls {
    type Answer = bool;

    fn modulus(&self) -> u8 {
        21
    }

    // Whether they do, the other calls return these residues for 5 and 7, and the modulus is 21.
    fn answer<R: Reducer<u8> + Copy>(&self, m: u8) -> bool {
        let reducer = &R::new(&m);
        let residues = ([[12, 12], [19, 19], [14, 14]], [10, 16, 4, 20]);
        residues_of_calls(reducer, 5, 7) == residues
            && tests_of_calls(reducer, self.a) == self.tests
            && reducer.modulus() == 21
    }
}

#[rattlefmt::skip]
const CALLS: &[Calls] = &[
    Calls { a: 21, tests: (true, true, false) },
    Calls { a: 5, tests: (true, false, true) },
    Calls { a: 7, tests: (true, false, false) },
];

#[test]
fn each_call_of_a_reducer(rt: HostRuntime) {
    assert_right(&rt, first_wrong(CALLS));
}

// A modulus, two numbers, and the residue of their difference times the first.
struct Difference<T> {
    m: T,
    a: T,
    b: T,
    product: T,
}

impl<T: RingWord> Question<T> for Difference<T> {
    type Answer = bool;

    fn modulus(&self) -> T {
        self.m
    }

    fn answer<R: Reducer<T> + Copy>(&self, m: T) -> bool {
        let reducer = &R::new(&m);
        let f = reducer.transform(self.a);
        let g = reducer.transform(self.b);
        reducer.residue(reducer.mul_difference(&f, &g, &f)) == self.product
    }
}

#[rattlefmt::skip]
const OF_BYTES: &[Difference<u8>] = &[
    Difference { m: 21, a: 5, b: 7, product: 11 },
    Difference { m: 20, a: 5, b: 7, product: 10 },
];

#[rattlefmt::skip]
const OF_64_BITS: &[Difference<u64>] = &[
    Difference { m: u64::MAX, a: 5, b: 7, product: u64::MAX - 10 },
    Difference { m: u64::MAX, a: 7, b: 5, product: 14 },
];

#[test]
fn a_difference_times_a_factor(rt: HostRuntime) {
    assert_right(&rt, first_wrong(OF_BYTES));
    assert_right(&rt, first_wrong(OF_64_BITS));
}
