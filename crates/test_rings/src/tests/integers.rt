//! Integers of a ring, and powers with their count.

use super::assert_right;
use super::questions::{Question, first_wrong};
use num_modular::reduced::pow_counted;
use num_modular::word::RingWord;
use num_modular::{ModularAbs, ModularInteger, ReducedInt, Reducer, imax};

/// What an integer x modulo m returns with a word n: the residues of x, x + n, x - n, x * n, -x, 2 * x, the square, and
/// the power n; and that of its inverse, if there is one.
// rust instead: #[derive(Debug)]
#[derive(Drop)]
pub struct Integer<T> {
    pub m: T,
    pub x: T,
    pub n: T,
    pub residues: [T; 8],
    pub inverse: Option<T>,
}

// The residues of a sum, a difference and a product with a word.
fn with_a_word<T: RingWord, R: Reducer<T> + Copy>(a: ReducedInt<T, R>, n: T) -> [T; 3] {
    [(a + n).residue(), (a - n).residue(), (a * n).residue()]
}

// The residues that an integer returns.
fn residues<T: RingWord, R: Reducer<T> + Copy>(a: ReducedInt<T, R>, n: T) -> [T; 8] {
    let found = with_a_word(a, n);
    [
        a.residue(),
        found[0],
        found[1],
        found[2],
        (-a).residue(),
        a.double().residue(),
        a.square().residue(),
        a.pow(&n).residue(),
    ]
}

impl<T: RingWord> Question<T> for Integer<T> {
    type Answer = bool;

    fn modulus(&self) -> T {
        self.m
    }

    // Whether the integer returns these, its modulus and its form, tells 0, and equals the integer of its residue.
    fn answer<R: Reducer<T> + Copy>(&self, m: T) -> bool {
        let a = ReducedInt::<T, R>::new(self.x, &m);
        let inverse = match a.inv() {
            Some(b) => Some(b.residue()),
            None => None,
        };
        residues(a, self.n) == self.residues
            && inverse == self.inverse
            && a.is_zero() == self.residues[0].is_zero_word()
            && a.modulus() == m
            && *a.repr() == R::new(&m).transform(self.x)
            && a == a.convert(self.residues[0])
    }
}

// An exponent, and how many products its power takes, here of 3 modulo 97.
struct Power {
    exp: u64,
    products: u32,
}

impl Question<u64> for Power {
    type Answer = bool;

    fn modulus(&self) -> u64 {
        97
    }

    fn answer<R: Reducer<u64> + Copy>(&self, m: u64) -> bool {
        let reducer = &R::new(&m);
        pow_counted(reducer, reducer.transform(3), &self.exp).1 == self.products
    }
}

#[rattlefmt::skip]
const POWERS: &[Power] = &[
    Power { exp: 0, products: 0 },
    Power { exp: 1, products: 0 },
    Power { exp: 2, products: 1 },
    Power { exp: 3, products: 4 },
    Power { exp: 4, products: 4 },
    Power { exp: 255, products: 16 },
];

#[test]
fn products_of_a_power(rt: HostRuntime) {
    assert_right(&rt, first_wrong(POWERS));
}

#[test]
fn the_least_number(rt: HostRuntime) {
    check!(&rt, 1; imax::MIN.absm(&7) == 5);
}
