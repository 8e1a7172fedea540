//! Sums, differences and products of lists of forms, with values computed with Python.

use super::assert_right;
use super::questions::{Question, first_wrong};
use super::transforms::are_forms;
use num_modular::Reducer;
use num_modular::ring::{
    add_lists, dot_product, load_forms, multiply_lists, scale_list, sub_lists,
};

// A modulus, the residues of two lists, and a factor; then the residues of what is made of them.
struct Lists {
    m: u64,
    xs: [u64; 4],
    ys: [u64; 4],
    factor: u64,
    sums: [u64; 4],
    differences: [u64; 4],
    products: [u64; 4],
    multiples: [u64; 4],
    dot: u64,
}

#[rattlefmt::skip]
const LISTS: &[Lists] = &[
    Lists { m: 97, xs: [1, 50, 96, 0],
        ys: [3, 60, 96, 5], factor: 10,
        sums: [4, 13, 95, 5],
        differences: [95, 87, 0, 92],
        products: [3, 90, 1, 0],
        multiples: [10, 15, 87, 0],
        dot: 94 },
    Lists { m: 2305843009213693951, xs: [1152921504606846976, 2305843009213693950, 12345678901234567, 5],
        ys: [1152921504606846976, 2, 987654321098765432, 2305843009213693949], factor: 2305843009213693950,
        sums: [1, 1, 999999999999999999, 3],
        differences: [0, 2305843009213693948, 1330534367016163086, 7],
        products: [576460752303423488, 2305843009213693949, 790795373597269987, 2305843009213693941],
        multiples: [1152921504606846975, 1, 2293497330312459384, 2305843009213693946],
        dot: 1367256125900693463 },
    Lists { m: 18446744073709551557, xs: [18446744073709551556, 9223372036854775808, 3141592653589793238, 1],
        ys: [18446744073709551556, 9223372036854775808, 2718281828459045235, 18446744073709551556],
        factor: 9223372036854775813,
        sums: [18446744073709551555, 59, 5859874482048838473, 0],
        differences: [0, 0, 423310825130748003, 2],
        products: [1, 13835058055282164538, 15439085824781226515, 18446744073709551556],
        multiples: [9223372036854775744, 4611686018427388907, 16151226180300108926, 9223372036854775813],
        dot: 10827399806353839496 },
    Lists { m: 18446744073709551615, xs: [18446744073709551614, 9223372036854775808, 12297829382473034410, 1],
        ys: [18446744073709551614, 2, 12297829382473034411, 18446744073709551613], factor: 12297829382473034411,
        sums: [18446744073709551613, 9223372036854775810, 6148914691236517206, 18446744073709551614],
        differences: [0, 9223372036854775806, 18446744073709551614, 3],
        products: [1, 1, 6148914691236517205, 18446744073709551613],
        multiples: [6148914691236517204, 15372286728091293013, 6148914691236517205, 12297829382473034411],
        dot: 6148914691236517205 },
    Lists { m: 10000000000000000000, xs: [9999999999999999999, 5000000000000000000, 1234567890123456789, 0],
        ys: [9999999999999999999, 5000000000000000000, 9876543210987654321, 7], factor: 2000000000000000000,
        sums: [9999999999999999998, 0, 1111111101111111110, 7],
        differences: [0, 0, 1358024679135802468, 9999999999999999993],
        products: [1, 0, 2374638011112635269, 0],
        multiples: [8000000000000000000, 0, 8000000000000000000, 0],
        dot: 2374638011112635270 },
    Lists { m: 9223372036854775808, xs: [9223372036854775807, 4611686018427387904, 6, 9],
        ys: [9223372036854775807, 2, 4611686018427387904, 9223372036854775799], factor: 3,
        sums: [9223372036854775806, 4611686018427387906, 4611686018427387910, 0],
        differences: [0, 4611686018427387902, 4611686018427387910, 18],
        products: [1, 0, 0, 9223372036854775727],
        multiples: [9223372036854775805, 4611686018427387904, 18, 27],
        dot: 9223372036854775728 },
    Lists { m: 1, xs: [0, 0, 0, 0],
        ys: [0, 0, 0, 0], factor: 0,
        sums: [0, 0, 0, 0],
        differences: [0, 0, 0, 0],
        products: [0, 0, 0, 0],
        multiples: [0, 0, 0, 0],
        dot: 0 },
];

impl Question<u64> for Lists {
    type Answer = bool;

    fn modulus(&self) -> u64 {
        self.m
    }

    fn answer<R: Reducer<u64> + Copy>(&self, m: u64) -> bool {
        let r = &R::new(&m);
        let mut forms = [0; 4];
        load_forms(r, &self.xs, &mut forms);
        let mut ys = [0; 4];
        load_forms(r, &self.ys, &mut ys);
        let (xs, factor) = (forms, r.transform(self.factor));
        let (mut sums, mut differences, mut products, mut multiples) = (xs, xs, xs, xs);
        add_lists(r, &mut sums, &ys);
        sub_lists(r, &mut differences, &ys);
        multiply_lists(r, &mut products, &ys);
        scale_list(r, &mut multiples, &factor);
        are_forms(r, &sums, &self.sums)
            && are_forms(r, &differences, &self.differences)
            && are_forms(r, &products, &self.products)
            && are_forms(r, &multiples, &self.multiples)
            && dot_product(r, &xs, &ys) == r.transform(self.dot)
    }
}

// A modulus, and the residue of the dot product of the first 600 words of two sequences, in several blocks; then that of
// the first with 200 times the second.
struct LongProduct {
    m: u8,
    dot: u8,
    scaled: u8,
}

#[rattlefmt::skip]
const LONG_PRODUCTS: &[LongProduct] = &[
    LongProduct { m: 97, dot: 39, scaled: 40 },
    LongProduct { m: 251, dot: 18, scaled: 86 },
    LongProduct { m: 255, dot: 232, scaled: 245 },
    LongProduct { m: 96, dot: 16, scaled: 32 },
    LongProduct { m: 128, dot: 112, scaled: 0 },
    LongProduct { m: 1, dot: 0, scaled: 0 },
];

// The words that begin with `first`, each 5 times the one before and 7 more, modulo 256.
fn sequence(first: u8) -> [u8; 600] {
    let mut words = [0; 600];
    let mut word = first;
    for i in 0..600 {
        words[i] = word;
        word = word.wrapping_mul(5).wrapping_add(7);
    }
    words
}

impl Question<u8> for LongProduct {
    type Answer = bool;

    fn modulus(&self) -> u8 {
        self.m
    }

    fn answer<R: Reducer<u8> + Copy>(&self, m: u8) -> bool {
        let r = &R::new(&m);
        let (mut xs, mut ys) = ([0; 600], [0; 600]);
        load_forms(r, &sequence(3), &mut xs);
        load_forms(r, &sequence(250), &mut ys);
        let dot = dot_product(r, &xs, &ys);
        scale_list(r, &mut ys, &r.transform(200));
        dot == r.transform(self.dot) && dot_product(r, &xs, &ys) == r.transform(self.scaled)
    }
}

#[test]
fn sums_and_products_of_lists(rt: HostRuntime) {
    let rt = &rt;
    assert_right(rt, first_wrong(LISTS));
    assert_right(rt, first_wrong(LONG_PRODUCTS));
}
