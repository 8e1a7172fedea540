//! Transforms and cyclic products over several reducers, known ones and beside their plain sums.

use super::questions::{Question, answers, first_wrong};
use super::{assert_at, assert_right};
use modular_transform::plain::{product_entry, suits, transform_entry};
use num_modular::ring::{all_checked, convolve, intt, ntt, ntt_counted, root_fits};
use num_modular::word::RingWord;
use num_modular::{FixedTrinomialSolinas64, Reducer};

// Puts the forms of residues in their place.
fn take_forms<T: RingWord, R: Reducer<T>>(r: &R, xs: &mut [T]) {
    for i in 0..xs.len() {
        xs[i] = r.transform(xs[i]);
    }
}

/// Whether the entries are the forms of residues.
pub fn are_forms<T: RingWord, R: Reducer<T>>(r: &R, xs: &[T], residues: &[T]) -> bool {
    for i in 0..xs.len() {
        if i >= residues.len() || xs[i] != r.transform(residues[i]) {
            return false;
        }
    }
    xs.len() == residues.len()
}

// The forms of residues transformed in their place, with the number of products; `None` where g
// doesn't suit.
fn transformed<T: RingWord, R: Reducer<T>>(r: &R, xs: &mut [T], g: T) -> Option<u128> {
    take_forms(r, xs);
    let root = r.transform(g);
    if all_checked(r, xs) && root_fits(r, &root, xs.len()) {
        Some(ntt_counted(r, xs, &root))
    } else {
        None
    }
}

// The same without the number.
fn transformed_uncounted<T: RingWord, R: Reducer<T>>(r: &R, xs: &mut [T], g: T) -> bool {
    take_forms(r, xs);
    let root = r.transform(g);
    if all_checked(r, xs) && root_fits(r, &root, xs.len()) {
        ntt(r, xs, &root);
        true
    } else {
        false
    }
}

// The forms of residues transformed back in their place; `None` where g doesn't suit.
fn transformed_back<T: RingWord, R: Reducer<T>>(r: &R, xs: &mut [T], g: T) -> Option<bool> {
    take_forms(r, xs);
    let root = r.transform(g);
    if all_checked(r, xs) && root_fits(r, &root, xs.len()) {
        Some(intt(r, xs, &root))
    } else {
        None
    }
}

// The cyclic product of the forms of residues in their place; `None` where g doesn't suit.
fn multiplied<T: RingWord, R: Reducer<T>>(r: &R, xs: &mut [T], ys: &mut [T], g: T) -> Option<bool> {
    take_forms(r, xs);
    take_forms(r, ys);
    let root = r.transform(g);
    if xs.len() == ys.len()
        && all_checked(r, xs)
        && all_checked(r, ys)
        && root_fits(r, &root, xs.len())
    {
        Some(convolve(r, xs, ys, &root))
    } else {
        None
    }
}

// A modulus, the number whose powers are asked for, the length, and whether it suits.
struct Root {
    m: u8,
    g: u8,
    n: usize,
    suits: bool,
}

impl Question<u8> for Root {
    type Answer = bool;

    fn modulus(&self) -> u8 {
        self.m
    }

    fn answer<R: Reducer<u8> + Copy>(&self, m: u8) -> bool {
        let r = &R::new(&m);
        root_fits(r, &r.transform(self.g), self.n) == self.suits
            && m > 0
            && suits(m as u64, self.g as u64, self.n) == self.suits
    }
}

#[rattlefmt::skip]
const ROOTS: &[Root] = &[
    Root { m: 21, g: 8, n: 2, suits: false },
    Root { m: 21, g: 20, n: 2, suits: true },
    Root { m: 21, g: 5, n: 1, suits: true },
    Root { m: 21, g: 20, n: 0, suits: false },
    Root { m: 21, g: 20, n: 3, suits: false },
];

// A modulus, a root, the residues of a list, how many products its transform takes, and the residues of that.
struct Transform<'a> {
    m: u8,
    root: u8,
    list: &'a [u8],
    products: u128,
    want: &'a [u8],
}

#[rattlefmt::skip]
const TRANSFORMS: &[Transform] = &[
    Transform { m: 17, root: 4, list: &[1, 2, 3, 4], products: 9, want: &[10, 7, 15, 6] },
    Transform { m: 17, root: 3, list: &[5], products: 0, want: &[5] },
    Transform { m: 20, root: 19, list: &[7, 9], products: 3, want: &[16, 18] },
];

// The entries of a list, as far as there is room for them.
fn copied(list: &[u8]) -> [u8; 4] {
    let mut room = [0; 4];
    for i in 0..list.len().min(4) {
        room[i] = list[i];
    }
    room
}

impl<'a> Question<u8> for Transform<'a> {
    type Answer = bool;

    fn modulus(&self) -> u8 {
        self.m
    }

    // Whether the transform takes so many products and is the row's, also where they aren't counted.
    fn answer<R: Reducer<u8> + Copy>(&self, m: u8) -> bool {
        let r = &R::new(&m);
        let (mut counted, mut uncounted) = (copied(self.list), copied(self.list));
        let xs = &mut counted[..self.list.len().min(4)];
        let ys = &mut uncounted[..self.list.len().min(4)];
        transformed(r, xs, self.root) == Some(self.products)
            && are_forms(r, xs, self.want)
            && transformed_uncounted(r, ys, self.root)
            && are_forms(r, ys, self.want)
    }
}

// A modulus, a root, the residues of a list, whether their number has an inverse, and the residues of the list whose
// transform it is.
struct Inverse<'a> {
    m: u8,
    root: u8,
    list: &'a [u8],
    inverted: bool,
    want: &'a [u8],
}

#[rattlefmt::skip]
const INVERSES: &[Inverse] = &[
    Inverse { m: 17, root: 4, list: &[3, 1, 4, 15], inverted: true, want: &[10, 1, 2, 7] },
    Inverse { m: 17, root: 3, list: &[5], inverted: true, want: &[5] },
    Inverse { m: 85, root: 13, list: &[10, 57, 83, 24], inverted: true, want: &[1, 2, 3, 4] },
    Inverse { m: 1, root: 0, list: &[0, 0], inverted: true, want: &[0, 0] },
    Inverse { m: 20, root: 19, list: &[7], inverted: true, want: &[7] },
    Inverse { m: 20, root: 19, list: &[16, 18], inverted: false, want: &[16, 18] },
];

impl<'a> Question<u8> for Inverse<'a> {
    type Answer = bool;

    fn modulus(&self) -> u8 {
        self.m
    }

    fn answer<R: Reducer<u8> + Copy>(&self, m: u8) -> bool {
        let r = &R::new(&m);
        let mut list = copied(self.list);
        let xs = &mut list[..self.list.len().min(4)];
        transformed_back(r, xs, self.root) == Some(self.inverted) && are_forms(r, xs, self.want)
    }
}

// A modulus, a root, the residues of two lists, whether their number has an inverse, and the residues of the
// cyclic product and of the transform of the second list.
struct Product<'a> {
    m: u8,
    root: u8,
    lists: [&'a [u8]; 2],
    inverted: bool,
    want: [&'a [u8]; 2],
}

#[rattlefmt::skip]
const PRODUCTS: &[Product] = &[
    Product { m: 17, root: 4, lists: [&[1, 2, 3, 4], &[0, 1, 0, 0]], inverted: true,
        want: [&[4, 1, 2, 3], &[1, 4, 16, 13]] },
    Product { m: 85, root: 13, lists: [&[1, 2, 3, 4], &[1, 1, 0, 0]], inverted: true,
        want: [&[5, 3, 5, 7], &[2, 14, 0, 73]] },
    Product { m: 20, root: 19, lists: [&[7, 9], &[1, 0]], inverted: false, want: [&[7, 9], &[1, 0]] },
];

impl<'a> Question<u8> for Product<'a> {
    type Answer = bool;

    fn modulus(&self) -> u8 {
        self.m
    }

    fn answer<R: Reducer<u8> + Copy>(&self, m: u8) -> bool {
        let r = &R::new(&m);
        let (mut first, mut second) = (copied(self.lists[0]), copied(self.lists[1]));
        let xs = &mut first[..self.lists[0].len().min(4)];
        let ys = &mut second[..self.lists[1].len().min(4)];
        multiplied(r, xs, ys, self.root) == Some(self.inverted)
            && are_forms(r, xs, self.want[0])
            && are_forms(r, ys, self.want[1])
    }
}

#[test]
fn known_roots_transforms_and_products(rt: HostRuntime) {
    let rt = &rt;
    assert_right(rt, first_wrong(ROOTS));
    assert_right(rt, first_wrong(TRANSFORMS));
    assert_right(rt, first_wrong(INVERSES));
    assert_right(rt, first_wrong(PRODUCTS));
}

// A modulus, a root for so many entries, and two lists that begin with as many; then their plain sums: the transforms of
// both, and the cyclic product.
// rattle: line
#[derive(Drop)]
struct Sums {
    m: u64,
    root: u64,
    length: usize,
    first: [u64; 256],
    second: [u64; 256],
    first_transform: [u64; 256],
    second_transform: [u64; 256],
    product: [u64; 256],
}

impl Question<u64> for Sums {
    type Answer = bool;

    fn modulus(&self) -> u64 {
        self.m
    }

    // Whether a reducer's transforms and its cyclic product are these sums, every entry.
    fn answer<R: Reducer<u64> + Copy>(&self, m: u64) -> bool {
        let (r, n) = (&R::new(&m), self.length);
        let (mut xs, mut ys, mut zs) = (self.first, self.second, self.first);
        n <= 256
            && transformed(r, &mut zs[..n], self.root).is_some()
            && are_forms(r, &zs[..n], &self.first_transform[..n])
            && multiplied(r, &mut xs[..n], &mut ys[..n], self.root) == Some(true)
            && are_forms(r, &xs[..n], &self.product[..n])
            && are_forms(r, &ys[..n], &self.second_transform[..n])
    }
}

// Puts the plain transform by g of a list modulo m in its place.
fn take_transform(entries: &mut [u64], m: u64, g: u64, xs: &[u64]) {
    for e in 0..entries.len() {
        entries[e] = if m > 0 {
            transform_entry(m, g, xs, e)
        } else {
            0
        };
    }
}

// Puts the plain cyclic product modulo m of two lists of the same length in its place.
fn take_product(entries: &mut [u64], m: u64, xs: &[u64], ys: &[u64]) {
    let n = entries.len();
    if m == 0 || n > 256 || xs.len() != n || ys.len() != n {
        return;
    }
    for e in 0..n {
        entries[e] = product_entry(m, xs, ys, e);
    }
}

// Whether the transforms by the root of two lists modulo m, and their product, are the plain sums, over each reducer.
fn are_plain(m: u64, root: u64, length: usize, first: [u64; 256], second: [u64; 256]) -> bool {
    let mut sums = Sums {
        m,
        root,
        length,
        first,
        second,
        first_transform: [0; 256],
        second_transform: [0; 256],
        product: [0; 256],
    };
    if length <= 256 {
        take_transform(
            &mut sums.first_transform[..length],
            m,
            root,
            &first[..length],
        );
        take_transform(
            &mut sums.second_transform[..length],
            m,
            root,
            &second[..length],
        );
        take_product(
            &mut sums.product[..length],
            m,
            &first[..length],
            &second[..length],
        );
    }
    answers(&sums) == Some([true; 3])
        && (m != MODULUS || sums.answer::<FixedTrinomialSolinas64<64, 32, 1>>(MODULUS))
}

// Eight values of no pattern, and a root of -1 to the fourth modulo 17.
const VALUES: [u64; 8] = [3, 14, 15, 9, 2, 6, 5, 11];

const OTHERS: [u64; 8] = [2, 7, 1, 8, 16, 0, 4, 5];

// The eight values, and zeros.
fn padded(values: &[u64; 8]) -> [u64; 256] {
    let mut xs = [0; 256];
    for i in 0..8 {
        xs[i] = values[i];
    }
    xs
}

// The modulus 2^64 - 2^32 + 1, whose units have the order 2^32 * (2^32 - 1), with the generator 7.
const MODULUS: u64 = 18446744069414584321;

// The residues i * i * 40503 + seed for the places i.
fn seeded(seed: u64) -> [u64; 256] {
    let mut xs = [0; 256];
    for i in 0..256 {
        xs[i] = (i as u64)
            .wrapping_mul(i as u64)
            .wrapping_mul(40503)
            .wrapping_add(seed)
            % MODULUS;
    }
    xs
}

// The seeds of the two lists.
const FIRST: u64 = 3;

const SECOND: u64 = 14;

// The lengths of lists around a strip, each with a root for it: a power of the generator.
const LENGTHS: &[(usize, u64)] = &[
    (1, 1),
    (2, 18446744069414584320),
    (16, 17293822564807737345),
    (32, 70368744161280),
    (64, 549755813888),
    (128, 17870292113338400769),
    (256, 13797081185216407910),
];

#[test]
fn plain_sums(rt: HostRuntime) {
    let rt = &rt;
    check!(rt, 1; are_plain(17, 2, 8, padded(&VALUES), padded(&OTHERS)));
    let (first, second) = (seeded(FIRST), seeded(SECOND));
    for &(length, root) in LENGTHS {
        assert_at(rt, are_plain(MODULUS, root, length, first, second), &length);
    }
}
