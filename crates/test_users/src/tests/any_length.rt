//! Transforms of any length modulo any m, by the sums and by products of polynomials, and back.

use super::assert_at;
use long_product::any_length::{
    LEAST_CONVOLVED, find_root_of_order, intt, is_root_of_order, ntt, room,
};
use long_product::{Plans, fill_plans, polynomials};
use num_modular::plans::{Factor, PlanEntry};

const NONE: Factor<u64> = Factor {
    value: 0,
    quotient: 0,
};

const GREATEST: u64 = 18446744073709551615;

// A modulus, a root, the values and their transform, computed by hand.
type Row = (u64, u64, &'static [u64], &'static [u64]);

const BY_ROOTS: &[Row] = &[
    (7, 2, &[1, 2, 3], &[6, 3, 1]),
    (11, 3, &[1, 2, 3, 4, 5], &[4, 8, 2, 4, 9]),
    (91, 16, &[1, 2, 3], &[6, 73, 15]),
    (1, 0, &[0, 0], &[0, 0]),
    (7, 1, &[5], &[5]),
];

// Where g has an inverse but not that order, or values aren't reduced.
const OTHERS: &[Row] = &[
    (10, 3, &[1, 2, 3, 4], &[0, 2, 8, 4]),
    (GREATEST, 2, &[GREATEST - 1, 1, 1], &[1, 5, 19]),
    (1, 5, &[1, 2], &[0, 0]),
    (7, 3, &[9], &[2]),
    (7, 3, &[], &[]),
];

// Whether the values have this transform, or back.
fn has_transform<F: PlanEntry<u64>>(row: &Row, back: bool, plans: &Plans<F>) -> bool {
    let &(m, g, xs, known) = row;
    let mut room = [7; 8];
    if known.len() > 8 || xs.len() > 8 {
        return false;
    }
    if back {
        let out = &mut room[..xs.len()];
        return intt(m, g, known, out, &mut [], plans) && *out == *xs;
    }
    let out = &mut room[..known.len()];
    ntt(m, g, xs, out, &mut [], plans) && *out == *known
}

fn have_transforms<F: PlanEntry<u64>>(a: &mut [F], b: &mut [F], c: &mut [F]) -> bool {
    match fill_plans(a, b, c) {
        Some(plans) => {
            BY_ROOTS.iter().all(|row| has_transform(row, false, &plans)
                && has_transform(row, true, &plans))
                && OTHERS.iter().all(|row| has_transform(row, false, &plans))
        }
        None => false,
    }
}

#[test]
fn transforms_by_the_sums(rt: HostRuntime) {
    let (mut a, mut b, mut c) = ([NONE; 1], [NONE; 1], [NONE; 1]);
    check!(&rt, 1; have_transforms(&mut a, &mut b, &mut c));
}

// Whether the transform by 2 of twenty ones modulo 41 is 20 and nineteen times 0, given so many words; back from there
// too.
fn transforms_ones<F: PlanEntry<u64>>(words: usize, a: &mut [F], b: &mut [F], c: &mut [F]) -> bool {
    let mut known = [0; 20];
    known[0] = 20;
    let (mut there, mut back, mut room) = ([7; 20], [7; 20], [7; 120]);
    let words = &mut room[..words.min(120)];
    match fill_plans(a, b, c) {
        Some(plans) => {
            ntt(41, 2, &[1; 20], &mut there, words, &plans)
                && there == known
                && intt(41, 2, &there, &mut back, words, &plans)
                && back == [1; 20]
        }
        None => false,
    }
}

#[test]
fn transforms_by_a_product(rt: HostRuntime) {
    let (mut a, mut b, mut c) = ([NONE; 1], [NONE; 1], [NONE; 1]);
    check!(&rt, 1; transforms_ones(120, &mut a, &mut b, &mut c));
    check!(&rt, 2; !transforms_ones(119, &mut a, &mut b, &mut c));
}

#[test]
fn the_room_of_transforms(rt: HostRuntime) {
    check!(&rt, 1; room(LEAST_CONVOLVED) == (6 * LEAST_CONVOLVED, 0));
    check!(&rt, 2; room(LEAST_CONVOLVED - 1) == (0, 0));
    let (words, factors) = room(1000);
    check!(&rt, 3; polynomials::room(1000, 1999) == (words.wrapping_sub(6000), factors));
}

// A modulus, a number, an order, and whether it is a root of that order.
const ROOTS: &[(u64, u64, usize, bool)] = &[
    (7, 2, 3, true),
    (7, 6, 6, false),
    (15, 4, 2, false),
    (91, 16, 3, true),
    (41, 2, 20, true),
    (41, 2, 40, false),
    (1, 0, 5, true),
    (7, 1, 1, true),
    (7, 1, 0, false),
    (0, 1, 1, false),
    // These take no time, though the order is great.
    (7, 1, 18446744073709551615, false),
    (1, 1, 18446744073709551615, true),
    (2305843009213693951, 3, 1152921504606846976, false),
    (7, 3, 6, true),
    (7, 1, 7, false),
];

#[test]
fn roots_of_orders(rt: HostRuntime) {
    for row in ROOTS {
        let &(m, g, n, known) = row;
        assert_at(&rt, is_root_of_order(m, g, n) == known, row);
    }
}

// Whether neither transform of two values is written to the list.
fn is_refused<F: PlanEntry<u64>>(m: u64, g: u64, out: &mut [u64], plans: &Plans<F>) -> bool {
    !ntt(m, g, &[1, 2], out, &mut [], plans) && !intt(m, g, &[1, 2], out, &mut [], plans)
}

// And that only the transform back needs an inverse of the length.
fn refuse<F: PlanEntry<u64>>(a: &mut [F], b: &mut [F], c: &mut [F]) -> bool {
    let mut out = [7; 3];
    match fill_plans(a, b, c) {
        Some(plans) => {
            is_refused(0, 1, &mut out[..2], &plans)
                && is_refused(9, 6, &mut out[..2], &plans)
                && is_refused(9, 2, &mut out, &plans)
                && out == [7; 3]
                && !intt(8, 7, &[1, 2], &mut out[..2], &mut [], &plans)
                && ntt(8, 7, &[1, 2], &mut out[..2], &mut [], &plans)
                && out == [3, 7, 7]
        }
        None => false,
    }
}

#[test]
fn refusals(rt: HostRuntime) {
    let (mut a, mut b, mut c) = ([NONE; 1], [NONE; 1], [NONE; 1]);
    check!(&rt, 1; refuse(&mut a, &mut b, &mut c));
}

// A modulus, an order, and the root of it that is found, computed by trying each x; m where there is none.
const FOUND: &[(u64, usize, u64)] = &[
    (31, 5, 2),
    (31, 7, 31),
    (7, 3, 4),
    (7, 6, 3),
    (15, 2, 14),
    (97, 96, 5),
    (1009, 504, 121),
    (91, 3, 91),
    (1, 5, 0),
    (7, 0, 7),
    (7, 18446744073709551615, 7),
    (0, 1, 0),
];

#[test]
fn roots_that_are_found(rt: HostRuntime) {
    for row in FOUND {
        let &(m, n, known) = row;
        assert_at(&rt, find_root_of_order(m, n).unwrap_or(m) == known, row);
    }
}
