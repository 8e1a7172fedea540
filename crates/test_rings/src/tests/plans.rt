//! Known lists of remainders, their joins, and transforms in natural order, by tables.

use super::plan_rows::{Call, Row, first_wrong_16, first_wrong_32, first_wrong_64};
use super::{assert_at, assert_right};
use num_modular::plans::splits;

// How many entries, how many factors, the block, how many entries the last blocks have, and whether that splits.
const LISTS: &[(usize, usize, usize, usize, bool)] = &[
    (16, 8, 0, 1, true),
    (6, 1, 0, 3, true),
    (5, 0, 7, 5, true),
    (0, 8, 0, 1, false),
    (8, 8, 0, 0, false),
    (12, 8, 0, 1, false),
    (7, 8, 0, 3, false),
    (16, 7, 0, 1, false),
    (8, 8, 1, 1, true),
    (8, 8, 2, 1, false),
];

#[test]
fn lists_that_split(rt: HostRuntime) {
    for row in LISTS {
        let &(length, factors, b, last, fits) = row;
        assert_at(&rt, splits(length, factors, b, last) == fits, row);
    }
}

#[rattlefmt::skip]
const REMAINDERS_OF_16_BITS: &[Row<u16>] = &[
    // the whole transform
    Row { m: 17, root: 2, factors: 4, block: 0, last: 1, lists: &[1; 8], want: &[8, 0, 0, 0, 0, 0, 0, 0] },
    Row { m: 17, root: 2, factors: 4, block: 0, last: 1, lists: &[67], want: &[16] },
    // an even modulus
    Row { m: 16384, root: 16383, factors: 1, block: 0, last: 1, lists: &[65535, 1], want: &[0, 16382] },
];

#[rattlefmt::skip]
const REMAINDERS_OF_32_BITS: &[Row<u32>] = &[
    // other blocks
    Row { m: 17, root: 3, factors: 8, block: 1, last: 1, lists: &[1, 2, 3, 4, 5, 6, 7, 8],
        want: &[5, 0, 13, 8, 9, 11, 5, 8] },
    Row { m: 17, root: 3, factors: 8, block: 1, last: 2, lists: &[67, 67, 67, 67, 0, 1, 2, 3],
        want: &[3, 14, 12, 10, 2, 15, 13, 8] },
    Row { m: 17, root: 3, factors: 8, block: 3, last: 1, lists: &[5, 6, 7, 8], want: &[10, 6, 6, 15] },
    // known primes
    Row { m: 3329, root: 1729, factors: 2, block: 0, last: 1, lists: &[1, 2, 3, 4], want: &[10, 3327, 3198, 127] },
    Row { m: 3329, root: 1729, factors: 2, block: 1, last: 2, lists: &[13315; 4], want: &[1599, 1599, 1728, 1728] },
    Row { m: 8380417, root: 4808194, factors: 2, block: 1, last: 1, lists: &[33521667, 1], want: &[4808193, 3572222] },
];

// The greatest prime below 2^62 that leaves 1 modulo 8, and a root of 8 entries.
const GREATEST: u64 = 4611686018427387817;

const ROOT_OF_8: u64 = 967200838763692757;

#[rattlefmt::skip]
const REMAINDERS: &[Row<u64>] = &[
    // the whole transform
    Row { m: 17, root: 3, factors: 8, block: 0, last: 1,
        lists: &[1, 2, 3, 4, 5, 6, 7, 8, 9, 10, 11, 12, 13, 14, 15, 16],
        want: &[0, 9, 7, 11, 2, 12, 6, 16, 8, 13, 4, 3, 15, 14, 5, 10] },
    // composite and even moduli
    Row { m: 85, root: 13, factors: 2, block: 0, last: 1, lists: &[1, 2, 3, 4], want: &[10, 83, 57, 24] },
    Row { m: 85, root: 13, factors: 2, block: 1, last: 1, lists: &[339, 338], want: &[58, 25] },
    Row { m: 1, root: 0, factors: 2, block: 0, last: 1, lists: &[3, 2, 1, 0], want: &[0, 0, 0, 0] },
    Row { m: 20, root: 19, factors: 1, block: 0, last: 1, lists: &[79, 78], want: &[17, 1] },
    Row { m: 20, root: 19, factors: 1, block: 0, last: 3, lists: &[1, 2, 3, 4, 5, 6], want: &[5, 7, 9, 17, 17, 17] },
];

#[rattlefmt::skip]
const REMAINDERS_OF_GREATEST_WORDS: &[Row<u64>] = &[
    Row { m: GREATEST, root: ROOT_OF_8, factors: 4, block: 0, last: 1,
        lists: &[4 * GREATEST - 1, 1, 2, 3, 4 * GREATEST - 2, 5, 6, 7],
        want: &[21, 4611686018427387806, 483454483384807165, 4128231535042580630, 2391004328710929254,
            3187590656486072917, 1424095361941314902, 2220681689716458565] },
    Row { m: GREATEST, root: ROOT_OF_8, factors: 4, block: 0, last: 1, lists: &[4 * GREATEST - 1; 8],
        want: &[4611686018427387809, 0, 0, 0, 0, 0, 0, 0] },
];

#[test]
fn remainders(rt: HostRuntime) {
    let rt = &rt;
    assert_right(
        rt,
        first_wrong_16(&Call::Split, Some(true), REMAINDERS_OF_16_BITS),
    );
    assert_right(
        rt,
        first_wrong_32(&Call::Split, Some(true), REMAINDERS_OF_32_BITS),
    );
    let split = &Call::Split;
    assert_right(rt, first_wrong_64(split, Some(true), REMAINDERS));
    assert_right(
        rt,
        first_wrong_64(split, Some(true), REMAINDERS_OF_GREATEST_WORDS),
    );
}

#[rattlefmt::skip]
const JOINS_OF_16_BITS: &[Row<u16>] = &[
    // blocks of two
    Row { m: 17, root: 3, factors: 8, block: 1, last: 2, lists: &[18, 66, 57, 50, 60, 51, 13, 42],
        want: &[12, 5, 9, 2, 8, 7, 3, 10] },
    Row { m: 17, root: 3, factors: 8, block: 2, last: 2, lists: &[53, 10, 4, 35], want: &[6, 11, 13, 1] },
    // an even modulus
    Row { m: 16384, root: 16383, factors: 1, block: 0, last: 1, lists: &[32772, 16378], want: &[16382, 10] },
];

#[rattlefmt::skip]
const JOINS_OF_32_BITS: &[Row<u32>] = &[
    // blocks of two
    Row { m: 3329, root: 1729, factors: 2, block: 1, last: 2, lists: &[1859, 260, 1472, 6402], want: &[2, 4, 6, 8] },
    // known primes
    Row { m: 3329, root: 1729, factors: 2, block: 0, last: 1, lists: &[1016, 5674, 12049, 1231],
        want: &[3325, 0, 68, 671] },
    Row { m: 8380417, root: 4808194, factors: 2, block: 1, last: 1, lists: &[32223187, 9678896],
        want: &[8380415, 246912] },
    Row { m: 8380417, root: 4808194, factors: 2, block: 0, last: 1, lists: &[33521667; 4], want: &[8380413, 0, 0, 0] },
];

// A prime of 60 bits that leaves 1 modulo 2^20, and a root of 16 entries.
const LONG: u64 = 1152921504577486849;

const ROOT: u64 = 22183971697201201;

// The greatest prime that plans admit, and the greatest odd number.
const GREATEST_PRIME: u64 = 4611686018427387847;

const GREATEST_ODD: u64 = 4611686018427387903;

#[rattlefmt::skip]
const JOINS: &[Row<u64>] = &[
    Row { m: 17, root: 3, factors: 8, block: 0, last: 1,
        lists: &[34, 26, 41, 28, 36, 63, 40, 16, 42, 47, 4, 37, 15, 14, 5, 61],
        want: &[16, 15, 14, 13, 12, 11, 10, 9, 8, 7, 6, 5, 4, 3, 2, 1] },
    Row { m: 17, root: 3, factors: 8, block: 1, last: 1, lists: &[39, 0, 47, 59, 9, 11, 22, 42],
        want: &[8, 16, 7, 15, 6, 14, 5, 13] },
    Row { m: 17, root: 3, factors: 8, block: 0, last: 1, lists: &[10, 32, 40, 24], want: &[4, 8, 12, 16] },
    Row { m: 17, root: 3, factors: 8, block: 3, last: 1, lists: &[10, 57, 40, 15], want: &[3, 7, 11, 15] },
    Row { m: 17, root: 3, factors: 8, block: 5, last: 1, lists: &[35, 26], want: &[10, 12] },
    Row { m: 17, root: 3, factors: 8, block: 0, last: 1, lists: &[67], want: &[16] },
];

#[rattlefmt::skip]
const JOINS_OF_COMPOSITE_MODULI: &[Row<u64>] = &[
    Row { m: 85, root: 13, factors: 2, block: 0, last: 1, lists: &[265, 83, 57, 279], want: &[4, 8, 12, 16] },
    Row { m: 85, root: 13, factors: 2, block: 1, last: 1, lists: &[256, 159], want: &[75, 14] },
    Row { m: 1, root: 0, factors: 2, block: 0, last: 1, lists: &[2, 3, 3, 0], want: &[0, 0, 0, 0] },
    Row { m: 20, root: 19, factors: 1, block: 0, last: 1, lists: &[76, 78], want: &[14, 18] },
    Row { m: 20, root: 19, factors: 1, block: 0, last: 3, lists: &[5, 47, 29, 37, 37, 17],
        want: &[2, 4, 6, 8, 10, 12] },
];

#[rattlefmt::skip]
const JOINS_OF_GREATEST_WORDS: &[Row<u64>] = &[
    Row { m: LONG, root: ROOT, factors: 8, block: 1, last: 1,
        lists: &[3113715719171352145, 4486075704425402414, 4280052375847272960, 558455076247744408, 3523324952369542334,
            3029229909670686326, 1214753261350237193, 2852823092467499208],
        want: &[8, 16, 24, 32, 40, 48, 56, LONG - 8] },
    Row { m: LONG, root: ROOT, factors: 8, block: 0, last: 1, lists: &[4 * LONG - 1; 16],
        want: &[LONG - 16, 0, 0, 0, 0, 0, 0, 0, 0, 0, 0, 0, 0, 0, 0, 0] },
    Row { m: GREATEST_PRIME, root: GREATEST_PRIME - 1, factors: 1, block: 0, last: 1,
        lists: &[13835058055405620329, 13835058055158706751], want: &[GREATEST_PRIME - 2, 246913578] },
    Row { m: GREATEST_ODD, root: GREATEST_ODD - 1, factors: 1, block: 0, last: 1,
        lists: &[13835058055405620497, 4611686018303931113], want: &[GREATEST_ODD - 2, 246913578] },
];

#[test]
fn joins(rt: HostRuntime) {
    let rt = &rt;
    assert_right(
        rt,
        first_wrong_16(&Call::Join, Some(true), JOINS_OF_16_BITS),
    );
    assert_right(
        rt,
        first_wrong_32(&Call::Join, Some(true), JOINS_OF_32_BITS),
    );
    let join = &Call::Join;
    assert_right(rt, first_wrong_64(join, Some(true), JOINS));
    assert_right(
        rt,
        first_wrong_64(join, Some(true), JOINS_OF_COMPOSITE_MODULI),
    );
    assert_right(
        rt,
        first_wrong_64(join, Some(true), JOINS_OF_GREATEST_WORDS),
    );
}

// The factor is 15, and then 0.
#[rattlefmt::skip]
const TIMES_15: &[Row<u64>] = &[
    Row { m: 17, root: 3, factors: 8, block: 1, last: 1, lists: &[39, 0, 47, 59, 9, 11, 22, 42],
        want: &[1, 2, 3, 4, 5, 6, 7, 8] },
];

#[rattlefmt::skip]
const TIMES_0: &[Row<u64>] = &[
    Row { m: 17, root: 3, factors: 8, block: 1, last: 1, lists: &[39, 0, 47, 59, 9, 11, 22, 42], want: &[0; 8] },
];

#[test]
fn scaled(rt: HostRuntime) {
    let rt = &rt;
    assert_right(rt, first_wrong_64(&Call::Scaled(15), Some(true), TIMES_15));
    assert_right(rt, first_wrong_64(&Call::Scaled(0), Some(true), TIMES_0));
}

#[rattlefmt::skip]
const TRANSFORMS_OF_16_BITS: &[Row<u16>] = &[
    Row { m: 17, root: 4, factors: 2, block: 0, last: 1, lists: &[1, 2, 3, 4], want: &[10, 7, 15, 6] },
    Row { m: 85, root: 13, factors: 2, block: 0, last: 1, lists: &[1, 2, 3, 4], want: &[10, 57, 83, 24] },
];

#[rattlefmt::skip]
const TRANSFORMS_OF_32_BITS: &[Row<u32>] = &[
    // whole tables
    Row { m: 20, root: 19, factors: 1, block: 0, last: 1, lists: &[79, 78], want: &[17, 1] },
    // longer tables
    Row { m: 17, root: 3, factors: 8, block: 0, last: 1, lists: &[1, 2, 3, 4, 5, 6, 7, 8],
        want: &[2, 1, 12, 3, 13, 6, 14, 8] },
    Row { m: 17, root: 3, factors: 8, block: 0, last: 1, lists: &[67, 1], want: &[0, 15] },
    Row { m: 17, root: 3, factors: 8, block: 0, last: 1, lists: &[67], want: &[16] },
];

#[rattlefmt::skip]
const TRANSFORMS: &[Row<u64>] = &[
    Row { m: 17, root: 3, factors: 8, block: 0, last: 1,
        lists: &[1, 2, 3, 4, 5, 6, 7, 8, 9, 10, 11, 12, 13, 14, 15, 16],
        want: &[0, 8, 2, 15, 7, 4, 6, 5, 9, 13, 12, 14, 11, 3, 16, 10] },
];

// Lists whose lengths aren't powers of two.
#[rattlefmt::skip]
const OTHER_LENGTHS: &[Row<u32>] = &[
    Row { m: 17, root: 3, factors: 8, block: 0, last: 1, lists: &[], want: &[] },
    Row { m: 17, root: 3, factors: 8, block: 0, last: 1, lists: &[1, 2, 3], want: &[1, 2, 3] },
];

#[test]
fn natural_order(rt: HostRuntime) {
    let rt = &rt;
    assert_right(
        rt,
        first_wrong_16(&Call::InOrder, Some(true), TRANSFORMS_OF_16_BITS),
    );
    assert_right(
        rt,
        first_wrong_32(&Call::InOrder, Some(true), TRANSFORMS_OF_32_BITS),
    );
    assert_right(rt, first_wrong_64(&Call::InOrder, Some(true), TRANSFORMS));
    assert_right(rt, first_wrong_32(&Call::InOrder, None, OTHER_LENGTHS));
}
