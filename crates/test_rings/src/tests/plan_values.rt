//! Known transforms, remainders and products by a plan as one value.

use super::plan_rows::{Row, all_below, are_same, placed};
use super::{assert_at, assert_right};
use modular_prim::plain_word::PlainWord;
use num_modular::plans::{Factor, Plan, PlanEntry, PlannedModulus};
use test_callers::plans::all_in_room;

// What is called on two lists: `transform` on both, and then `inverse` on the second, by the plan or by the shorter one
// for so many entries; `split` and `join` in the same way; or a product.
enum Call {
    Transform,
    Shorter,
    Split,
    Multiply,
    Cyclic,
    Negacyclic,
    Block,
}

// Whether the lists are transformed, and the second back.
fn is_transformed<T: PlainWord, F: PlanEntry<T>>(
    plan: &Plan<T, F>,
    xs: &mut [T],
    ys: &mut [T],
) -> bool {
    let m = plan.modulus();
    if !plan.fits(xs.len()) || !all_in_room(&m, xs) {
        return false;
    }
    plan.transform(xs);
    if !plan.fits(ys.len()) || !all_in_room(&m, ys) {
        return false;
    }
    plan.transform(ys);
    if !all_in_room(&m, ys) {
        return false;
    }
    plan.inverse(ys);
    true
}

// Whether they are by the shorter plan.
fn is_transformed_by_shorter<T: PlainWord, F: PlanEntry<T>>(
    plan: &Plan<T, F>,
    xs: &mut [T],
    ys: &mut [T],
) -> bool {
    plan.has_shorter(xs.len()) && is_transformed(&plan.shorter(xs.len()), xs, ys)
}

// Whether the lists are split, and the second is joined.
fn is_split<T: PlainWord, F: PlanEntry<T>>(
    plan: &Plan<T, F>,
    xs: &mut [T],
    ys: &mut [T],
    b: usize,
    last: usize,
) -> bool {
    let m = plan.modulus();
    if !plan.splits(xs.len(), b, last) || !all_in_room(&m, xs) {
        return false;
    }
    plan.split(xs, b, last);
    if !plan.splits(ys.len(), b, last) || !all_in_room(&m, ys) {
        return false;
    }
    plan.split(ys, b, last);
    if !all_in_room(&m, ys) {
        return false;
    }
    plan.join(ys, b, last);
    true
}

// Whether the lists are multiplied as the call says.
fn is_multiplied<T: PlainWord, F: PlanEntry<T>>(
    plan: &Plan<T, F>,
    call: &Call,
    xs: &mut [T],
    ys: &mut [T],
    b: usize,
    last: usize,
) -> bool {
    let m = plan.modulus();
    if xs.len() != ys.len() || !all_in_room(&m, xs) || !all_in_room(&m, ys) {
        return false;
    }
    match call {
        Call::Multiply => {
            if !all_below(&m, xs) {
                return false;
            }
            plan.multiply(xs, ys);
        }
        Call::Cyclic => {
            if !plan.fits(xs.len()) {
                return false;
            }
            plan.convolve(xs, ys);
        }
        Call::Negacyclic => {
            if !plan.fits(xs.len()) {
                return false;
            }
            plan.convolve_negacyclic(xs, ys);
        }
        _ => {
            if !plan.convolves(xs.len(), b, last) {
                return false;
            }
            plan.convolve_block(xs, ys, b, last);
        }
    }
    true
}

// Whether the call is right for the row, with room for a table and the lists.
fn is_right<T: PlainWord>(
    call: &Call,
    row: &Row<T>,
    table: &mut [Factor<T>],
    room: &mut [T],
) -> bool {
    if !PlannedModulus::admits(row.m) || row.factors > table.len() {
        return false;
    }
    let m = PlannedModulus::new(row.m);
    let lists = placed(room, row.lists);
    let half = lists.len() / 2;
    let is_done = match Plan::new(&m, row.root, &mut table[..row.factors]) {
        Some(plan) => {
            let (xs, ys) = lists.split_at_mut(half);
            match call {
                Call::Transform => is_transformed(&plan, xs, ys),
                Call::Shorter => is_transformed_by_shorter(&plan, xs, ys),
                Call::Split => is_split(&plan, xs, ys, row.block, row.last),
                _ => is_multiplied(&plan, call, xs, ys, row.block, row.last),
            }
        }
        None => false,
    };
    is_done && are_same(lists, row.want)
}

// The place of the first row for which it isn't.
fn first_wrong(call: &Call, rows: &[Row<u64>]) -> Option<usize> {
    let mut table = [Factor::<u64> {
        value: 0,
        quotient: 0,
    }; 8];
    let mut room = [0; 32];
    for i in 0..rows.len() {
        if !is_right(call, &rows[i], &mut table, &mut room) {
            return Some(i);
        }
    }
    None
}

// A prime just below 2^62, and a root of 8 entries.
const GREATEST: u64 = 4611686018427387817;

const ROOT_OF_8: u64 = 967200838763692757;

#[rattlefmt::skip]
const TRANSFORMS: &[Row<u64>] = &[
    Row { m: 17, root: 4, factors: 2, block: 0, last: 1, lists: &[1, 2, 3, 4, 1, 2, 3, 4],
        want: &[10, 7, 15, 6, 1, 2, 3, 4] },
    Row { m: 85, root: 13, factors: 2, block: 0, last: 1, lists: &[1, 2, 3, 4, 1, 2, 3, 4],
        want: &[10, 57, 83, 24, 1, 2, 3, 4] },
    Row { m: 3, root: 2, factors: 1, block: 0, last: 1, lists: &[11, 10, 11, 10], want: &[0, 1, 2, 1] },
    Row { m: GREATEST, root: ROOT_OF_8, factors: 4, block: 0, last: 1,
        lists: &[4 * GREATEST - 1, 1, 2, 3, 4 * GREATEST - 2, 5, 6, 7, 4 * GREATEST - 1, 1, 2, 3, 4 * GREATEST - 2, 5, 6, 7],
        want: &[21, 2391004328710929254, 483454483384807165, 1424095361941314902, 4611686018427387806,
            3187590656486072917, 4128231535042580630, 2220681689716458565, GREATEST - 1, 1, 2, 3, GREATEST - 2, 5, 6, 7] },
];

#[rattlefmt::skip]
const BY_SHORTER_PLANS: &[Row<u64>] = &[
    Row { m: 17, root: 3, factors: 8, block: 0, last: 1, lists: &[1, 2, 3, 4, 1, 2, 3, 4],
        want: &[10, 6, 15, 7, 1, 2, 3, 4] },
    Row { m: 17, root: 3, factors: 8, block: 0, last: 1, lists: &[67, 1, 67, 1], want: &[0, 15, 16, 1] },
];

#[rattlefmt::skip]
const REMAINDERS: &[Row<u64>] = &[
    Row { m: 17, root: 3, factors: 8, block: 1, last: 1, lists: &[1, 2, 3, 4, 5, 6, 7, 8, 1, 2, 3, 4, 5, 6, 7, 8],
        want: &[5, 0, 13, 8, 9, 11, 5, 8, 1, 2, 3, 4, 5, 6, 7, 8] },
    Row { m: 17, root: 3, factors: 8, block: 2, last: 3, lists: &[1, 2, 3, 4, 5, 6, 67, 2, 3, 4, 5, 6],
        want: &[3, 13, 6, 16, 8, 0, 16, 2, 3, 4, 5, 6] },
];

#[rattlefmt::skip]
const ENTRY_BY_ENTRY: &[Row<u64>] = &[
    Row { m: 17, root: 4, factors: 2, block: 0, last: 1, lists: &[1, 2, 3, 16, 5, 6, 7, 20],
        want: &[5, 12, 4, 14, 5, 6, 7, 20] },
];

#[rattlefmt::skip]
const CYCLIC: &[Row<u64>] = &[
    Row { m: 17, root: 4, factors: 2, block: 0, last: 1, lists: &[1, 2, 3, 4, 0, 1, 0, 0],
        want: &[4, 1, 2, 3, 1, 16, 4, 13] },
    Row { m: 85, root: 13, factors: 2, block: 0, last: 1, lists: &[1, 2, 3, 4, 1, 1, 0, 0],
        want: &[5, 3, 5, 7, 2, 0, 14, 73] },
];

#[rattlefmt::skip]
const NEGACYCLIC: &[Row<u64>] = &[
    Row { m: 17, root: 4, factors: 2, block: 0, last: 1, lists: &[1, 2, 3, 4, 0, 1, 0, 0],
        want: &[13, 1, 2, 3, 0, 1, 0, 1] },
    Row { m: 17, root: 2, factors: 4, block: 0, last: 1,
        lists: &[67, 66, 65, 64, 1, 2, 3, 4, 5, 6, 7, 8, 9, 10, 11, 12],
        want: &[5, 1, 9, 10, 8, 9, 15, 11, 7, 5, 7, 2, 13, 3, 10, 14] },
];

#[rattlefmt::skip]
const BLOCKS: &[Row<u64>] = &[
    Row { m: 17, root: 3, factors: 8, block: 3, last: 1, lists: &[5, 6, 7, 8, 1, 2, 3, 4],
        want: &[11, 3, 9, 9, 3, 4, 15, 16] },
    Row { m: 17, root: 3, factors: 8, block: 5, last: 1, lists: &[67, 66, 3, 4], want: &[1, 7, 6, 0] },
    Row { m: 17, root: 3, factors: 8, block: 3, last: 2, lists: &[5, 6, 7, 8, 1, 2, 3, 4],
        want: &[11, 3, 9, 9, 12, 11, 7, 10] },
];

#[test]
fn by_one_value(rt: HostRuntime) {
    let rt = &rt;
    assert_right(rt, first_wrong(&Call::Transform, TRANSFORMS));
    assert_right(rt, first_wrong(&Call::Shorter, BY_SHORTER_PLANS));
    assert_right(rt, first_wrong(&Call::Split, REMAINDERS));
    assert_right(rt, first_wrong(&Call::Multiply, ENTRY_BY_ENTRY));
    assert_right(rt, first_wrong(&Call::Cyclic, CYCLIC));
    assert_right(rt, first_wrong(&Call::Negacyclic, NEGACYCLIC));
    assert_right(rt, first_wrong(&Call::Block, BLOCKS));
}

// A modulus, a root, how many entries the table has, and whether that gives a plan with these.
const ADMITTED: &[(u64, u64, usize, bool)] = &[
    (17, 3, 8, true),
    (85, 13, 2, true),
    (1, 0, 4, true),
    // an even modulus
    (20, 19, 1, false),
    // a root that isn't below the modulus, and others that don't suit
    (17, 21, 2, false),
    (17, 2, 2, false),
    (17, 3, 4, false),
    // lengths that aren't twice a power of two
    (17, 4, 0, false),
    (17, 4, 3, false),
];

// Whether there is a plan, with this modulus, root and number of entries.
fn is_plan<T: PlainWord>(m: T, root: T, table: &mut [Factor<T>]) -> bool {
    if !PlannedModulus::admits(m) {
        return false;
    }
    let entries = table.len();
    match Plan::new(&PlannedModulus::new(m), root, table) {
        Some(plan) => {
            plan.modulus().modulus == m
                && plan.root() == root
                && plan.bits() == entries.trailing_zeros() + 1
        }
        None => false,
    }
}

#[test]
fn plans_that_there_are(rt: HostRuntime) {
    let mut table = [Factor::<u64> {
        value: 0,
        quotient: 0,
    }; 8];
    for row in ADMITTED {
        let &(m, root, factors, is) = row;
        assert_at(&rt, is_plan(m, root, &mut table[..factors]) == is, row);
    }
}

// A modulus, a root, the factors of a table with their quotients, and whether the table is that of the root.
struct Table<'a> {
    m: u64,
    root: u64,
    entries: &'a [(u64, u64)],
    is: bool,
}

#[rattlefmt::skip]
const TABLES: &[Table] = &[
    Table { m: 17, root: 4, entries: &[(1, 1085102592571150095), (4, 4340410370284600380)], is: true },
    Table { m: 17, root: 2, entries: &[(1, 1085102592571150095), (4, 4340410370284600380), (2, 2170205185142300190),
        (8, 8680820740569200760)], is: true },
    Table { m: 1, root: 0, entries: &[(0, 0)], is: true },
    // powers of another root, in another order, and a last one that isn't
    Table { m: 17, root: 13, entries: &[(1, 1085102592571150095), (4, 4340410370284600380)], is: false },
    Table { m: 17, root: 2, entries: &[(1, 1085102592571150095), (2, 2170205185142300190), (4, 4340410370284600380),
        (8, 8680820740569200760)], is: false },
    Table { m: 17, root: 2, entries: &[(1, 1085102592571150095), (4, 4340410370284600380), (2, 2170205185142300190),
        (9, 9765923333140350855)], is: false },
    // a quotient that is one too small, and one that is one too great
    Table { m: 17, root: 4, entries: &[(1, 1085102592571150095), (4, 4340410370284600379)], is: false },
    Table { m: 17, root: 4, entries: &[(1, 1085102592571150096), (4, 4340410370284600380)], is: false },
    // a power that isn't reduced
    Table { m: 17, root: 4, entries: &[(18, 1085102592571150095), (4, 4340410370284600380)], is: false },
    // an even modulus, a root that isn't below the modulus, and lengths that aren't twice a power of two
    Table { m: 20, root: 19, entries: &[(1, 922337203685477580)], is: false },
    Table { m: 17, root: 21, entries: &[(1, 1085102592571150095), (4, 4340410370284600380)], is: false },
    Table { m: 17, root: 4, entries: &[], is: false },
    Table { m: 17, root: 4, entries: &[(1, 1085102592571150095), (4, 4340410370284600380), (16, 17361641481138401520)],
        is: false },
];

// Whether the row's table makes a plan with this modulus, root and length, and so is a copy; its factors get room.
fn is_plan_over(row: &Table, table: &mut [Factor<u64>]) -> bool {
    if !PlannedModulus::<u64>::admits(row.m) || row.entries.len() > table.len() {
        return false;
    }
    for i in 0..row.entries.len() {
        let (value, quotient) = row.entries[i];
        table[i] = Factor { value, quotient };
    }
    let m = PlannedModulus::<u64>::new(row.m);
    match Plan::with_table(&m, row.root, &table[..row.entries.len()]) {
        Some(plan) => {
            let copy = plan;
            plan.modulus() == m
                && plan.root() == row.root
                && plan.fits(2 * row.entries.len())
                && copy.length() == 2 * row.entries.len()
        }
        None => false,
    }
}

#[test]
fn tables_that_are_plans(rt: HostRuntime) {
    let mut table = [Factor::<u64> {
        value: 0,
        quotient: 0,
    }; 4];
    for i in 0..TABLES.len() {
        assert_at(
            &rt,
            is_plan_over(&TABLES[i], &mut table) == TABLES[i].is,
            &i,
        );
    }
}
