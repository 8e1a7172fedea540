//! What the tests of plans share: rows of calls on one list or on two, and what checks them.

ghost use Rattle.std.specs.Prelude.{◌*◌, ◌<◌, IsTrue, All};
ghost use Rattle.num_modular.specs.Factors.{IsFactorOf, AllFactors};

use modular_prim::plain_word::PlainWord;
use modular_reduced::reducer::Reducer;
use modular_reduced::vanilla::Vanilla;
use modular_transform::transform::root_fits;
use modular_word::path_word::PathWord;
use modular_word::ring_word::RingWord;
use num_modular::plans::{
    Factor, PlanEntry, PlannedModulus, convolve_block, convolve_negacyclic, convolve_planned,
    convolves, fill_table, join, join_scaled, multiply, ntt_planned, split, splits,
};
use test_callers::plans::all_in_room;

/// What is called: on one list `split`, `join`, `join_scaled` with a number, or `ntt_planned`; on two lists
/// `multiply`, or `convolve_block`, whose blocks 0 and 1 have functions of their own.
pub enum Call<T> {
    Split,
    Join,
    Scaled(T),
    InOrder,
    Multiply,
    Convolve,
}

/// A row: the modulus, a root and how many factors the table of the root has; the block and how many entries
/// the last blocks have; one list, or two of the same length, one after the other; and what a call makes of them.
pub struct Row<'a, T> {
    pub m: T,
    pub root: T,
    pub factors: usize,
    pub block: usize,
    pub last: usize,
    pub lists: &'a [T],
    pub want: &'a [T],
}

/// Whether each entry is below m. A loop, since a closure takes longer to prove.
pub fn all_below<T: PlainWord>(m: &PlannedModulus<T>, xs: &[T]) -> bool
    ensures { IsTrue result → All (λ x. T.number x < T.number m.now.modulus) xs.now }
{
    // rust instead: 'entries: for i in 0..xs.len() {
    'entries: for i in 0..xs.len() {
        if !xs[i].is_below(m.modulus) {
            return false;
        }
    }
    true
}

// Whether the table becomes that of g, which is for twice as many entries as it has factors.
fn is_planned<T: PlainWord>(m: &PlannedModulus<T>, g: T, table: &mut [Factor<T>]) -> bool
    ensures { IsTrue result → All (IsFactorOf T.base T.number (T.number m.now.modulus)) table.new }
{
    if !g.is_below(m.modulus) || table.len() > 64 {
        return false;
    }
    let r = Vanilla::new(&m.modulus);
    if !root_fits(&r, &g, 2 * table.len()) {
        return false;
    }
    fill_table(m, g, table);
    true
}

// Whether the conditions of a call on one list hold, and it is carried out.
fn is_done<T: PlainWord, F: PlanEntry<T>>(
    m: &PlannedModulus<T>,
    call: &Call<T>,
    xs: &mut [T],
    table: &[F],
    b: usize,
    last: usize,
) -> bool
    requires { AllFactors T.base (T.number m.now.modulus) F.value F.quotient table.now }
{
    if !splits(xs.len(), table.len(), b, last) {
        return false;
    }
    if !all_in_room(m, xs) {
        return false;
    }
    match call {
        Call::Split => split(m, xs, table, b, last),
        Call::Join => join(m, xs, table, b, last),
        Call::Scaled(w) => {
            if !w.is_below(m.modulus) {
                return false;
            }
            join_scaled(m, xs, table, b, last, &m.factor(*w));
        }
        _ => {
            if b != 0 {
                return false;
            }
            if last != 1 {
                return false;
            }
            ntt_planned(m, xs, table);
        }
    }
    true
}

// Whether the conditions of `multiply` hold, and it is carried out. It accepts any words in the second list.
fn is_multiplied<T: PlainWord, F: PlanEntry<T>>(
    m: &PlannedModulus<T>,
    xs: &mut [T],
    ys: &[T],
    table: &[F],
    b: usize,
    last: usize,
) -> bool
    requires { AllFactors T.base (T.number m.now.modulus) F.value F.quotient table.now }
{
    if xs.len() != ys.len() {
        return false;
    }
    if !convolves(xs.len(), table.len(), b, last) {
        return false;
    }
    if !all_below(m, xs) {
        return false;
    }
    multiply(m, xs, ys, table, b, last);
    true
}

// What the product as block b returns; `None` where its conditions don't hold.
fn convolved<T: PlainWord, F: PlanEntry<T>>(
    m: &PlannedModulus<T>,
    xs: &mut [T],
    ys: &mut [T],
    table: &[F],
    b: usize,
    last: usize,
) -> Option<bool>
    requires { AllFactors T.base (T.number m.now.modulus) F.value F.quotient table.now }
{
    if xs.len() != ys.len() {
        return None;
    }
    if !convolves(xs.len(), table.len(), b, last) {
        return None;
    }
    if !all_in_room(m, xs) {
        return None;
    }
    if !all_in_room(m, ys) {
        return None;
    }
    if b == 0 {
        Some(convolve_planned(m, xs, ys, table, last))
    } else if b == 1 {
        Some(convolve_negacyclic(m, xs, ys, table, last))
    } else {
        Some(convolve_block(m, xs, ys, table, b, last))
    }
}

// What the call returns, and true where it returns nothing; `None` where its conditions don't hold.
fn called<T: PlainWord, F: PlanEntry<T>>(
    m: &PlannedModulus<T>,
    call: &Call<T>,
    lists: &mut [T],
    table: &[F],
    b: usize,
    last: usize,
) -> Option<bool>
    requires { AllFactors T.base (T.number m.now.modulus) F.value F.quotient table.now }
{
    let half = lists.len() / 2;
    let is_done = match call {
        Call::Convolve => {
            let (xs, ys) = lists.split_at_mut(half);
            return convolved(m, xs, ys, table, b, last);
        }
        Call::Multiply => {
            let (xs, ys) = lists.split_at_mut(half);
            is_multiplied(m, xs, ys, table, b, last)
        }
        _ => is_done(m, call, lists, table, b, last),
    };
    if is_done { Some(true) } else { None }
}

/// The first places of a room, with the list there as far as there is room.
pub fn placed<'a, T: RingWord>(room: &'a mut [T], list: &[T]) -> &'a mut [T] {
    let n = list.len().min(room.len());
    room[..n].copy_from_slice(&list[..n]);
    &mut room[..n]
}

/// Whether two lists are the same.
pub fn are_same<T: RingWord>(xs: &[T], ys: &[T]) -> bool {
    for i in 0..xs.len() {
        if i >= ys.len() || xs[i] != ys[i] {
            return false;
        }
    }
    xs.len() == ys.len()
}

// Whether the call gives this answer and leaves the row's lists, with room for a table and the lists.
fn is_right<T: PlainWord>(
    call: &Call<T>,
    answer: Option<bool>,
    row: &Row<T>,
    table: &mut [Factor<T>],
    room: &mut [T],
) -> bool {
    if !PlannedModulus::admits(row.m) || row.factors > table.len() {
        return false;
    }
    let m = PlannedModulus::new(row.m);
    let table = &mut table[..row.factors];
    let lists = placed(room, row.lists);
    is_planned(&m, row.root, table)
        && called(&m, call, lists, table, row.block, row.last) == answer
        && are_same(lists, row.want)
}

// The place of the first row for which that isn't so.
fn first_wrong<T: PlainWord>(
    call: &Call<T>,
    answer: Option<bool>,
    rows: &[Row<T>],
    table: &mut [Factor<T>],
    room: &mut [T],
) -> Option<usize> {
    for i in 0..rows.len() {
        if !is_right(call, answer, &rows[i], table, room) {
            return Some(i);
        }
    }
    None
}

/// The place of the first row whose call doesn't give this answer, or leaves other lists. The answer is what the call
/// returns, true where it returns nothing, and `None` where its conditions don't hold.
pub fn first_wrong_16(call: &Call<u16>, answer: Option<bool>, rows: &[Row<u16>]) -> Option<usize> {
    let mut table = [Factor::<u16> {
        value: 0,
        quotient: 0,
    }; 8];
    first_wrong(call, answer, rows, &mut table, &mut [0; 32])
}

/// The same of words of 32 bits.
pub fn first_wrong_32(call: &Call<u32>, answer: Option<bool>, rows: &[Row<u32>]) -> Option<usize> {
    let mut table = [Factor::<u32> {
        value: 0,
        quotient: 0,
    }; 8];
    first_wrong(call, answer, rows, &mut table, &mut [0; 32])
}

/// The same of words of 64 bits.
pub fn first_wrong_64(call: &Call<u64>, answer: Option<bool>, rows: &[Row<u64>]) -> Option<usize> {
    let mut table = [Factor::<u64> {
        value: 0,
        quotient: 0,
    }; 8];
    first_wrong(call, answer, rows, &mut table, &mut [0; 32])
}
