//! The passes of a join over all blocks: a stage, or two.

ghost use Rattle.std.specs.Prelude.{◌≡◌, ℕ, ◌+◌, ◌*◌, ◌^◌, ◌<◌, ◌≤◌, All, length};
ghost use Rattle.modular_plan_passes.specs.Factors.{IsFactorOf};
ghost use Rattle.modular_plan_passes.specs.Plans.{numbers, AreTwiddles};
ghost use Rattle.modular_plan_passes.specs.Splits.{AreFactorsOf, IsPassReady};
ghost use Rattle.modular_plan_passes.specs.Steps.{StageDone};
ghost use Rattle.modular_plan_passes.specs.Joins.{IsPairJoin, IsMinusInverse, AreMinusInverses};
ghost use Rattle.modular_plan_passes.specs.JoinPasses.{IsTableOfFactors, IsStageReady, IsJoinPassReady, IsPassJoined};

use crate::factor::{Factor, PlanEntry};
use crate::join_steps::{JoinFour, JoinLowered, JoinPair, JoinSteps};
use crate::passes::{neighbours, pairs, quarters};
use modular_prim::plain_word::PlainWord;
// rattle: line
use modular_word::path_word::PathWord;
// rattle: line
use modular_word::ring_word::RingWord;

// The index with the bits below its highest bit 2^k inverted.
#[tactic(auto, using(crate::proofs::Mirrors::place_and_mirror_sum))]
fn mirrored(place: usize) -> usize
    requires { 0 < place }
    ensures { (k : ℕ) × (2 ^ k ≤ place) × (place < 2 * 2 ^ k) × (place + result + 1 ≡ 3 * 2 ^ k) }
{
    // rust instead: let power = 1 << crate::additions::ilog2(place);
    let power = 1 << place.ilog2();
    power + (power - 1 - (place - power))
}

// How many indexes from this one on have the same highest bit 2^k, and this one with its lower bits inverted.
fn mirrored_run(place: usize) -> (usize, usize)
    requires { 0 < place }
    ensures { (k : ℕ) × (2 ^ k ≤ place) × (0 < result.0) × (place + result.0 ≡ 2 * 2 ^ k)
        × (place + result.1 + 1 ≡ 3 * 2 ^ k) }
{
    // rust instead: let power = 1 << crate::additions::ilog2(place);
    let power = 1 << place.ilog2();
    let above = place - power;
    (power - above, power + (power - 1 - above))
}

// Minus the inverse of the factor at an index: the factor at the mirrored index, or -1 for index 0. Where the table
// isn't that of a root the mirrored index may be out of bounds.
fn minus_inverse<T: PlainWord, F: PlanEntry<T>, M: JoinSteps<T>>(
    m: &M,
    table: &[F],
    place: usize,
    minus: Factor<T>,
) -> Factor<T>
    requires factors { IsTableOfFactors T.base (M.modulus m.now) F.value F.quotient table.now
        (T.number minus.value) (T.number minus.quotient) }
    requires within { place < length table.now }
    ensures factor { IsFactorOf T.base T.number (M.modulus m.now) result }
    ensures inverse { let modulus = M.modulus m.now in
        let w = numbers F.value table.now in (g z : ℕ) →
        AreTwiddles modulus g z (length table.now) w → IsMinusInverse modulus (w place) (T.number result.value) }
{
    // rust: let _ = m;
    if place == 0 {
        return minus;
    }
    let other = mirrored(place);
    if other < table.len() {
        table[other].factor()
    } else {
        minus
    }
}

/// Minus the inverses of the factors of a block and of its halves.
///
/// One mirrored index gives all three: those of the halves are at twice that index, in the opposite order.
///
/// # Preconditions
///
/// - the table's entries are factors modulo m
/// - the factors of the block and of its halves are among the table's entries
/// - `minus` is the factor -1
pub fn minus_inverses<T: PlainWord, F: PlanEntry<T>, M: JoinSteps<T>>(
    m: &M,
    table: &[F],
    place: usize,
    minus: Factor<T>,
) -> (Factor<T>, Factor<T>, Factor<T>)
    requires factors { IsTableOfFactors T.base (M.modulus m.now) F.value F.quotient table.now
        (T.number minus.value) (T.number minus.quotient) }
    requires within { 2 * place + 1 < length table.now }
    ensures factors { AreFactorsOf T.base T.number (M.modulus m.now) result.0 result.1 result.2 }
    ensures inverses { let modulus = M.modulus m.now in
        let w = numbers F.value table.now in (g z : ℕ) →
        AreTwiddles modulus g z (length table.now) w → AreMinusInverses modulus (w place) (w (2 * place)) (w (2 * place + 1))
        (T.number result.0.value) (T.number result.1.value) (T.number result.2.value) }
{
    // rust: let _ = m;
    if place == 0 {
        return (minus, minus, table[1].factor());
    }
    let other = mirrored(place);
    if other < table.len() / 2 {
        (
            table[other].factor(),
            table[2 * other + 1].factor(),
            table[2 * other].factor(),
        )
    } else {
        (minus, minus, minus)
    }
}

/// Joins all blocks of a stage, block p by entry first + p of the table.
///
/// # Preconditions
///
/// - the blocks, of 2·half entries each, fill the list, and half is at least 1
/// - the list's entries are below the bound
/// - the table's entries are factors modulo m, one for each block
/// - `minus` is the factor -1
#[tactic(auto, using(crate::proofs::PairSteps::stage_none))]
pub fn join_stage<T: PlainWord, F: PlanEntry<T>, M: JoinSteps<T>>(
    m: &M,
    xs: &mut [T],
    half: usize,
    blocks: usize,
    table: &[F],
    first: usize,
    minus: &Factor<T>,
)
    requires { IsStageReady T.number F.value F.quotient T.base (M.modulus m.now) (M.bound m.now)
        half blocks first (T.number minus.now.value) (T.number minus.now.quotient) xs.old table.now }
    ensures entries { All (λ x. T.number x < M.bound m.now) xs.new }
    ensures done { let modulus = M.modulus m.now in
        let w = numbers F.value table.now in (g z : ℕ) →
        AreTwiddles modulus g z (length table.now) w →
        StageDone (λ p. IsPairJoin modulus (w (first + p))) half blocks
        (numbers T.number xs.old) (numbers T.number xs.new) }
{
    'each_block: for p in 0..blocks {
        let v = minus_inverse(m, table, first + p, *minus);
        let step = JoinPair { m: *m, v };
        pairs(m, &step, xs, p * (half + half), half);
    }
}

// Two stages of all blocks: block p by entry first + p of the table, and its halves by the entries 2·(first + p)
// and 2·(first + p) + 1.
#[inline(always)]
#[tactic(auto, using(crate::proofs::Fours::stage_of_fours_none))]
fn join_two_stages<T: PlainWord, F: PlanEntry<T>, M: JoinSteps<T>>(
    m: &M,
    xs: &mut [T],
    q: usize,
    blocks: usize,
    table: &[F],
    first: usize,
    minus: &Factor<T>,
)
    requires { IsJoinPassReady T.number F.value F.quotient T.base (M.modulus m.now) (M.bound m.now)
        q blocks first (T.number minus.now.value) (T.number minus.now.quotient) xs.old table.now }
    ensures { IsPassJoined T.number F.value (M.modulus m.now) (M.bound m.now) q blocks first table.now
        xs.old xs.new }
{
    'four_quarters: for p in 0..blocks {
        let (w, u, v) = minus_inverses(m, table, first + p, *minus);
        let half = q + q;
        let step = JoinFour { m: *m, w, u, v };
        quarters(m, &step, xs, p * (half + half), q);
    }
}

/// Two stages of all blocks, with each power of four up to 1024 as a constant length, for the reason given at
/// [`split_known`].
///
/// # Preconditions
///
/// - the blocks, of 4·q entries each, fill the list, and q is at least 1
/// - the list's entries are below the bound
/// - the table's entries are factors modulo m, one for each block and two for its halves
/// - `minus` is the factor -1
pub fn join_known<T: PlainWord, F: PlanEntry<T>, M: JoinSteps<T>>(
    m: &M,
    xs: &mut [T],
    q: usize,
    blocks: usize,
    table: &[F],
    first: usize,
    minus: &Factor<T>,
)
    requires { IsJoinPassReady T.number F.value F.quotient T.base (M.modulus m.now) (M.bound m.now)
        q blocks first (T.number minus.now.value) (T.number minus.now.quotient) xs.old table.now }
    ensures { IsPassJoined T.number F.value (M.modulus m.now) (M.bound m.now) q blocks first table.now
        xs.old xs.new }
{
    match q {
        4 => join_two_stages(m, xs, 4, blocks, table, first, minus),
        16 => join_two_stages(m, xs, 16, blocks, table, first, minus),
        64 => join_two_stages(m, xs, 64, blocks, table, first, minus),
        256 => join_two_stages(m, xs, 256, blocks, table, first, minus),
        1024 => join_two_stages(m, xs, 1024, blocks, table, first, minus),
        _ => join_two_stages(m, xs, q, blocks, table, first, minus),
    }
}

// `join_fours`, block by block.
#[inline(always)]
fn join_each<T: PlainWord, F: PlanEntry<T>, M: JoinSteps<T>>(
    m: &M,
    xs: &mut [T],
    blocks: usize,
    table: &[F],
    first: usize,
    minus: &Factor<T>,
)
    requires { IsJoinPassReady T.number F.value F.quotient T.base (M.modulus m.now) (4 * M.modulus m.now)
        1 blocks first (T.number minus.now.value) (T.number minus.now.quotient) xs.old table.now }
    ensures { IsPassJoined T.number F.value (M.modulus m.now) (M.bound m.now) 1 blocks first table.now
        xs.old xs.new }
{
    'fours: for p in 0..blocks {
        let (w, u, v) = minus_inverses(m, table, first + p, *minus);
        let place = p * 4;
        // Unreachable (see `is_beyond`).
        if m.is_beyond(xs[place]) {
            // rust instead: panic!("the entries must be below 4m");
            return;
        }
        let step = JoinFour { m: *m, w, u, v };
        neighbours(&JoinLowered { step }, xs, place);
    }
}

// `join_fours` for blocks whose indexes in the table have the same highest bit. The factors are taken from the ends of
// two parts of the table, which get shorter: compilers would test each of the indexes, which descend, and then not
// vectorize the loop. Conditions: those of `join_fours`; the mirrored indexes are in the table, and `last` is the first
// block's.
#[inline(always)]
fn join_mirrored<T: PlainWord, F: PlanEntry<T>, M: JoinSteps<T>>(
    m: &M,
    xs: &mut [T],
    blocks: usize,
    table: &[F],
    first: usize,
    last: usize,
)
    requires pass { IsPassReady T.number F.value F.quotient T.base (M.modulus m.now) (4 * M.modulus m.now)
        1 blocks first xs.old table.now }
    requires mirrored { (k : ℕ) × (2 ^ k ≤ first) × (first + blocks ≤ 2 * 2 ^ k) × (first + last + 1 ≡ 3 * 2 ^ k) }
    requires within { 2 * last + 1 < length table.now }
    ensures { IsPassJoined T.number F.value (M.modulus m.now) (M.bound m.now) 1 blocks first table.now
        xs.old xs.new }
{
    // rust: let _ = first;
    let (mut own, _after) = table.split_at(last + 1);
    let (mut halves, _rest) = table.split_at(2 * last + 2);
    'fours: for p in 0..blocks {
        let (others, one) = own.split_at(own.len() - 1);
        let (before, two) = halves.split_at(halves.len() - 2);
        own = others;
        halves = before;
        let place = p * 4;
        // Unreachable (see `is_beyond`).
        if m.is_beyond(xs[place]) {
            // rust instead: panic!("the entries must be below 4m");
            return;
        }
        let w = one[0].factor();
        let u = two[1].factor();
        let v = two[0].factor();
        let step = JoinFour { m: *m, w, u, v };
        neighbours(&JoinLowered { step }, xs, place);
    }
}

// `join_fours`, by `join_mirrored` where the blocks suit it.
fn join_run<T: PlainWord, F: PlanEntry<T>, M: JoinSteps<T>>(
    m: &M,
    xs: &mut [T],
    blocks: usize,
    table: &[F],
    first: usize,
    minus: &Factor<T>,
)
    requires { IsJoinPassReady T.number F.value F.quotient T.base (M.modulus m.now) (4 * M.modulus m.now)
        1 blocks first (T.number minus.now.value) (T.number minus.now.quotient) xs.old table.now }
    ensures { IsPassJoined T.number F.value (M.modulus m.now) (M.bound m.now) 1 blocks first table.now
        xs.old xs.new }
{
    if 0 < first {
        let (run, last) = mirrored_run(first);
        if blocks <= run && last < table.len() / 2 {
            return join_mirrored(m, xs, blocks, table, first, last);
        }
    }
    join_each(m, xs, blocks, table, first, minus);
}

// `join_fours` for many blocks: those of each highest bit in turn, so that compilers vectorize the loop for words of 32
// bits.
#[inline(never)]
fn join_many<T: PlainWord, F: PlanEntry<T>, M: JoinSteps<T>>(
    m: &M,
    xs: &mut [T],
    blocks: usize,
    table: &[F],
    first: usize,
    minus: &Factor<T>,
)
    requires { IsJoinPassReady T.number F.value F.quotient T.base (M.modulus m.now) (4 * M.modulus m.now)
        1 blocks first (T.number minus.now.value) (T.number minus.now.quotient) xs.old table.now }
    ensures { IsPassJoined T.number F.value (M.modulus m.now) (M.bound m.now) 1 blocks first table.now
        xs.old xs.new }
{
    let run = if first == 0 {
        16
    } else {
        mirrored_run(first).0
    };
    if blocks <= run {
        join_run(m, xs, blocks, table, first, minus);
    } else {
        let (low, high) = xs.split_at_mut(4 * run);
        join_run(m, low, run, table, first, minus);
        join_many(m, high, blocks - run, table, first + run, minus);
    }
}

/// The first two stages of all blocks of four entries, which makes them less than the bound: block p by entry first
/// + p of the table, and its halves by the entries 2·(first + p) and 2·(first + p) + 1.
///
/// # Preconditions
///
/// - the blocks fill the list
/// - the list's entries are below 4m
/// - the table's entries are factors modulo m, one for each block and two for its halves
/// - `minus` is the factor -1
#[inline(always)]
pub fn join_fours<T: PlainWord, F: PlanEntry<T>, M: JoinSteps<T>>(
    m: &M,
    xs: &mut [T],
    blocks: usize,
    table: &[F],
    first: usize,
    minus: &Factor<T>,
)
    requires { IsJoinPassReady T.number F.value F.quotient T.base (M.modulus m.now) (4 * M.modulus m.now)
        1 blocks first (T.number minus.now.value) (T.number minus.now.quotient) xs.old table.now }
    ensures { IsPassJoined T.number F.value (M.modulus m.now) (M.bound m.now) 1 blocks first table.now
        xs.old xs.new }
{
    if blocks < 32 {
        join_each(m, xs, blocks, table, first, minus);
    } else {
        join_many(m, xs, blocks, table, first, minus);
    }
}
