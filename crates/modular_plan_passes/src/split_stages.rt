//! The passes of a split over all blocks: a stage, or two.

ghost use Rattle.std.specs.Prelude.{◌≡◌, ℕ, ◌+◌, ◌*◌, ◌<◌, ◌≤◌, All, length};
ghost use Rattle.modular_plan_passes.specs.Factors.{AllFactors};
ghost use Rattle.modular_plan_passes.specs.Plans.{numbers};
ghost use Rattle.modular_plan_passes.specs.Splits.{AreFactorsOf, IsPassDone, IsPassReady};
ghost use Rattle.modular_plan_passes.specs.Steps.{IsPairSplit, StageDone};

use crate::factor::{Factor, PlanEntry};
use crate::passes::{neighbours, pairs, quarters};
use crate::split_steps::{SplitByOne, SplitFour, SplitPair, SplitSteps, SplitToResidues};
use modular_prim::plain_word::PlainWord;
// rattle: line
use modular_word::path_word::PathWord;

/// Splits all blocks of a stage, block p by entry first + p of the table.
///
/// # Preconditions
///
/// - the blocks, of 2·half entries each, fill the list, and half is at least 1
/// - the list's entries are below the limit
/// - the table's entries are factors modulo m, one for each block
#[tactic(auto, using(crate::proofs::FourColumns::factor_read, crate::proofs::PairSteps::stage_all, crate::proofs::PairSteps::stage_none))]
pub fn split_stage<T: PlainWord, M: SplitSteps<T>, F: PlanEntry<T>>(
    m: &M,
    xs: &mut [T],
    half: usize,
    blocks: usize,
    table: &[F],
    first: usize,
)
    requires entries { All (λ x. T.number x < M.limit m.now) xs.old }
    requires factors { AllFactors T.base (M.modulus m.now) F.value F.quotient table.now }
    requires whole { blocks * (half + half) ≡ length xs.old }
    requires within { first + blocks ≤ length table.now }
    requires some { 0 < half }
    ensures entries { All (λ x. T.number x < M.limit m.now) xs.new }
    ensures done { StageDone
        (λ p. IsPairSplit (M.modulus m.now) (numbers F.value table.now (first + p))) half blocks
        (numbers T.number xs.old) (numbers T.number xs.new) }
{
    'each_block: for p in 0..blocks {
        let w = table[first + p].factor();
        let step = SplitPair { m: *m, w };
        pairs(m, &step, xs, p * (half + half), half);
    }
}

// The factor of the block with this index in the table, and the factors of its halves.
#[inline(always)]
#[tactic(auto, using(crate::proofs::Entries::number_read, crate::proofs::FourColumns::factor_read))]
fn factors_at<T: PlainWord, F: PlanEntry<T>>(
    table: &[F],
    place: usize,
) -> (Factor<T>, Factor<T>, Factor<T>)
    requires { 2 * place + 1 < length table.now }
    ensures factors { (m : ℕ) → AllFactors T.base m F.value F.quotient table.now →
        AreFactorsOf T.base T.number m result.0 result.1 result.2 }
    ensures values { let w = numbers F.value table.now in (T.number result.0.value ≡ w place)
        × (T.number result.1.value ≡ w (2 * place)) × (T.number result.2.value ≡ w (2 * place + 1)) }
{
    let w = table[place].factor();
    let u = table[2 * place].factor();
    let v = table[2 * place + 1].factor();
    (w, u, v)
}

// Two stages of all blocks: block p by entry first + p of the table, and its halves by the entries 2·(first + p)
// and 2·(first + p) + 1.
#[inline(always)]
fn split_two_stages<T: PlainWord, M: SplitSteps<T>, F: PlanEntry<T>>(
    m: &M,
    xs: &mut [T],
    q: usize,
    blocks: usize,
    table: &[F],
    first: usize,
)
    requires { IsPassReady T.number F.value F.quotient T.base (M.modulus m.now) (M.limit m.now)
        q blocks first xs.old table.now }
    ensures { IsPassDone T.number F.value (M.modulus m.now) (M.limit m.now) q blocks first table.now
        xs.old xs.new }
{
    'four_quarters: for p in 0..blocks {
        let (w, u, v) = factors_at(table, first + p);
        let half = q + q;
        let step = SplitFour { m: *m, w, u, v };
        quarters(m, &step, xs, p * (half + half), q);
    }
}

// `split_two_stages` for each power of four up to 1024 as a constant length: compilers then address the four
// quarters by one pointer.
fn split_known<T: PlainWord, M: SplitSteps<T>, F: PlanEntry<T>>(
    m: &M,
    xs: &mut [T],
    q: usize,
    blocks: usize,
    table: &[F],
    first: usize,
)
    requires { IsPassReady T.number F.value F.quotient T.base (M.modulus m.now) (M.limit m.now)
        q blocks first xs.old table.now }
    ensures { IsPassDone T.number F.value (M.modulus m.now) (M.limit m.now) q blocks first table.now
        xs.old xs.new }
{
    match q {
        1 => split_two_stages(m, xs, 1, blocks, table, first),
        4 => split_two_stages(m, xs, 4, blocks, table, first),
        16 => split_two_stages(m, xs, 16, blocks, table, first),
        64 => split_two_stages(m, xs, 64, blocks, table, first),
        256 => split_two_stages(m, xs, 256, blocks, table, first),
        1024 => split_two_stages(m, xs, 1024, blocks, table, first),
        _ => split_two_stages(m, xs, q, blocks, table, first),
    }
}

/// A pass of two stages, block p by entry first + p of the table.
///
/// The first pass of a transform takes one product in place of four, since a root's table begins with 1.
///
/// # Preconditions
///
/// - the blocks, of 4·q entries each, fill the list, and q is at least 1
/// - the list's entries are below the limit, and below 4m where there is only one block
/// - the table's entries are factors modulo m, one for each block and two for its halves
#[tactic(auto, using(crate::proofs::FourColumns::factor_read))]
pub fn split_pass<T: PlainWord, M: SplitSteps<T>, F: PlanEntry<T>>(
    m: &M,
    xs: &mut [T],
    q: usize,
    blocks: usize,
    table: &[F],
    first: usize,
)
    requires ready { IsPassReady T.number F.value F.quotient T.base (M.modulus m.now) (M.limit m.now)
        q blocks first xs.old table.now }
    requires first_entries { blocks ≡ 1 → All (λ x. T.number x < 4 * M.modulus m.now) xs.old }
    ensures { IsPassDone T.number F.value (M.modulus m.now) (M.limit m.now) q blocks first table.now
        xs.old xs.new }
{
    if blocks == 1 && first == 0 && table[0].factor().is_one() {
        let v = table[1].factor();
        let step = SplitByOne { m: *m, v };
        quarters(m, &step, xs, 0, q);
    } else {
        split_known(m, xs, q, blocks, table, first);
    }
}

/// The last two stages, which also reduce: those of [`split_pass`] on each four neighbours, and their residues.
///
/// # Preconditions
///
/// - the blocks, of four entries each, fill the list
/// - the list's entries are below the limit
/// - the table's entries are factors modulo m, one for each block and two for its halves
pub fn split_fours<T: PlainWord, M: SplitSteps<T>, F: PlanEntry<T>>(
    m: &M,
    xs: &mut [T],
    blocks: usize,
    table: &[F],
    first: usize,
)
    requires { IsPassReady T.number F.value F.quotient T.base (M.modulus m.now) (M.limit m.now)
        1 blocks first xs.old table.now }
    ensures { IsPassDone T.number F.value (M.modulus m.now) (M.modulus m.now) 1 blocks first table.now
        xs.old xs.new }
{
    'fours: for p in 0..blocks {
        let (w, u, v) = factors_at(table, first + p);
        let place = p * 4;
        // Unreachable (see `is_beyond`).
        if m.is_beyond(xs[place]) {
            // rust instead: panic!("the entries must be below 4m");
            return;
        }
        let step = SplitFour { m: *m, w, u, v };
        neighbours(&SplitToResidues { step }, xs, place);
    }
}
