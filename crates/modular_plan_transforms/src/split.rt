//! From a polynomial to its remainders modulo X^last - c, in place, by stages; and the transform in natural order.

ghost use Rattle.std.specs.Prelude.{◌≡◌, ℕ, ◌+◌, ◌*◌, ◌/◌, ◌%◌, ◌^◌, ◌<◌, ◌≤◌, ◌↔◌, IsTrue, All, length};
ghost use Rattle.std.specs.Int.{IsPowerOfTwo};
ghost use Rattle.modular_transform.specs.Transforms.{transform};
ghost use Rattle.modular_plan_passes.specs.Factors.{AllFactors};
ghost use Rattle.modular_plan_passes.specs.Plans.{numbers, AreTwiddles, AreRemainders};
ghost use Rattle.modular_plan_passes.specs.Steps.{IsLevel};
ghost use Rattle.modular_plan_transforms.specs.PlanConditions.{AreBlocks, FitsPlan};

use modular_plan_passes::factor::PlanEntry;
use modular_plan_passes::modulus::{PlannedModulus, RoomyModulus};
use modular_plan_passes::split_stages::{split_fours, split_pass, split_stage};
use modular_plan_passes::split_steps::SplitSteps;
use modular_prim::plain_word::PlainWord;
use modular_transform::order::reverse_places;
// rattle: line
use modular_word::path_word::PathWord;

// Replaces each entry by its residue.
fn reduce_each<T: PlainWord, M: SplitSteps<T>>(m: &M, xs: &mut [T])
    requires { All (λ x. T.number x < M.limit m.now) xs.old }
    ensures residues { (i : ℕ) → i < length xs.old
        → numbers T.number xs.new i ≡ numbers T.number xs.old i % M.modulus m.now }
    ensures below { All (λ x. T.number x < M.modulus m.now) xs.new }
{
    'entries: for i in 0..xs.len() {
        xs[i] = m.residue(xs[i]);
    }
}

/// Whether `split` and `join` accept these sizes: a list of `length` entries, from block b down to blocks of `last`,
/// and a table of `factors` factors.
///
/// # Examples
///
/// ```
/// use num_modular::plans::splits;
///
/// assert!(splits(4, 2, 0, 1)); // two factors suffice for four entries
/// assert!(!splits(8, 2, 0, 1));
/// ```
#[tactic(auto, using(modular_transform::proofs::PowersOfTwo::power_of_two_tested))]
// rust instead: pub const fn splits(length: usize, factors: usize, b: usize, last: usize) -> bool
pub fn splits(length: usize, factors: usize, b: usize, last: usize) -> bool
    ensures { IsTrue result ↔ AreBlocks length factors b last }
{
    if last == 0 {
        return false;
    }
    let count = length / last;
    if !count.is_power_of_two() {
        return false;
    }
    if count * last != length {
        return false;
    }
    if count == 1 {
        return true;
    }
    b < factors / (count / 2)
}

/// All stages from block b down to blocks of `last` entries.
///
/// Where their number is odd, a single stage comes first, so that each other pass does two.
///
/// # Preconditions
///
/// - the entries are below 4m
/// - `last` is at least 1, the number of entries is `last` times a power of two, and the table has (b +
///   1)·(count/2) entries or more, count being the number of blocks
/// - the table's entries are factors modulo m
pub fn split_blocks<T: PlainWord, M: SplitSteps<T>, F: PlanEntry<T>>(
    m: &M,
    xs: &mut [T],
    table: &[F],
    b: usize,
    last: usize,
)
    requires { FitsPlan T.number F.value F.quotient T.base (M.modulus m.now) b last xs.old table.now }
    ensures entries { All (λ x. T.number x < M.limit m.now) xs.new }
    ensures level { let modulus = M.modulus m.now in (g z : ℕ) →
        AreTwiddles modulus g z (length table.now) (numbers F.value table.now) →
        IsLevel modulus g z b (length xs.old / last) last (numbers T.number xs.old) (numbers T.number xs.new) }
{
    let mut left = (xs.len() / last).trailing_zeros();
    let mut size = xs.len();
    let mut blocks = 1;
    'stages: while 0 < left {
        if left % 2 == 0 {
            size /= 4;
            split_pass(m, xs, size, blocks, table, b * blocks);
            blocks *= 4;
            left -= 2;
        } else {
            size /= 2;
            split_stage(m, xs, size, blocks, table, b * blocks);
            blocks *= 2;
            left -= 1;
        }
    }
}

// `split`, by the steps for a modulus of type M.
fn split_by<T: PlainWord, M: SplitSteps<T>, F: PlanEntry<T>>(
    m: &M,
    xs: &mut [T],
    table: &[F],
    b: usize,
    last: usize,
)
    requires { FitsPlan T.number F.value F.quotient T.base (M.modulus m.now) b last xs.old table.now }
    ensures below { All (λ x. T.number x < M.modulus m.now) xs.new }
    ensures remainders { let modulus = M.modulus m.now in (g z : ℕ) →
        AreTwiddles modulus g z (length table.now) (numbers F.value table.now) →
        AreRemainders modulus g z b (length xs.old / last) last (numbers T.number xs.old) (numbers T.number xs.new) }
{
    if last == 1 && 4 <= xs.len() {
        let fours = xs.len() / 4;
        split_blocks(m, xs, table, b, 4);
        split_fours(m, xs, fours, table, b * fours);
    } else {
        split_blocks(m, xs, table, b, last);
        reduce_each(m, xs);
    }
}

/// `split` without the residues: the entries are any words that are congruent to the remainders.
///
/// # Preconditions
///
/// - the conditions of `split` hold
#[tactic(auto, using(modular_plan_passes::proofs::Levels::remainders_of))]
pub fn split_loosely<T: PlainWord, F: PlanEntry<T>>(
    m: &PlannedModulus<T>,
    xs: &mut [T],
    table: &[F],
    b: usize,
    last: usize,
)
    requires entries { All (λ x. T.number x < 4 * T.number m.now.modulus) xs.old }
    requires factors { AllFactors T.base (T.number m.now.modulus) F.value F.quotient table.now }
    requires blocks { AreBlocks (length xs.old) (length table.now) b last }
    ensures remainders { let modulus = T.number m.now.modulus in (g z : ℕ) →
        AreTwiddles modulus g z (length table.now) (numbers F.value table.now) →
        AreRemainders modulus g z b (length xs.old / last) last (numbers T.number xs.old)
        (λ i. numbers T.number xs.new i % modulus) }
{
    match RoomyModulus::new(m) {
        Some(roomy) => split_blocks(&roomy, xs, table, b, last),
        None => split_blocks(m, xs, table, b, last),
    }
}

/// Splits block b into its remainders modulo X^last - c: in the tree of remainders, entry i of block j becomes the sum
/// over k of x_(k·last + i)·c^k modulo m, a coefficient of the remainder.
///
/// Here the table is that of a root g (`fill_table`), count is the number of blocks, and c is the power of g by the
/// reversed bits of b·count + j.
///
// rust instead: /// So b = 0 and last = 1 give the transform by g, in bit-reversed order; b = 1 starts from a
/// So b = 0 and last = 1 give the transform by g, in bit-reversed order ([`split_laws`]); b = 1 starts from a
/// polynomial modulo X^n + 1.
///
/// The table must be that of some root, of any length that suffices: with other factors modulo m, the results are below
/// m and meaningless.
///
/// Each pass over the list does two stages; a single one comes first where their number is odd.
///
/// Source: the sums and differences of Cooley and Tukey with one factor for each block, as in Bernstein,
/// "Multidigit multiplication for mathematicians", section 2.
///
/// # Conditions
///
/// - [`splits`] accepts the sizes: the number of entries is `last` times a power of two, and the table has at least
///   (b + 1)·(count/2) entries
/// - (debug) the entries are below 4m
/// - (debug) the table's entries are factors modulo m
///
/// # Examples
///
/// ```
/// use num_modular::plans::{fill_table, split, Factor, PlannedModulus};
///
/// let modulus = PlannedModulus::<u64>::new(17);
/// let mut table = [Factor::<u64>::ZERO; 2];
/// fill_table(&modulus, 4, &mut table);
/// let mut entries = [1, 2, 3, 4];
/// split(&modulus, &mut entries, &table, 0, 1);
/// assert_eq!(entries, [10, 15, 7, 6]); // 1 + 2X + 3X^2 + 4X^3 at 1, -1, 4 and -4
/// ```
// rust: #[track_caller]
pub fn split<T: PlainWord, F: PlanEntry<T>>(
    m: &PlannedModulus<T>,
    xs: &mut [T],
    table: &[F],
    b: usize,
    last: usize,
)
    requires entries { All (λ x. T.number x < 4 * T.number m.now.modulus) xs.old }
    requires factors { AllFactors T.base (T.number m.now.modulus) F.value F.quotient table.now }
    requires blocks { AreBlocks (length xs.old) (length table.now) b last }
    ensures below { All (λ x. T.number x < T.number m.now.modulus) xs.new }
    ensures remainders { let modulus = T.number m.now.modulus in (g z : ℕ) →
        AreTwiddles modulus g z (length table.now) (numbers F.value table.now) →
        AreRemainders modulus g z b (length xs.old / last) last (numbers T.number xs.old) (numbers T.number xs.new) }
{
    // rust: debug_assert!(xs.iter().all(|x| m.has_room(*x)), "the entries must be below 4m");
    // rust: assert!(crate::plans::splits(xs.len(), table.len(), b, last),
    // rust:     "the number of entries must be `last` times a power of two, and the table must have at least (b + 1)·(count/2) entries: {} entries, {} factors, b = {}, last = {}",
    // rust:     xs.len(), table.len(), b, last);
    // rust: crate::additions::expect_filled(m, table);
    // rust: debug_assert!(crate::additions::are_factors(m, xs.len(), table, b, last),
    // rust:     "the table's entries must be factors modulo m");
    match RoomyModulus::new(m) {
        Some(roomy) => split_by(&roomy, xs, table, b, last),
        None => split_by(m, xs, table, b, last),
    }
}

/// Replaces xs by its transform, in natural order: entry j becomes the sum over i of x_i·h^(i·j) modulo m, below m.
///
/// Here the table is that of a root g (`fill_table`), and h is g, or, where the table is for more entries, the power of
/// g that suits n entries. The table must be that of some root: with other factors modulo m, the results are below m
/// and meaningless.
///
/// Source: `split`, and a reversal of the bits of the indexes.
///
/// # Conditions
///
/// - n is a power of two, and at most twice as many as the table's factors
/// - (debug) the entries are below 4m
/// - (debug) the table's entries are factors modulo m
///
/// # Examples
///
/// ```
/// use num_modular::plans::{fill_table, ntt_planned, Factor, PlannedModulus};
///
/// let modulus = PlannedModulus::<u64>::new(17);
/// let mut table = [Factor::<u64>::ZERO; 2];
/// fill_table(&modulus, 4, &mut table);
/// let mut entries = [1, 2, 3, 4];
/// ntt_planned(&modulus, &mut entries, &table);
/// assert_eq!(entries, [10, 7, 15, 6]); // 1 + 2X + 3X^2 + 4X^3 at 1, 4, -1 and -4
/// ```
// rust: #[track_caller]
#[tactic(auto, using(modular_transform::proofs::PowersOfTwo::power_by_zeros))]
pub fn ntt_planned<T: PlainWord, F: PlanEntry<T>>(m: &PlannedModulus<T>, xs: &mut [T], table: &[F])
    requires entries { All (λ x. T.number x < 4 * T.number m.now.modulus) xs.old }
    requires factors { AllFactors T.base (T.number m.now.modulus) F.value F.quotient table.now }
    requires count { IsPowerOfTwo (length xs.old) }
    requires within { length xs.old / 2 ≤ length table.now }
    ensures below { All (λ x. T.number x < T.number m.now.modulus) xs.new }
    ensures values { let modulus = T.number m.now.modulus in (g z j : ℕ) →
        AreTwiddles modulus g z (length table.now) (numbers F.value table.now) → j < length xs.old →
        numbers T.number xs.new j ≡ transform modulus (g ^ (2 ^ z / length xs.old))
        (length xs.old) (numbers T.number xs.old) j }
{
    split(m, xs, table, 0, 1);
    let bits = xs.len().trailing_zeros();
    reverse_places(xs, bits);
}
