//! From remainders modulo X^last - c back to the polynomial, in place, by stages.

ghost use Rattle.std.specs.Prelude.{◌≡◌, ℕ, ◌+◌, ◌*◌, ◌/◌, ◌%◌, ◌<◌, ◌≤◌, All, length};
ghost use Rattle.std.specs.Int.{IsPowerOfTwo};
ghost use Rattle.modular_word.specs.Congruence.{Congruent};
ghost use Rattle.modular_plan_passes.specs.Factors.{IsFactorOf, AllFactors};
ghost use Rattle.modular_plan_passes.specs.Plans.{numbers, AreTwiddles, AreRemainders};
ghost use Rattle.modular_plan_transforms.specs.PlanConditions.{AreBlocks, FitsPlan, IsLevelReady, IsLevelJoined};

use modular_plan_passes::factor::{Factor, PlanEntry};
use modular_plan_passes::join_stages::{join_fours, join_known, join_stage, minus_inverses};
use modular_plan_passes::join_steps::{JoinByOne, JoinSteps};
use modular_plan_passes::modulus::{PlannedModulus, RoomyModulus};
use modular_plan_passes::passes::quarters;
use modular_prim::plain_word::PlainWord;
// rattle: line
use modular_word::path_word::PathWord;
// rattle: line
use modular_word::ring_word::RingWord;

// Replaces each entry by a congruent one below the bound.
fn lower_each<T: PlainWord, M: JoinSteps<T>>(m: &M, xs: &mut [T])
    requires { All (λ x. T.number x < 4 * M.modulus m.now) xs.old }
    ensures below { All (λ x. T.number x < M.bound m.now) xs.new }
    ensures congruent { (i : ℕ) → i < length xs.old
        → Congruent (M.modulus m.now) (numbers T.number xs.new i) (numbers T.number xs.old i) }
{
    'entries: for i in 0..xs.len() {
        xs[i] = m.lowered(xs[i]);
    }
}

// Replaces each entry by its residue.
fn reduce_each<T: PlainWord, M: JoinSteps<T>>(m: &M, xs: &mut [T])
    requires { All (λ x. T.number x < M.bound m.now) xs.old }
    ensures residues { (i : ℕ) → i < length xs.old
        → numbers T.number xs.new i ≡ numbers T.number xs.old i % M.modulus m.now }
    ensures below { All (λ x. T.number x < M.modulus m.now) xs.new }
{
    'entries: for i in 0..xs.len() {
        xs[i] = m.residue(xs[i]);
    }
}

/// The stages that start from blocks of `last` entries.
///
/// The result is the number of blocks times the list whose remainders the entries are, below the bound.
///
/// # Preconditions
///
/// - the list's entries are below the bound
/// - `last` is at least 1, the number of entries is `last` times a power of two, and the table has (b +
///   1)·(count/2) entries or more, count being the number of blocks
/// - the table's entries are factors modulo m
/// - `minus` is the factor -1
pub fn join_blocks<T: PlainWord, F: PlanEntry<T>, M: JoinSteps<T>>(
    m: &M,
    xs: &mut [T],
    table: &[F],
    b: usize,
    last: usize,
    minus: &Factor<T>,
)
    requires { IsLevelReady T.number F.value F.quotient T.base (M.modulus m.now) (M.bound m.now)
        b last (T.number minus.now.value) (T.number minus.now.quotient) xs.old table.now }
    ensures entries { All (λ x. T.number x < M.bound m.now) xs.new }
    ensures joined { let modulus = M.modulus m.now in (g z : ℕ) (x : ℕ → ℕ) →
        AreTwiddles modulus g z (length table.now) (numbers F.value table.now) →
        AreRemainders modulus g z b (length xs.old / last) last x (λ i. numbers T.number xs.old i % modulus) →
        (i : ℕ) → i < length xs.old → Congruent modulus (numbers T.number xs.new i) (length xs.old / last * x i) }
{
    let mut size = last;
    let mut blocks = xs.len() / last;
    'stages: while size < xs.len() {
        if 2 < blocks {
            blocks /= 4;
            join_known(m, xs, size, blocks, table, b * blocks, minus);
            size *= 4;
        } else {
            blocks /= 2;
            join_stage(m, xs, size, blocks, table, b * blocks, minus);
            size *= 2;
        }
    }
}

/// The passes of two stages while more than four blocks are left.
///
/// Returns the length of the blocks then.
///
/// # Preconditions
///
/// - the conditions of `join_blocks` hold
pub fn join_passes<T: PlainWord, F: PlanEntry<T>, M: JoinSteps<T>>(
    m: &M,
    xs: &mut [T],
    table: &[F],
    b: usize,
    last: usize,
    minus: &Factor<T>,
) -> usize
    requires { IsLevelReady T.number F.value F.quotient T.base (M.modulus m.now) (M.bound m.now)
        b last (T.number minus.now.value) (T.number minus.now.quotient) xs.old table.now }
    ensures { IsLevelJoined T.number F.value (M.modulus m.now) (M.bound m.now) b last result table.now xs.old xs.new }
{
    let mut size = last;
    let mut blocks = xs.len() / last;
    'passes: while 4 < blocks {
        blocks /= 4;
        join_known(m, xs, size, blocks, table, b * blocks, minus);
        size *= 4;
    }
    size
}

// The first pass, after which the entries are below the bound. Returns the length of the blocks then.
fn join_first<T: PlainWord, F: PlanEntry<T>, M: JoinSteps<T>>(
    m: &M,
    xs: &mut [T],
    table: &[F],
    b: usize,
    last: usize,
    minus: &Factor<T>,
) -> usize
    requires { IsLevelReady T.number F.value F.quotient T.base (M.modulus m.now) (4 * M.modulus m.now)
        b last (T.number minus.now.value) (T.number minus.now.quotient) xs.old table.now }
    ensures { IsLevelJoined T.number F.value (M.modulus m.now) (M.bound m.now) b last result table.now xs.old xs.new }
{
    let fours = xs.len() / 4;
    if last == 1 && fours > 0 {
        join_fours(m, xs, fours, table, b * fours, minus);
        4
    } else {
        lower_each(m, xs);
        last
    }
}

// All stages. Where the entries are the remainders of a polynomial, they become its coefficients times the number of
// blocks, up to multiples of m and below the bound.
fn join_stages<T: PlainWord, F: PlanEntry<T>, M: JoinSteps<T>>(
    m: &M,
    xs: &mut [T],
    table: &[F],
    b: usize,
    last: usize,
)
    requires { FitsPlan T.number F.value F.quotient T.base (M.modulus m.now) b last xs.old table.now }
    ensures entries { All (λ x. T.number x < M.bound m.now) xs.new }
    ensures joined { let modulus = M.modulus m.now in (g z : ℕ) (x : ℕ → ℕ) →
        AreTwiddles modulus g z (length table.now) (numbers F.value table.now) →
        AreRemainders modulus g z b (length xs.old / last) last x (λ i. numbers T.number xs.old i % modulus) →
        (i : ℕ) → i < length xs.old → Congruent modulus (numbers T.number xs.new i) (length xs.old / last * x i) }
{
    let minus = m.minus_one();
    let size = join_first(m, xs, table, b, last, &minus);
    join_blocks(m, xs, table, b, size, &minus);
}

// All stages, and the residues: `join` for a modulus of type M.
fn join_reduced<T: PlainWord, F: PlanEntry<T>, M: JoinSteps<T>>(
    m: &M,
    xs: &mut [T],
    table: &[F],
    b: usize,
    last: usize,
)
    requires { FitsPlan T.number F.value F.quotient T.base (M.modulus m.now) b last xs.old table.now }
    ensures below { All (λ x. T.number x < M.modulus m.now) xs.new }
    ensures joined { let modulus = M.modulus m.now in (g z : ℕ) (x : ℕ → ℕ) →
        AreTwiddles modulus g z (length table.now) (numbers F.value table.now) →
        AreRemainders modulus g z b (length xs.old / last) last x (λ i. numbers T.number xs.old i % modulus) →
        (i : ℕ) → i < length xs.old → numbers T.number xs.new i ≡ (length xs.old / last * x i) % modulus }
{
    join_stages(m, xs, table, b, last);
    reduce_each(m, xs);
}

// Replaces each entry by its product with a factor.
fn scale_each<T: PlainWord, M: JoinSteps<T>>(m: &M, xs: &mut [T], w: &Factor<T>)
    requires entries { All (λ x. T.number x < 4 * M.modulus m.now) xs.old }
    requires factor { IsFactorOf T.base T.number (M.modulus m.now) w.now }
    ensures products { (i : ℕ) → i < length xs.old →
        numbers T.number xs.new i ≡ (numbers T.number xs.old i * T.number w.now.value) % M.modulus m.now }
    ensures below { All (λ x. T.number x < M.modulus m.now) xs.new }
{
    'entries: for i in 0..xs.len() {
        let x = xs[i];
        // Unreachable (see `is_beyond`).
        if m.is_beyond(x) {
            // rust instead: panic!("the entries must be below 4m");
            return;
        }
        xs[i] = m.product(x, w);
    }
}

// The last stages and the product of each entry with a factor. Where the table begins with 1 the last pass does
// both, by five products in place of eight.
#[tactic(auto, using(crate::proofs::LastJoins::two_entries, modular_plan_passes::proofs::Entries::all_wider, modular_word::proofs::Congruence::mod_mul, modular_word::proofs::Congruence::mod_refl))]
fn join_last<T: PlainWord, F: PlanEntry<T>, M: JoinSteps<T>>(
    m: &M,
    xs: &mut [T],
    table: &[F],
    b: usize,
    last: usize,
    minus: &Factor<T>,
    w: &Factor<T>,
)
    requires ready { IsLevelReady T.number F.value F.quotient T.base (M.modulus m.now) (M.bound m.now)
        b last (T.number minus.now.value) (T.number minus.now.quotient) xs.old table.now }
    requires factor { IsFactorOf T.base T.number (M.modulus m.now) w.now }
    ensures below { All (λ x. T.number x < M.modulus m.now) xs.new }
    ensures joined { let modulus = M.modulus m.now in (g z : ℕ) (x : ℕ → ℕ) →
        AreTwiddles modulus g z (length table.now) (numbers F.value table.now) →
        AreRemainders modulus g z b (length xs.old / last) last x (λ i. numbers T.number xs.old i % modulus) →
        (i : ℕ) → i < length xs.old
        → numbers T.number xs.new i ≡ (length xs.old / last * x i * T.number w.now.value) % modulus }
{
    if b == 0 && xs.len() / last == 4 && table[0].factor().is_one() {
        let (_, _, v) = minus_inverses(m, table, 0, *minus);
        let step = JoinByOne { m: *m, v, s: *w };
        quarters(m, &step, xs, 0, last);
    } else {
        join_blocks(m, xs, table, b, last, minus);
        scale_each(m, xs, w);
    }
}

// `join_scaled`, by the steps for a modulus of type M.
fn join_scaled_by<T: PlainWord, F: PlanEntry<T>, M: JoinSteps<T>>(
    m: &M,
    xs: &mut [T],
    table: &[F],
    b: usize,
    last: usize,
    w: &Factor<T>,
)
    requires fits { FitsPlan T.number F.value F.quotient T.base (M.modulus m.now) b last xs.old table.now }
    requires factor { IsFactorOf T.base T.number (M.modulus m.now) w.now }
    ensures below { All (λ x. T.number x < M.modulus m.now) xs.new }
    ensures joined { let modulus = M.modulus m.now in (g z : ℕ) (x : ℕ → ℕ) →
        AreTwiddles modulus g z (length table.now) (numbers F.value table.now) →
        AreRemainders modulus g z b (length xs.old / last) last x (λ i. numbers T.number xs.old i % modulus) →
        (i : ℕ) → i < length xs.old
        → numbers T.number xs.new i ≡ (length xs.old / last * x i * T.number w.now.value) % modulus }
{
    let minus = m.minus_one();
    let size = join_first(m, xs, table, b, last, &minus);
    let size = join_passes(m, xs, table, b, size, &minus);
    join_last(m, xs, table, b, size, &minus, w);
}

/// Undoes `split`, times the number of blocks: the blocks of `last` entries are joined into block b of the tree of
/// remainders, and where the entries are the remainders of a polynomial modulo X^last - c, as `split` computes them,
/// entry i becomes its coefficient x_i times the number count of blocks, modulo m.
///
/// The table must be the one by which they were split (`fill_table`), or a longer one that begins with it: with
/// other factors modulo m, the results are below m and meaningless.
///
/// Each pass over the list does two stages where two are left.
///
/// Source: each step undoes one of `split` but for the factor 2, as in Gentleman and Sande, "Fast Fourier
/// transforms: for fun and profit", section 2.
///
/// # Conditions
///
/// - `splits` accepts the sizes: the number of entries is `last` times a power of two, and the table has at least
///   (b + 1)·(count/2) entries
/// - (debug) the entries are below 4m
/// - (debug) the table's entries are factors modulo m
///
/// # Examples
///
/// ```
/// use num_modular::plans::{fill_table, join, Factor, PlannedModulus};
///
/// let modulus = PlannedModulus::<u64>::new(17);
/// let mut table = [Factor::<u64>::ZERO; 2];
/// fill_table(&modulus, 4, &mut table);
/// let mut entries = [10, 15, 7, 6]; // what `split` makes of 1, 2, 3, 4
/// join(&modulus, &mut entries, &table, 0, 1);
/// assert_eq!(entries, [4, 8, 12, 16]);
/// ```
// rust: #[track_caller]
pub fn join<T: PlainWord, F: PlanEntry<T>>(
    m: &PlannedModulus<T>,
    xs: &mut [T],
    table: &[F],
    b: usize,
    last: usize,
)
    requires entries { All (λ x. T.number x < 4 * T.number m.now.modulus) xs.old }
    requires factors { AllFactors T.base (T.number m.now.modulus) F.value F.quotient table.now }
    requires blocks { AreBlocks (length xs.old) (length table.now) b last }
    ensures below { All (λ x. T.number x < T.number m.now.modulus) xs.new }
    ensures joined { let modulus = T.number m.now.modulus in (g z : ℕ) (x : ℕ → ℕ) →
        AreTwiddles modulus g z (length table.now) (numbers F.value table.now) →
        AreRemainders modulus g z b (length xs.old / last) last x (λ i. numbers T.number xs.old i % modulus) →
        (i : ℕ) → i < length xs.old → numbers T.number xs.new i ≡ (length xs.old / last * x i) % modulus }
{
    // rust: debug_assert!(xs.iter().all(|x| m.has_room(*x)), "the entries must be below 4m");
    // rust: assert!(crate::plans::splits(xs.len(), table.len(), b, last),
    // rust:     "the number of entries must be `last` times a power of two, and the table must have at least (b + 1)·(count/2) entries: {} entries, {} factors, b = {}, last = {}",
    // rust:     xs.len(), table.len(), b, last);
    // rust: crate::additions::expect_filled(m, table);
    // rust: debug_assert!(crate::additions::are_factors(m, xs.len(), table, b, last),
    // rust:     "the table's entries must be factors modulo m");
    match RoomyModulus::new(m) {
        Some(roomy) => join_reduced(&roomy, xs, table, b, last),
        None => join_reduced(m, xs, table, b, last),
    }
}

/// Undoes `split`, times a factor and the number of blocks: it joins the blocks as `join` does and multiplies each
/// coefficient by the factor.
///
/// With the inverse modulo m of the number of blocks as the factor, the results are the coefficients themselves. The
/// table must be as for `join`.
///
/// # Conditions
///
/// - `splits` accepts the sizes: the number of entries is `last` times a power of two, and the table has at least
///   (b + 1)·(count/2) entries
/// - (debug) the entries are below 4m
/// - (debug) the table's entries are factors modulo m
/// - (debug) w is a factor modulo m
///
/// # Examples
///
/// ```
/// use num_modular::plans::{fill_table, join_scaled, Factor, PlannedModulus};
///
/// let modulus = PlannedModulus::<u64>::new(17);
/// let mut table = [Factor::<u64>::ZERO; 2];
/// fill_table(&modulus, 4, &mut table);
/// let mut entries = [10, 15, 7, 6]; // what `split` makes of 1, 2, 3, 4
/// join_scaled(&modulus, &mut entries, &table, 0, 1, &modulus.factor(13)); // 4 * 13 = 3 * 17 + 1
/// assert_eq!(entries, [1, 2, 3, 4]);
/// ```
// rust: #[track_caller]
pub fn join_scaled<T: PlainWord, F: PlanEntry<T>>(
    m: &PlannedModulus<T>,
    xs: &mut [T],
    table: &[F],
    b: usize,
    last: usize,
    w: &Factor<T>,
)
    requires entries { All (λ x. T.number x < 4 * T.number m.now.modulus) xs.old }
    requires factors { AllFactors T.base (T.number m.now.modulus) F.value F.quotient table.now }
    requires blocks { AreBlocks (length xs.old) (length table.now) b last }
    requires factor { IsFactorOf T.base T.number (T.number m.now.modulus) w.now }
    ensures below { All (λ x. T.number x < T.number m.now.modulus) xs.new }
    ensures joined { let modulus = T.number m.now.modulus in (g z : ℕ) (x : ℕ → ℕ) →
        AreTwiddles modulus g z (length table.now) (numbers F.value table.now) →
        AreRemainders modulus g z b (length xs.old / last) last x (λ i. numbers T.number xs.old i % modulus) →
        (i : ℕ) → i < length xs.old
        → numbers T.number xs.new i ≡ (length xs.old / last * x i * T.number w.now.value) % modulus }
{
    // rust: debug_assert!(xs.iter().all(|x| m.has_room(*x)), "the entries must be below 4m");
    // rust: assert!(crate::plans::splits(xs.len(), table.len(), b, last),
    // rust:     "the number of entries must be `last` times a power of two, and the table must have at least (b + 1)·(count/2) entries: {} entries, {} factors, b = {}, last = {}",
    // rust:     xs.len(), table.len(), b, last);
    // rust: crate::additions::expect_filled(m, table);
    // rust: debug_assert!(crate::additions::are_factors(m, xs.len(), table, b, last),
    // rust:     "the table's entries must be factors modulo m");
    // rust: debug_assert!(crate::modular_plan_transforms::filled::are_factors(m.modulus, core::slice::from_ref(w)),
    // rust:     "w must be a factor modulo m");
    match RoomyModulus::new(m) {
        Some(roomy) => join_scaled_by(&roomy, xs, table, b, last, w),
        None => join_scaled_by(m, xs, table, b, last, w),
    }
}
