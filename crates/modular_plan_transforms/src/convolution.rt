//! Products of polynomials modulo X^n - c, by a table.

ghost use Rattle.std.specs.Prelude.{◌≡◌, ℕ, ◌+◌, ◌-◌, ◌*◌, ◌/◌, ◌%◌, ◌<◌, ◌≤◌, ◌↔◌, IsTrue, All, length};
ghost use Rattle.modular_word.specs.Inverses.{IsInverse, HasInverse};
ghost use Rattle.modular_transform.specs.Transforms.{cyclic_product};
ghost use Rattle.modular_plan_passes.specs.Factors.{IsFactorOf, AllFactors};
ghost use Rattle.modular_plan_passes.specs.Plans.{numbers, constant, AreTwiddles, AreRemainders};
ghost use Rattle.modular_plan_transforms.specs.PlanConditions.{AreBlocks};
ghost use Rattle.modular_plan_transforms.specs.ProductConditions.{AreSmallBlocks};
ghost use Rattle.modular_plan_transforms.specs.Products.{product_modulo, AreProducts};

use crate::join::join_scaled;
use crate::products::{multiply, reduce_products};
use crate::split::{split, split_loosely, splits};
use crate::tables::inverse_of_count;
use modular_plan_passes::factor::{Factor, PlanEntry};
use modular_plan_passes::modulus::PlannedModulus;
use modular_prim::plain_word::PlainWord;
// rattle: line
use modular_word::path_word::PathWord;
use modular_word::paths::neginv;
// rattle: line
use modular_word::ring_word::RingWord;

// Splits the first of the two lists for `join_products`. For single entries and an odd modulus that takes any
// words, so that no residues are computed.
fn split_first<T: PlainWord, F: PlanEntry<T>>(
    m: &PlannedModulus<T>,
    xs: &mut [T],
    table: &[F],
    b: usize,
    last: usize,
)
    requires entries { All (λ x. T.number x < 4 * T.number m.now.modulus) xs.old }
    requires factors { AllFactors T.base (T.number m.now.modulus) F.value F.quotient table.now }
    requires blocks { AreBlocks (length xs.old) (length table.now) b last }
    ensures below { ((last ≡ 1) × (T.number m.now.modulus % 2 ≡ 1) → ⊥) →
        All (λ x. T.number x < T.number m.now.modulus) xs.new }
    ensures remainders { let modulus = T.number m.now.modulus in (g z : ℕ) →
        AreTwiddles modulus g z (length table.now) (numbers F.value table.now) →
        AreRemainders modulus g z b (length xs.old / last) last (numbers T.number xs.old)
        (λ i. numbers T.number xs.new i % modulus) }
{
    if last == 1 && m.modulus.is_odd() {
        split_loosely(m, xs, table, b, last);
    } else {
        split(m, xs, table, b, last);
    }
}

// Multiplies the blocks as `multiply` does, and joins the products as `join_scaled` does. For odd m, single entries
// are multiplied by Montgomery's reduction, which accepts any words in the first list. It divides by the base, so
// that the factor is multiplied by the base.
#[tactic(auto, using(crate::proofs::Reductions::opposite_of_negated_is_inverse))]
fn join_products<T: PlainWord, F: PlanEntry<T>>(
    m: &PlannedModulus<T>,
    xs: &mut [T],
    ys: &[T],
    table: &[F],
    b: usize,
    last: usize,
    w: &Factor<T>,
)
    requires below { ((last ≡ 1) × (T.number m.now.modulus % 2 ≡ 1) → ⊥) →
        All (λ x. T.number x < T.number m.now.modulus) xs.old }
    requires other_below { All (λ y. T.number y < T.number m.now.modulus) ys.now }
    requires equal { length ys.now ≡ length xs.old }
    requires factors { AllFactors T.base (T.number m.now.modulus) F.value F.quotient table.now }
    requires blocks { AreSmallBlocks (length xs.old) (length table.now) b last }
    requires factor { IsFactorOf T.base T.number (T.number m.now.modulus) w.now }
    ensures below { All (λ x. T.number x < T.number m.now.modulus) xs.new }
    ensures joined { let modulus = T.number m.now.modulus in (g z : ℕ) →
        AreTwiddles modulus g z (length table.now) (numbers F.value table.now) →
        (p : ℕ → ℕ) × AreProducts modulus g z b (length xs.old / last) last (numbers T.number xs.old)
        (numbers T.number ys.now) p
        × ((x : ℕ → ℕ) → AreRemainders modulus g z b (length xs.old / last) last x (λ i. p i % modulus) →
        (i : ℕ) → i < length xs.old
        → numbers T.number xs.new i ≡ (length xs.old / last * x i * T.number w.now.value) % modulus) }
{
    if last == 1 && m.modulus.is_odd() {
        let inverse = T::zero().wrapping_sub(neginv(m.modulus));
        reduce_products(m, inverse, xs, ys);
        let scaled = m.factor(m.times_base(w));
        join_scaled(m, xs, table, b, last, &scaled);
    } else {
        multiply(m, xs, ys, table, b, last);
        join_scaled(m, xs, table, b, last, w);
    }
}

// `convolve_block`, given the factor of the inverse of the number of blocks.
pub(crate) fn convolve_scaled<T: PlainWord, F: PlanEntry<T>>(
    m: &PlannedModulus<T>,
    xs: &mut [T],
    ys: &mut [T],
    table: &[F],
    b: usize,
    last: usize,
    part: &Factor<T>,
)
    requires entries_xs { All (λ x. T.number x < 4 * T.number m.now.modulus) xs.old }
    requires entries_ys { All (λ x. T.number x < 4 * T.number m.now.modulus) ys.old }
    requires equal { length ys.old ≡ length xs.old }
    requires factors { AllFactors T.base (T.number m.now.modulus) F.value F.quotient table.now }
    requires blocks { AreSmallBlocks (length xs.old) (length table.now) b last }
    requires factor { IsFactorOf T.base T.number (T.number m.now.modulus) part.now }
    requires inverse { IsInverse (T.number m.now.modulus) (length xs.old / last) (T.number part.now.value) }
    ensures below { All (λ x. T.number x < T.number m.now.modulus) xs.new
        × All (λ x. T.number x < T.number m.now.modulus) ys.new }
    ensures product { let modulus = T.number m.now.modulus in (g z e : ℕ) →
        AreTwiddles modulus g z (length table.now) (numbers F.value table.now) → e < length xs.old →
        numbers T.number xs.new e ≡ product_modulo modulus (length xs.old) (constant g z b)
        (numbers T.number xs.old) (numbers T.number ys.old) e }
    ensures remainders { let modulus = T.number m.now.modulus in (g z : ℕ) →
        AreTwiddles modulus g z (length table.now) (numbers F.value table.now) →
        AreRemainders modulus g z b (length xs.old / last) last (numbers T.number ys.old) (numbers T.number ys.new) }
{
    split_first(m, xs, table, b, last);
    split(m, ys, table, b, last);
    join_products(m, xs, ys, table, b, last, part);
}

/// Whether [`convolve_block`] accepts these sizes: lists of `length` entries as block b, down to blocks of `last`, and
/// a table of `factors` factors.
///
/// # Examples
///
/// ```
/// use num_modular::plans::convolves;
///
/// assert!(convolves(4, 2, 0, 1));
/// assert!(convolves(4, 2, 1, 2)); // block 1 of four entries needs two factors with blocks of 2,
/// assert!(!convolves(4, 2, 1, 1)); // and four with blocks of 1
/// ```
#[tactic(auto, using(crate::proofs::Convolutions::whole_room))]
// rust instead: pub const fn convolves(length: usize, factors: usize, b: usize, last: usize) -> bool
pub fn convolves(length: usize, factors: usize, b: usize, last: usize) -> bool
    ensures { IsTrue result ↔ AreSmallBlocks length factors b last }
{
    if last > 2 {
        return false;
    }
    if !splits(length, factors, b, last) {
        return false;
    }
    if length == last {
        return b / 2 < factors;
    }
    true
}

/// Replaces xs by xs·ys modulo X^n - c: ys becomes its remainders, as `split` computes them.
///
/// Here n is the length of the lists, the table is that of g (`fill_table`), and c is the power of g by the reversed
/// bits of b. Returns false, with both lists unchanged, exactly where n/last, the number of blocks, has no inverse
/// modulo m.
///
/// So b = 0 gives the cyclic product, and b = 1 that modulo X^n + 1. The table must be that of some g: with other
/// factors modulo m, the results are below m and meaningless. No memory is allocated.
///
/// Source: Bernstein, "Multidigit multiplication for mathematicians", section 2: split both lists, multiply the
/// remainders, join the products.
///
/// # Conditions
///
/// - the lists have the same length
/// - `last` is 1 or 2, the length is `last` times a power of two, and (b + 1)·(n/last) is at most twice the table's
///   length ([`convolves`] tells)
/// - (debug) the entries are below 4m
/// - (debug) the table's entries are factors modulo m
///
/// # Examples
///
/// ```
/// use num_modular::plans::{convolve_block, fill_table, Factor, PlannedModulus};
///
/// let modulus = PlannedModulus::<u64>::new(17);
/// let mut table = [Factor::<u64>::ZERO; 2];
/// fill_table(&modulus, 4, &mut table);
/// let (mut xs, mut ys) = ([0, 0, 0, 1], [0, 1, 0, 0]);
/// assert!(convolve_block(&modulus, &mut xs, &mut ys, &table, 1, 2));
/// assert_eq!(xs, [16, 0, 0, 0]); // X^3 * X is -1 modulo X^4 + 1
/// ```
// rust: #[must_use]
// rust: #[track_caller]
pub fn convolve_block<T: PlainWord, F: PlanEntry<T>>(
    m: &PlannedModulus<T>,
    xs: &mut [T],
    ys: &mut [T],
    table: &[F],
    b: usize,
    last: usize,
) -> bool
    requires entries_xs { All (λ x. T.number x < 4 * T.number m.now.modulus) xs.old }
    requires entries_ys { All (λ x. T.number x < 4 * T.number m.now.modulus) ys.old }
    requires equal { length ys.old ≡ length xs.old }
    requires factors { AllFactors T.base (T.number m.now.modulus) F.value F.quotient table.now }
    requires blocks { AreSmallBlocks (length xs.old) (length table.now) b last }
    ensures inverse { IsTrue result ↔ HasInverse (T.number m.now.modulus) (length xs.old / last) }
    ensures unchanged { (IsTrue result → ⊥) → (xs.new ≡ xs.old) × (ys.new ≡ ys.old) }
    ensures below { IsTrue result → All (λ x. T.number x < T.number m.now.modulus) xs.new
        × All (λ x. T.number x < T.number m.now.modulus) ys.new }
    ensures product { let modulus = T.number m.now.modulus in IsTrue result → (g z e : ℕ) →
        AreTwiddles modulus g z (length table.now) (numbers F.value table.now) → e < length xs.old →
        numbers T.number xs.new e ≡ product_modulo modulus (length xs.old) (constant g z b)
        (numbers T.number xs.old) (numbers T.number ys.old) e }
    ensures remainders { let modulus = T.number m.now.modulus in IsTrue result → (g z : ℕ) →
        AreTwiddles modulus g z (length table.now) (numbers F.value table.now) →
        AreRemainders modulus g z b (length xs.old / last) last (numbers T.number ys.old) (numbers T.number ys.new) }
{
    // rust: assert!(ys.len() == xs.len(), "the lists must have the same length: {} and {}", xs.len(), ys.len());
    // rust: assert!(convolves(xs.len(), table.len(), b, last),
    // rust:     "`last` must be 1 or 2, the length must be `last` times a power of two, and (b + 1)·(n/last) must be at most twice the table's length: {} entries, {} factors, b = {}, last = {}",
    // rust:     xs.len(), table.len(), b, last);
    // rust: debug_assert!(xs.iter().chain(ys.iter()).all(|x| m.has_room(*x)), "the entries must be below 4m");
    // rust: crate::additions::expect_filled(m, table);
    // rust: debug_assert!(crate::additions::are_factors(m, xs.len(), table, b, last),
    // rust:     "the table's entries must be factors modulo m");
    match inverse_of_count(m, xs.len() / last) {
        Some(part) => {
            convolve_scaled(m, xs, ys, table, b, last, &part);
            true
        }
        None => false,
    }
}

/// Replaces xs by the cyclic product xs·ys: as [`convolve_block`] for b = 0, entry e becomes the sum of x_i·y_j modulo
/// m over i + j = e or e + n.
///
/// Returns false as `convolve_block` does: with both lists unchanged, exactly where the number n/last of blocks has no
/// inverse modulo m. The table must be as for `convolve_block`.
///
/// # Conditions
///
/// - the conditions of `convolve_block` hold, as far as that tests them
///
/// # Examples
///
/// ```
/// use num_modular::plans::{convolve_planned, fill_table, Factor, PlannedModulus};
///
/// let modulus = PlannedModulus::<u64>::new(17);
/// let mut table = [Factor::<u64>::ZERO; 2];
/// fill_table(&modulus, 4, &mut table);
/// let (mut xs, mut ys) = ([1, 2, 0, 0], [3, 4, 0, 0]);
/// assert!(convolve_planned(&modulus, &mut xs, &mut ys, &table, 1));
/// assert_eq!(xs, [3, 10, 8, 0]); // (1 + 2X)(3 + 4X)
/// ```
// rust: #[must_use]
// rust: #[track_caller]
pub fn convolve_planned<T: PlainWord, F: PlanEntry<T>>(
    m: &PlannedModulus<T>,
    xs: &mut [T],
    ys: &mut [T],
    table: &[F],
    last: usize,
) -> bool
    requires entries_xs { All (λ x. T.number x < 4 * T.number m.now.modulus) xs.old }
    requires entries_ys { All (λ x. T.number x < 4 * T.number m.now.modulus) ys.old }
    requires equal { length ys.old ≡ length xs.old }
    requires factors { AllFactors T.base (T.number m.now.modulus) F.value F.quotient table.now }
    requires blocks { AreSmallBlocks (length xs.old) (length table.now) 0 last }
    ensures inverse { IsTrue result ↔ HasInverse (T.number m.now.modulus) (length xs.old / last) }
    ensures unchanged { (IsTrue result → ⊥) → (xs.new ≡ xs.old) × (ys.new ≡ ys.old) }
    ensures below { IsTrue result → All (λ x. T.number x < T.number m.now.modulus) xs.new
        × All (λ x. T.number x < T.number m.now.modulus) ys.new }
    ensures product { let modulus = T.number m.now.modulus in IsTrue result → (g z e : ℕ) →
        AreTwiddles modulus g z (length table.now) (numbers F.value table.now) → e < length xs.old →
        numbers T.number xs.new e ≡ cyclic_product modulus (length xs.old)
        (numbers T.number xs.old) (numbers T.number ys.old) e }
    ensures remainders { let modulus = T.number m.now.modulus in IsTrue result → (g z : ℕ) →
        AreTwiddles modulus g z (length table.now) (numbers F.value table.now) →
        AreRemainders modulus g z 0 (length xs.old / last) last (numbers T.number ys.old) (numbers T.number ys.new) }
{
    convolve_block(m, xs, ys, table, 0, last)
}

/// Replaces xs by xs·ys modulo X^n + 1: as [`convolve_block`] for b = 1, entry e becomes the sum of x_i·y_j modulo m
/// over i + j = e, less that over i + j = e + n.
///
/// Returns false as `convolve_block` does: with both lists unchanged, exactly where the number n/last of blocks has no
/// inverse modulo m. The table must be as for `convolve_block`.
///
/// # Conditions
///
/// - the conditions of `convolve_block` hold, as far as that tests them
///
/// # Examples
///
/// ```
/// use num_modular::plans::{convolve_negacyclic, fill_table, Factor, PlannedModulus};
///
/// let modulus = PlannedModulus::<u64>::new(17);
/// let mut table = [Factor::<u64>::ZERO; 2];
/// fill_table(&modulus, 4, &mut table);
/// let (mut xs, mut ys) = ([1, 2, 3, 4], [0, 1, 0, 0]);
/// assert!(convolve_negacyclic(&modulus, &mut xs, &mut ys, &table, 2));
/// assert_eq!(xs, [13, 1, 2, 3]); // times X; -4 + 17
/// ```
// rust: #[must_use]
// rust: #[track_caller]
pub fn convolve_negacyclic<T: PlainWord, F: PlanEntry<T>>(
    m: &PlannedModulus<T>,
    xs: &mut [T],
    ys: &mut [T],
    table: &[F],
    last: usize,
) -> bool
    requires entries_xs { All (λ x. T.number x < 4 * T.number m.now.modulus) xs.old }
    requires entries_ys { All (λ x. T.number x < 4 * T.number m.now.modulus) ys.old }
    requires equal { length ys.old ≡ length xs.old }
    requires factors { AllFactors T.base (T.number m.now.modulus) F.value F.quotient table.now }
    requires blocks { AreSmallBlocks (length xs.old) (length table.now) 1 last }
    ensures inverse { IsTrue result ↔ HasInverse (T.number m.now.modulus) (length xs.old / last) }
    ensures unchanged { (IsTrue result → ⊥) → (xs.new ≡ xs.old) × (ys.new ≡ ys.old) }
    ensures below { IsTrue result → All (λ x. T.number x < T.number m.now.modulus) xs.new
        × All (λ x. T.number x < T.number m.now.modulus) ys.new }
    ensures product { let modulus = T.number m.now.modulus in IsTrue result → (g z e : ℕ) →
        AreTwiddles modulus g z (length table.now) (numbers F.value table.now) → e < length xs.old →
        numbers T.number xs.new e ≡ product_modulo modulus (length xs.old) (modulus - 1)
        (numbers T.number xs.old) (numbers T.number ys.old) e }
    ensures remainders { let modulus = T.number m.now.modulus in IsTrue result → (g z : ℕ) →
        AreTwiddles modulus g z (length table.now) (numbers F.value table.now) →
        AreRemainders modulus g z 1 (length xs.old / last) last (numbers T.number ys.old) (numbers T.number ys.new) }
{
    convolve_block(m, xs, ys, table, 1, last)
}
