//! Products of blocks: of polynomials modulo X^last - c.

ghost use Rattle.std.specs.Prelude.{◌≡◌, ℕ, ◌+◌, ◌*◌, ◌/◌, ◌%◌, ◌^◌, ◌<◌, ◌≤◌, All, length};
ghost use Rattle.modular_word.specs.Congruence.{Congruent};
ghost use Rattle.modular_word.specs.Inverses.{IsInverse};
ghost use Rattle.modular_plan_passes.specs.Factors.{AllFactors};
ghost use Rattle.modular_plan_passes.specs.Plans.{numbers, constant, AreTwiddles};
ghost use Rattle.modular_plan_passes.specs.Steps.{PairDone};
ghost use Rattle.modular_plan_transforms.specs.Products.{AreProducts};

use modular_plan_passes::factor::PlanEntry;
use modular_plan_passes::modulus::PlannedModulus;
use modular_plan_passes::passes::Bounded;
use modular_prim::plain_word::PlainWord;
// rattle: line
use modular_word::path_word::PathWord;

// Multiplies each entry of xs by the entry of ys with the same index.
pub(crate) fn multiply_each<T: PlainWord>(m: &PlannedModulus<T>, xs: &mut [T], ys: &[T])
    requires below { All (λ x. T.number x < T.number m.now.modulus) xs.old }
    requires equal { length ys.now ≡ length xs.old }
    ensures products { (i : ℕ) → i < length xs.old →
        numbers T.number xs.new i ≡ (numbers T.number xs.old i * numbers T.number ys.now i) % T.number m.now.modulus }
    ensures below { All (λ x. T.number x < T.number m.now.modulus) xs.new }
{
    'entries: for i in 0..xs.len() {
        let x = xs[i];
        // Unreachable (see `is_beyond`).
        if m.is_beyond(x) {
            // rust instead: panic!("the entries of xs must be below m");
            return;
        }
        xs[i] = m.multiply(x, ys[i]);
    }
}

// A number below 2m that is congruent to x·y divided by the base, for any word x and a word y below m. It is
// Montgomery's reduction by the inverse of m: the multiple of m that it subtracts has the same low word as the
// product, so that only the high words are subtracted. With the negated inverse there would be a carry.
fn reduced_product<T: PlainWord>(m: &PlannedModulus<T>, inverse: T, x: T, y: T) -> T
    requires inverse { IsInverse T.base (T.number m.now.modulus) (T.number inverse) }
    requires below { T.number y < T.number m.now.modulus }
    ensures below { T.number result < 2 * T.number m.now.modulus }
    ensures congruent { Congruent (T.number m.now.modulus) (T.number result * T.base) (T.number x * T.number y) }
{
    let (low, high) = T::split(x.product(y));
    let (_, multiple) = T::split(low.wrapping_mul(inverse).product(m.modulus));
    high.plus(m.modulus.minus(multiple))
}

// Replaces each entry of xs, which may be any word, by a number below 2m that is congruent to its product with the
// entry of ys, divided by the base.
#[tactic(auto, using(modular_plan_passes::proofs::Entries::entry_below_common_bound, modular_plan_passes::proofs::Entries::number_read, modular_plan_passes::proofs::Entries::never_beyond))]
pub(crate) fn reduce_products<T: PlainWord>(
    m: &PlannedModulus<T>,
    inverse: T,
    xs: &mut [T],
    ys: &[T],
)
    requires inverse { IsInverse T.base (T.number m.now.modulus) (T.number inverse) }
    requires below { All (λ y. T.number y < T.number m.now.modulus) ys.now }
    requires equal { length ys.now ≡ length xs.old }
    ensures below { All (λ x. T.number x < 2 * T.number m.now.modulus) xs.new }
    ensures products { (i : ℕ) → i < length xs.old → Congruent (T.number m.now.modulus)
        (numbers T.number xs.new i * T.base) (numbers T.number xs.old i * numbers T.number ys.now i) }
{
    'entries: for i in 0..xs.len() {
        let y = ys[i];
        // Unreachable (see `is_beyond`).
        if m.is_beyond(y) {
            // rust instead: panic!("the entries must be below 4m");
            return;
        }
        xs[i] = reduced_product(m, inverse, xs[i], y);
    }
}

// A number that is at most m and congruent to x times the constant of block b·count + j of the tree, which is an
// entry of the table or minus one.
fn times_constant<T: PlainWord, F: PlanEntry<T>>(
    m: &PlannedModulus<T>,
    table: &[F],
    b: usize,
    count: usize,
    j: usize,
    x: T,
) -> T
    requires factors { AllFactors T.base (T.number m.now.modulus) F.value F.quotient table.now }
    requires block { j < count }
    requires fits { count + count < 2 ^ 64 }
    requires within { (b + 1) * count ≤ 2 * length table.now }
    ensures most { T.number result ≤ T.number m.now.modulus }
    ensures product { let modulus = T.number m.now.modulus in (g z : ℕ) →
        AreTwiddles modulus g z (length table.now) (numbers F.value table.now) →
        Congruent modulus (T.number result) (T.number x * constant g z (b * count + j)) }
{
    let rest = b % 2 * count + j;
    let w = table[b / 2 * count + rest / 2].factor();
    let turned = m.product(x, &w);
    if rest % 2 == 0 {
        turned
    } else {
        m.modulus.minus(turned)
    }
}

// Multiplies the polynomial x_0 + x_1·X at an index by that of the other list, modulo X^2 - c, given x_1·c.
#[tactic(auto, using(modular_plan_passes::proofs::Entries::entry_below_common_bound, modular_plan_passes::proofs::Entries::number_read))]
fn multiply_pair<T: PlainWord>(
    m: &PlannedModulus<T>,
    xs: &mut [T],
    ys: &[T],
    place: usize,
    turned: T,
)
    requires below { All (λ x. T.number x < T.number m.now.modulus) xs.old }
    requires equal { length ys.now ≡ length xs.old }
    requires within { place + 1 < length xs.old }
    requires most { T.number turned ≤ T.number m.now.modulus }
    ensures below { All (λ x. T.number x < T.number m.now.modulus) xs.new }
    ensures done { let x = numbers T.number xs.old in let y = numbers T.number ys.now in
        PairDone (λ u v s t. (s ≡ (u * y place + T.number turned * y (place + 1)) % T.number m.now.modulus)
        × (t ≡ (u * y (place + 1) + v * y place) % T.number m.now.modulus)) place
        (place + 1) x (numbers T.number xs.new) }
{
    let next = place + 1;
    let (x, y) = (xs[place], ys[place]);
    let (u, v) = (xs[next], ys[next]);
    xs[next] = m.product_sum(x, v, u, y);
    xs[place] = m.product_sum(x, y, turned, v);
}

// Multiplies the blocks of two entries.
fn multiply_pairs<T: PlainWord, F: PlanEntry<T>>(
    m: &PlannedModulus<T>,
    xs: &mut [T],
    ys: &[T],
    table: &[F],
    b: usize,
)
    requires below { All (λ x. T.number x < T.number m.now.modulus) xs.old }
    requires factors { AllFactors T.base (T.number m.now.modulus) F.value F.quotient table.now }
    requires equal { length ys.now ≡ length xs.old }
    requires within { (b + 1) * (length xs.old / 2) ≤ 2 * length table.now }
    ensures below { All (λ x. T.number x < T.number m.now.modulus) xs.new }
    ensures products { let modulus = T.number m.now.modulus in (g z : ℕ) →
        AreTwiddles modulus g z (length table.now) (numbers F.value table.now) →
        AreProducts modulus g z b (length xs.old / 2) 2 (numbers T.number xs.old)
        (numbers T.number ys.now) (numbers T.number xs.new) }
{
    let count = xs.len() / 2;
    'each_block: for j in 0..count {
        let turned = times_constant(m, table, b, count, j, xs[2 * j + 1]);
        multiply_pair(m, xs, ys, 2 * j, turned);
    }
}

/// Multiplies xs by ys, block by block: the blocks of `last` entries, below block b of the tree of remainders, as
/// polynomials modulo X^last - c, with the constants c of `split`.
///
/// So the products of two lists of remainders are the remainders of a product. For `last` = 1 entries of equal index
/// are multiplied. The table must be the one by which the lists were split: with other factors modulo m, the results
/// are below m and meaningless.
///
/// # Conditions
///
/// - `last` is 1 or 2
/// - the lists have the same length, a multiple of `last`
/// - (debug) the entries of xs are below m
/// - (debug) the table's entries are factors modulo m, and (b + 1)·count is at most twice their number, count being
///   the number of blocks
///
/// # Examples
///
/// ```
/// use num_modular::plans::{fill_table, multiply, Factor, PlannedModulus};
///
/// let modulus = PlannedModulus::<u64>::new(17);
/// let mut table = [Factor::<u64>::ZERO; 1];
/// fill_table(&modulus, 16, &mut table);
/// let mut entries = [2, 3];
/// multiply(&modulus, &mut entries, &[5, 7], &table, 0, 1);
/// assert_eq!(entries, [10, 4]); // 21 - 17
/// ```
// rust: #[track_caller]
#[tactic(auto, using(crate::proofs::SmallProducts::are_products_of_one))]
pub fn multiply<T: PlainWord, F: PlanEntry<T>>(
    m: &PlannedModulus<T>,
    xs: &mut [T],
    ys: &[T],
    table: &[F],
    b: usize,
    last: usize,
)
    requires below { All (λ x. T.number x < T.number m.now.modulus) xs.old }
    requires factors { AllFactors T.base (T.number m.now.modulus) F.value F.quotient table.now }
    requires equal { length ys.now ≡ length xs.old }
    requires some { 1 ≤ last }
    requires few { last ≤ 2 }
    requires whole { length xs.old / last * last ≡ length xs.old }
    requires within { (b + 1) * (length xs.old / last) ≤ 2 * length table.now }
    ensures below { All (λ x. T.number x < T.number m.now.modulus) xs.new }
    ensures products { let modulus = T.number m.now.modulus in (g z : ℕ) →
        AreTwiddles modulus g z (length table.now) (numbers F.value table.now) →
        AreProducts modulus g z b (length xs.old / last) last (numbers T.number xs.old)
        (numbers T.number ys.now) (numbers T.number xs.new) }
{
    // rust: assert!(last == 1 || last == 2, "`last` must be 1 or 2");
    // rust: assert!(ys.len() == xs.len() && (last == 1 || xs.len() % 2 == 0),
    // rust:     "the lists must have the same length, a multiple of `last`");
    // rust: debug_assert!(xs.iter().all(|x| x.is_below(m.modulus)), "the entries of xs must be below m");
    // rust: debug_assert!(crate::additions::are_factors(m, xs.len(), table, b, last),
    // rust:     "the table's entries must be factors modulo m, and (b + 1)·count must be at most twice their number, count being the number of blocks");
    if last == 1 {
        multiply_each(m, xs, ys);
    } else {
        multiply_pairs(m, xs, ys, table, b);
    }
}
