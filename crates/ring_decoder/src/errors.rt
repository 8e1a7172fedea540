//! The errors at given places, from the syndromes.

ghost use Rattle.std.specs.Prelude.{◌≡◌, ℕ, ◌+◌, ◌-◌, ◌*◌, ◌%◌, ◌<◌, ◌≤◌, ◌↔◌, IsTrue, length};
ghost use Rattle.num_modular.specs.Entries.{entry};
ghost use Rattle.num_modular.specs.Checked.{AreChecked, IsChecked};
ghost use Rattle.num_modular.specs.Inverses.{HasInverse};
ghost use Rattle.num_modular.specs.Polynomials.{HaveUnitDifferences, polynomial_at};
ghost use Rattle.num_modular.specs.Sums.{sum_below};
ghost use Rattle.ring_decoder.specs.PowerSums.{ArePowerSums};

use num_modular::ring::invert_each;
use num_modular::{Reducer, RingWord};
use ring_codes::erasure::{expand_roots, fill_differences};

// The sum of the numbers, each times its coefficient of the quotient of a polynomial with q + 1 coefficients by X - x.
// The quotient's coefficients are found by Horner's rule, the highest first.
#[tactic(auto, using(num_modular::specs::Callers::form_read))]
fn quotient_sum<T: RingWord, R: Reducer<T>>(
    r: &R,
    coefficients: &[T],
    point: &T,
    numbers: &[T],
    q: usize,
) -> T
    requires coefficients { AreChecked R.Reducer T.number r.now coefficients.now }
    requires point { IsChecked R.Reducer T.number r.now point.now }
    requires numbers { AreChecked R.Reducer T.number r.now numbers.now }
    requires each { q < length coefficients.now }
    requires enough { q ≤ length numbers.now }
    ensures checked { IsChecked R.Reducer T.number r.now result }
    ensures value { let m = R.modulus r.now in let f = entry T.number R.value m coefficients.now in
        R.value m (T.number result) ≡ sum_below q (λ k. polynomial_at (k + 1) (λ i. f (q + 1 - (k + 1) + i))
        (R.value m (T.number point.now)) * entry T.number R.value m numbers.now (q - 1 - k)) % m }
{
    let zero = r.transform(T::zero());
    let mut quotient = zero;
    let mut sum = zero;
    'coefficients: for k in 0..q {
        let product = r.mul(&quotient, point);
        quotient = r.add(&coefficients[q - k], &product);
        let term = r.mul(&quotient, &numbers[q - 1 - k]);
        sum = r.add(&sum, &term);
    }
    sum
}

// Writes the product of each two numbers.
#[tactic(auto, using(num_modular::specs::Callers::held_entry))]
pub(crate) fn multiply_each<T: RingWord, R: Reducer<T>>(
    r: &R,
    xs: &[T],
    ys: &[T],
    products: &mut [T],
)
    requires xs { AreChecked R.Reducer T.number r.now xs.now }
    requires ys { AreChecked R.Reducer T.number r.now ys.now }
    requires pairs { length ys.now ≡ length xs.now }
    requires room { length products.old ≡ length xs.now }
    ensures checked { AreChecked R.Reducer T.number r.now products.new }
    ensures products { let m = R.modulus r.now in (i : ℕ) → i < length xs.now → entry T.number R.value m products.new i
        ≡ (entry T.number R.value m xs.now i * entry T.number R.value m ys.now i) % m }
{
    'numbers: for i in 0..xs.len() {
        products[i] = r.mul(&xs[i], &ys[i]);
    }
}

/// Writes the errors at q points, given at least q syndromes.
///
/// If the first q syndromes are the power sums of the points, each with its weight times an error, it writes these
/// errors. It returns false exactly where the points don't fit or a weight has no inverse.
///
/// The contents of `product`, `divisors` and `scratch` are ignored, and unspecified afterwards; those of `errors` are
/// ignored, and unspecified after false. It takes q·(7·q + 11)/2 products and one inversion.
///
/// Source: Forney, "On decoding BCH codes"; here by the quotients of the product of X - x by each X - x, the rows of the
/// inverse of Vandermonde's matrix (Knuth, The Art of Computer Programming, volume 1, section 1.2.3, exercise 40).
///
/// # Preconditions
///
/// - there is a weight, a divisor, a place of scratch and an error for each point
/// - there are as many syndromes as points or more
/// - `product` has one place more than there are points
/// - points, weights and syndromes are checked forms
#[tactic(auto, using(num_modular::specs::Callers::form_read, num_modular::specs::Callers::held_forms))]
pub fn solve_errors<T: RingWord, R: Reducer<T>>(
    r: &R,
    points: &[T],
    weights: &[T],
    syndromes: &[T],
    product: &mut [T],
    divisors: &mut [T],
    scratch: &mut [T],
    errors: &mut [T],
) -> bool
    requires points { AreChecked R.Reducer T.number r.now points.now }
    requires weights { AreChecked R.Reducer T.number r.now weights.now }
    requires syndromes { AreChecked R.Reducer T.number r.now syndromes.now }
    requires each_weight { length weights.now ≡ length points.now }
    requires enough { length points.now ≤ length syndromes.now }
    requires product { length product.old ≡ length points.now + 1 }
    requires divisors { length divisors.old ≡ length points.now }
    requires scratch { length scratch.old ≡ length points.now }
    requires room { length errors.old ≡ length points.now }
    ensures solved { let m = R.modulus r.now in IsTrue result ↔
        (HaveUnitDifferences m (length points.now) (entry T.number R.value m points.now)
        × ((j : ℕ) → j < length points.now → HasInverse m (entry T.number R.value m weights.now j))) }
    ensures checked { IsTrue result → AreChecked R.Reducer T.number r.now errors.new }
    ensures errors { let m = R.modulus r.now in let q = length points.now in
        IsTrue result → (e : ℕ → ℕ) → ArePowerSums m q q (entry T.number R.value m points.now)
        (λ j. entry T.number R.value m weights.now j * e j) (entry T.number R.value m syndromes.now) →
        (j : ℕ) → j < q → entry T.number R.value m errors.new j ≡ e j % m }
{
    expand_roots(r, points, product);
    fill_differences(r, points, divisors);
    multiply_each(r, divisors, weights, scratch);
    if !invert_each(r, scratch, divisors) {
        return false;
    }
    // The inverses are in `scratch` now, and the list of the divisors is free.
    'points: for j in 0..points.len() {
        divisors[j] = quotient_sum(r, product, &points[j], syndromes, points.len());
    }
    multiply_each(r, divisors, scratch, errors);
    true
}
