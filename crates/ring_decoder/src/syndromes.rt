//! Power sums: the syndromes of a word, and the moments of its errors at the places that aren't lost.

ghost use Rattle.std.specs.Prelude.{◌≡◌, ℕ, ◌+◌, ◌-◌, ◌*◌, ◌%◌, ◌<◌, ◌≤◌, ◌↔◌, IsTrue, length};
ghost use Rattle.num_modular.specs.Congruence.{Congruent};
ghost use Rattle.num_modular.specs.Entries.{entry};
ghost use Rattle.num_modular.specs.Checked.{AreChecked, IsChecked};
ghost use Rattle.num_modular.specs.Polynomials.{HaveUnitDifferences};
ghost use Rattle.num_modular.specs.Sums.{sum_below};
ghost use Rattle.ring_codes.specs.Erasure.{IsErasureCodeword};
ghost use Rattle.ring_codes.specs.Roots.{product_of_differences};
ghost use Rattle.ring_decoder.specs.PowerSums.{ArePowerSums};
ghost use Rattle.ring_decoder.specs.Syndromes.{AreWeights};

use super::locator::apply;
use num_modular::{Reducer, RingWord};
use ring_codes::erasure::expand_roots;

// The sum of the terms; each term is then multiplied by its point.
#[tactic(auto, using(num_modular::specs::Callers::done_none, num_modular::specs::Callers::form_read, num_modular::specs::NumberLaws::empty_sum_residue_is_zero))]
fn next_sum<T: RingWord, R: Reducer<T>>(r: &R, points: &[T], terms: &mut [T]) -> T
    requires points { AreChecked R.Reducer T.number r.now points.now }
    requires terms { AreChecked R.Reducer T.number r.now terms.old }
    requires each { length terms.old ≡ length points.now }
    ensures checked { IsChecked R.Reducer T.number r.now result }
    ensures value { let m = R.modulus r.now in R.value m (T.number result)
        ≡ sum_below (length points.now) (entry T.number R.value m terms.old) % m }
    ensures terms { AreChecked R.Reducer T.number r.now terms.new }
    ensures products { let m = R.modulus r.now in (i : ℕ) → i < length points.now →
        entry T.number R.value m terms.new i
        ≡ (entry T.number R.value m terms.old i * entry T.number R.value m points.now i) % m }
{
    let mut sum = r.transform(T::zero());
    'terms: for i in 0..points.len() {
        sum = r.add(&sum, &terms[i]);
        terms[i] = r.mul(&terms[i], &points[i]);
    }
    sum
}

/// Writes the power sums of the points, whose weights are the terms.
///
/// Sum number h, from 0 on, adds up each term times the power h of its point. The terms are replaced by other checked
/// forms. It takes a product for each point and each sum.
///
/// # Preconditions
///
/// - there is a term for each point
/// - points and terms are checked forms
#[tactic(auto, using(crate::proofs::SyndromeSums::terms_first, num_modular::specs::Callers::held_entry, num_modular::specs::Callers::held_forms, num_modular::specs::NumberLaws::mod_of_eq, num_modular::specs::NumberLaws::mod_trans, num_modular::specs::NumberLaws::residue_of))]
pub fn fill_power_sums<T: RingWord, R: Reducer<T>>(
    r: &R,
    points: &[T],
    terms: &mut [T],
    sums: &mut [T],
)
    requires points { AreChecked R.Reducer T.number r.now points.now }
    requires terms { AreChecked R.Reducer T.number r.now terms.old }
    requires each { length terms.old ≡ length points.now }
    ensures checked { AreChecked R.Reducer T.number r.now sums.new }
    ensures terms { AreChecked R.Reducer T.number r.now terms.new }
    ensures sums { let m = R.modulus r.now in ArePowerSums m (length sums.old) (length points.now)
        (entry T.number R.value m points.now) (entry T.number R.value m terms.old) (entry T.number R.value m sums.new) }
{
    'sums: for h in 0..sums.len() {
        sums[h] = next_sum(r, points, terms);
    }
}

/// Whether the sums are the power sums of the points, whose weights are the terms.
///
/// The terms are replaced by other checked forms. The number of products is added to `products`: one for each point and
/// each sum, up to the first that differs.
///
/// # Preconditions
///
/// - there is a term for each point
/// - points, terms and sums are checked forms
#[tactic(auto, using(crate::proofs::SyndromeSums::terms_first, num_modular::specs::NumberLaws::residue_of))]
pub fn are_power_sums<T: RingWord, R: Reducer<T>>(
    r: &R,
    points: &[T],
    terms: &mut [T],
    sums: &[T],
    products: &mut u128,
) -> bool
    requires points { AreChecked R.Reducer T.number r.now points.now }
    requires terms { AreChecked R.Reducer T.number r.now terms.old }
    requires sums { AreChecked R.Reducer T.number r.now sums.now }
    requires each { length terms.old ≡ length points.now }
    ensures sums { let m = R.modulus r.now in IsTrue result ↔ ArePowerSums m (length sums.now) (length points.now)
        (entry T.number R.value m points.now) (entry T.number R.value m terms.old) (entry T.number R.value m sums.now) }
    ensures terms { AreChecked R.Reducer T.number r.now terms.new }
    ensures counted { products.new ≤ products.old + length sums.now * length points.now }
    ensures grown { products.old ≤ products.new }
{
    'sums: for h in 0..sums.len() {
        let sum = next_sum(r, points, terms);
        *products = products.saturating_add(points.len() as u128);
        if sum != sums[h] {
            return false;
        }
    }
    true
}

/// Writes the syndromes of a word: the power sums of the points, whose weights are the symbols times given weights.
///
/// If each weight is the inverse of the product of its point's differences from the other points, and there are n - k
/// syndromes, they are all 0 exactly where the word is of the code with messages of k symbols. The contents of `terms`
/// are ignored, and unspecified afterwards. It takes n·(t + 1) products for n points and t syndromes.
///
/// Source: MacWilliams and Sloane, The Theory of Error-Correcting Codes, chapters 10 and 12.
///
/// # Preconditions
///
/// - there is a weight, a symbol and a term for each point
/// - points, weights and symbols are checked forms
#[tactic(auto, using(crate::proofs::SyndromeSums::product_of_equal, num_modular::specs::Callers::entry_read, num_modular::specs::Callers::form_read, num_modular::specs::Callers::held_forms, num_modular::specs::Callers::hold_more))]
pub fn fill_syndromes<T: RingWord, R: Reducer<T>>(
    r: &R,
    points: &[T],
    weights: &[T],
    word: &[T],
    terms: &mut [T],
    syndromes: &mut [T],
)
    requires points { AreChecked R.Reducer T.number r.now points.now }
    requires weights { AreChecked R.Reducer T.number r.now weights.now }
    requires word { AreChecked R.Reducer T.number r.now word.now }
    requires each_weight { length weights.now ≡ length points.now }
    requires each_symbol { length word.now ≡ length points.now }
    requires each_term { length terms.old ≡ length points.now }
    ensures checked { AreChecked R.Reducer T.number r.now syndromes.new }
    ensures sums { let m = R.modulus r.now in ArePowerSums m (length syndromes.old) (length points.now)
        (entry T.number R.value m points.now)
        (λ i. entry T.number R.value m weights.now i * entry T.number R.value m word.now i)
        (entry T.number R.value m syndromes.new) }
{
    'points: for i in 0..points.len() {
        terms[i] = r.mul(&weights[i], &word[i]);
    }
    fill_power_sums(r, points, terms, syndromes);
}

// The sum of the coefficients, each times its number, from an index of these on.
pub fn sum_from<T: RingWord, R: Reducer<T>>(
    r: &R,
    coefficients: &[T],
    numbers: &[T],
    start: usize,
) -> T
    requires coefficients { AreChecked R.Reducer T.number r.now coefficients.now }
    requires numbers { AreChecked R.Reducer T.number r.now numbers.now }
    requires within { start + length coefficients.now ≤ length numbers.now }
    ensures checked { IsChecked R.Reducer T.number r.now result }
    ensures value { let m = R.modulus r.now in R.value m (T.number result)
        ≡ sum_below (length coefficients.now) (λ l. entry T.number R.value m coefficients.now l
        * entry T.number R.value m numbers.now (start + l)) % m }
{
    apply(r, coefficients, coefficients.len(), numbers, start)
}

/// Writes the moments of a word of which some symbols are lost.
///
/// If the syndromes are power sums, so are the moments, with each weight multiplied by its point's differences from the c
/// lost points: thus the weight of a lost point becomes 0. The contents of `product` are ignored; afterwards it holds the
/// coefficients of the product of X - x for the lost points x. It takes c·(c + 3)/2 + N·(c + 1) products for N moments.
///
/// Source: Forney, "On decoding BCH codes".
///
/// # Preconditions
///
/// - `product` has one place more than there are lost points
/// - there are as many syndromes as moments and lost points together
/// - lost points and syndromes are checked forms
#[tactic(auto, using(num_modular::specs::Callers::held_forms, num_modular::specs::Callers::hold_more))]
pub fn fill_moments<T: RingWord, R: Reducer<T>>(
    r: &R,
    lost: &[T],
    syndromes: &[T],
    product: &mut [T],
    moments: &mut [T],
)
    requires lost { AreChecked R.Reducer T.number r.now lost.now }
    requires syndromes { AreChecked R.Reducer T.number r.now syndromes.now }
    requires room { length product.old ≡ length lost.now + 1 }
    requires count { length syndromes.now ≡ length moments.old + length lost.now }
    ensures checked { AreChecked R.Reducer T.number r.now moments.new }
    ensures moments { let m = R.modulus r.now in (n : ℕ) (x w : ℕ → ℕ) →
        ArePowerSums m (length syndromes.now) n x w (entry T.number R.value m syndromes.now) →
        ArePowerSums m (length moments.old) n x
        (λ i. w i * product_of_differences m (length lost.now) (entry T.number R.value m lost.now) (x i))
        (entry T.number R.value m moments.new) }
{
    expand_roots(r, lost, product);
    'moments: for h in 0..moments.len() {
        moments[h] = sum_from(r, product, syndromes, h);
    }
}

/// A law, the dual code: with the weights of n points that fit, all n - k syndromes of a word are 0 exactly where the
/// word is of the code with messages of k symbols.
///
/// The weight of a point is the inverse of the product of its differences from the other points.
///
/// Source: MacWilliams and Sloane, The Theory of Error-Correcting Codes, chapters 10 and 12.
#[tactic(auto, using(crate::proofs::DualCode::codeword_by_syndromes, crate::proofs::DualCode::codeword_without_syndromes))]
pub fn syndromes_law()
    ensures zero { (m k n : ℕ) (points weights word : ℕ → ℕ) → 0 < m → k ≤ n → HaveUnitDifferences m n points →
        AreWeights m n points weights → IsErasureCodeword m k n points word →
        ArePowerSums m (n - k) n points (λ i. weights i * word i) (λ h. 0) }
    ensures only { (m k n : ℕ) (points weights word : ℕ → ℕ) → 0 < m → k ≤ n → HaveUnitDifferences m n points →
        AreWeights m n points weights → ((i : ℕ) → i < n → word i < m) →
        ArePowerSums m (n - k) n points (λ i. weights i * word i) (λ h. 0) → IsErasureCodeword m k n points word }
{}
