//! The two steps of a correction: the syndromes of a word, and the few errors that have them.

ghost use Rattle.std.specs.Prelude.{◌≡◌, ◌≢◌, ℕ, ◌+◌, ◌-◌, ◌*◌, ◌^◌, ◌<◌, ◌≤◌, MatchResult, length};
ghost use Rattle.std.specs.Option.{ForSome};
ghost use Rattle.num_modular.specs.Entries.{entry};
ghost use Rattle.num_modular.specs.Checked.{AreChecked, IsChecked};
ghost use Rattle.num_modular.specs.Inverses.{HasInverse};
ghost use Rattle.num_modular.specs.Polynomials.{HaveUnitDifferences};
ghost use Rattle.num_modular.specs.Transforms.{Suits};
ghost use Rattle.ring_codes.specs.Powers.{ArePowers};
ghost use Rattle.ring_decoder.specs.Corrector.{AreLost};
ghost use Rattle.ring_decoder.specs.ErrorPatterns.{IsPatternFault, IsSolution};
ghost use Rattle.ring_decoder.specs.PowerSums.{ArePowerSums};
ghost use Rattle.ring_decoder.specs.Products.{error_products, moment_products, syndrome_products};
ghost use Rattle.ring_decoder.specs.Syndromes.{AreChecks, AreWeights};

use super::checks::fill_checked_syndromes;
use super::choices::solve;
use super::roots::fill_syndromes_by_transform;
use super::search::{find_nonunit, locate};
use super::syndromes::fill_syndromes;
use num_modular::{Reducer, RingWord};
use ring_codes::erasure::CorrectError;

// Writes the syndromes of a word: by a transform or by the table of checks, where there is a root or a table. Returns the
// number of products.
pub fn write_syndromes<T: RingWord, R: Reducer<T>>(
    r: &R,
    points: &[T],
    weights: &[T],
    checks: &[T],
    root: Option<T>,
    word: &[T],
    terms: &mut [T],
    syndromes: &mut [T],
) -> u128
    requires points { AreChecked R.Reducer T.number r.now points.now }
    requires weights { AreChecked R.Reducer T.number r.now weights.now }
    requires checks { AreChecked R.Reducer T.number r.now checks.now }
    requires word { AreChecked R.Reducer T.number r.now word.now }
    requires each_weight { length weights.now ≡ length points.now }
    requires each_symbol { length word.now ≡ length points.now }
    requires each_term { length terms.old ≡ length points.now }
    requires each_check { 0 < length checks.now → length checks.now ≡ length syndromes.old * length points.now }
    requires table { let m = R.modulus r.now in 0 < length checks.now → AreChecks m (length syndromes.old)
        (length points.now) (entry T.number R.value m points.now) (entry T.number R.value m weights.now)
        (entry T.number R.value m checks.now) }
    requires weights_of { let m = R.modulus r.now in AreWeights m (length points.now)
        (entry T.number R.value m points.now) (entry T.number R.value m weights.now) }
    requires few { length syndromes.old ≤ length points.now }
    requires root { ForSome root (λ g. IsChecked R.Reducer T.number r.now g) }
    requires suits { let m = R.modulus r.now in
        ForSome root (λ g. ∥ Suits m (R.value m (T.number g)) (length points.now) ∥₁) }
    requires powers { let m = R.modulus r.now in ForSome root (λ g. ArePowers m (R.value m (T.number g))
        (length points.now) (entry T.number R.value m points.now)) }
    ensures checked { AreChecked R.Reducer T.number r.now syndromes.new }
    ensures sums { let m = R.modulus r.now in ArePowerSums m (length syndromes.old) (length points.now)
        (entry T.number R.value m points.now)
        (λ i. entry T.number R.value m weights.now i * entry T.number R.value m word.now i)
        (entry T.number R.value m syndromes.new) }
    ensures counted { result
        ≡ syndrome_products root (length checks.now) (length points.now) (length syndromes.old) }
{
    let n = points.len() as u128;
    match root {
        Some(g) => {
            if fill_syndromes_by_transform(r, &g, word, terms, syndromes) {
                let z = points.len().trailing_zeros() as u128;
                return n * z / 2 + 2 * n - 1 + z;
            }
        }
        None => {}
    }
    if checks.is_empty() {
        fill_syndromes(r, points, weights, word, terms, syndromes);
        n * (syndromes.len() as u128 + 1)
    } else {
        fill_checked_syndromes(r, checks, word, syndromes);
        n * syndromes.len() as u128
    }
}

// Writes the few errors that have the syndromes, and returns how many of them are at places that aren't lost. The number of
// products is added.
pub fn find_errors<T: RingWord, R: Reducer<T>>(
    r: &R,
    points: &[T],
    weights: &[T],
    lost: &[usize],
    syndromes: &[T],
    scratch: &mut [T],
    values: &mut [T],
    errors: &mut [T],
    products: &mut u128,
) -> Result<usize, CorrectError<T>>
    requires points { AreChecked R.Reducer T.number r.now points.now }
    requires weights { AreChecked R.Reducer T.number r.now weights.now }
    requires syndromes { AreChecked R.Reducer T.number r.now syndromes.now }
    requires each_weight { length weights.now ≡ length points.now }
    requires fit { let m = R.modulus r.now in
        HaveUnitDifferences m (length points.now) (entry T.number R.value m points.now) }
    requires units { let m = R.modulus r.now in (i : ℕ) → i < length points.now →
        HasInverse m (entry T.number R.value m weights.now i) }
    requires places { AreLost (length points.now - length syndromes.now) (length points.now) lost.now }
    requires few { length syndromes.now ≤ length points.now }
    requires modulus { R.modulus r.now ≢ 1 }
    requires scratch { 6 * length syndromes.now + 3 ≤ length scratch.old }
    requires values { length values.old ≡ length points.now }
    requires room { length errors.old ≡ length points.now }
    ensures found { let m = R.modulus r.now in let n = length points.now in let t = length syndromes.now in
        let x = entry T.number R.value m points.now in let v = entry T.number R.value m weights.now in
        let s = entry T.number R.value m syndromes.now in MatchResult result
        (λ wrong. AreChecked R.Reducer T.number r.now errors.new
        × IsSolution m t n x v lost.now s (entry T.number R.value m errors.new) wrong)
        (λ e. IsPatternFault T.number m t n x v lost.now s e) }
    ensures counted { products.new ≤ products.old
        + error_products (length points.now) (length syndromes.now) (length lost.now) }
    ensures least { products.new < 2 ^ 128 - 1 → products.old
        + moment_products (length syndromes.now - length lost.now) (length lost.now) ≤ products.new }
{
    match locate(r, points, lost, syndromes, scratch, values, products) {
        None => Err(CorrectError::TooManyErrors),
        Some(witness) => match solve(
            r, points, weights, lost, syndromes, values, scratch, errors, products,
        ) {
            Some(wrong) => Ok(wrong),
            None => {
                *products = products.saturating_add(points.len() as u128);
                match find_nonunit(r, &witness, values) {
                    Some(a) => Err(CorrectError::NoInverse(a)),
                    None => Err(CorrectError::TooManyErrors),
                }
            }
        },
    }
}
