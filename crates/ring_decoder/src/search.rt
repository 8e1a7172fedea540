//! The search for the places of wrong symbols.

ghost use Rattle.std.specs.Prelude.{◌≡◌, ◌≢◌, ℕ, ◌+◌, ◌-◌, ◌*◌, ◌%◌, ◌^◌, ◌<◌, ◌≤◌, IfSome, MatchOption, length};
ghost use Rattle.std.specs.Prelude.{slice_index, if◌then◌else◌};
ghost use Rattle.num_modular.specs.Entries.{entry};
ghost use Rattle.num_modular.specs.Checked.{AreChecked, IsChecked};
ghost use Rattle.num_modular.specs.Inverses.{HasInverse};
ghost use Rattle.num_modular.specs.Polynomials.{HaveUnitDifferences, polynomial_at};
ghost use Rattle.ring_codes.specs.Erasure.{IsWithoutInverse};
ghost use Rattle.ring_decoder.specs.Corrector.{AreLost};
ghost use Rattle.ring_decoder.specs.ErrorPatterns.{IsNearPattern, IsLocated, AreLocatorValues};
ghost use Rattle.ring_decoder.specs.Products.{locate_products, moment_products};

use super::locator::find_locator;
use super::places::{clear_lost, copy_points};
use super::syndromes::fill_moments;
use num_modular::{Reducer, RingWord};
use ring_codes::erasure::evaluate_each;

// Writes the locator's values at the points; ones, where its degree is 0. Returns the number of products.
#[tactic(auto, using(num_modular::specs::Callers::held_entry))]
fn fill_values<T: RingWord, R: Reducer<T>>(
    r: &R,
    points: &[T],
    locator: &[T],
    degree: usize,
    values: &mut [T],
) -> u128
    requires points { AreChecked R.Reducer T.number r.now points.now }
    requires locator { AreChecked R.Reducer T.number r.now locator.now }
    requires degree { degree < length locator.now }
    requires room { length values.old ≡ length points.now }
    ensures checked { AreChecked R.Reducer T.number r.now values.new }
    ensures values { let m = R.modulus r.now in AreLocatorValues m degree (length points.now)
        (entry T.number R.value m points.now) (entry T.number R.value m locator.now) (entry T.number R.value m values.new) }
    ensures counted { result ≤ length points.now * (degree + 1) }
{
    if degree == 0 {
        let one = r.transform(T::one());
        'ones: for i in 0..points.len() {
            values[i] = one;
        }
        0
    } else {
        evaluate_each(r, &locator[..degree + 1], points, values);
        (points.len() as u128).saturating_mul(degree as u128 + 1)
    }
}

// The same for the list that is named.
fn fill_values_of<T: RingWord, R: Reducer<T>>(
    r: &R,
    points: &[T],
    first: &[T],
    second: &[T],
    in_first: bool,
    degree: usize,
    values: &mut [T],
) -> u128
    requires points { AreChecked R.Reducer T.number r.now points.now }
    requires first { AreChecked R.Reducer T.number r.now first.now }
    requires second { AreChecked R.Reducer T.number r.now second.now }
    requires degree_first { degree < length first.now }
    requires degree_second { degree < length second.now }
    requires room { length values.old ≡ length points.now }
    ensures checked { AreChecked R.Reducer T.number r.now values.new }
    ensures values { let m = R.modulus r.now in AreLocatorValues m degree (length points.now)
        (entry T.number R.value m points.now)
        (entry T.number R.value m (if in_first then first.now else second.now)) (entry T.number R.value m values.new) }
    ensures counted { result ≤ length points.now * (degree + 1) }
{
    if in_first {
        fill_values(r, points, first, degree, values)
    } else {
        fill_values(r, points, second, degree, values)
    }
}

// Writes the locator's values at all points, and 0 at the lost places: the word may have to change only where a value is 0.
// Returns a number that has an inverse only where all pivots have. `None` where no word is near. The number of products is
// added.
pub fn locate<T: RingWord, R: Reducer<T>>(
    r: &R,
    points: &[T],
    lost: &[usize],
    syndromes: &[T],
    scratch: &mut [T],
    values: &mut [T],
    products: &mut u128,
) -> Option<T>
    requires points { AreChecked R.Reducer T.number r.now points.now }
    requires syndromes { AreChecked R.Reducer T.number r.now syndromes.now }
    requires fit { let m = R.modulus r.now in
        HaveUnitDifferences m (length points.now) (entry T.number R.value m points.now) }
    requires places { AreLost (length points.now - length syndromes.now) (length points.now) lost.now }
    requires few { length syndromes.now ≤ length points.now }
    requires modulus { R.modulus r.now ≢ 1 }
    requires scratch { 2 * length syndromes.now + 3 ≤ length scratch.old }
    requires room { length values.old ≡ length points.now }
    ensures checked { IfSome result (λ _. AreChecked R.Reducer T.number r.now values.new) }
    ensures witness { IfSome result (λ a. IsChecked R.Reducer T.number r.now a) }
    ensures nonzero { IfSome result (λ a. R.value (R.modulus r.now) (T.number a) ≢ 0) }
    ensures located { let m = R.modulus r.now in let n = length points.now in let t = length syndromes.now in
        let x = entry T.number R.value m points.now in let s = entry T.number R.value m syndromes.now in
        (v : ℕ → ℕ) → ((i : ℕ) → i < n → HasInverse m (v i)) → MatchOption result
        ((errors : ℕ → ℕ) → IsNearPattern m t n x v lost.now s errors → ⊥)
        (λ a. IsLocated m t n x v lost.now s (entry T.number R.value m values.new) (R.value m (T.number a))) }
    ensures counted { products.new ≤ products.old
        + locate_products (length points.now) (length syndromes.now - length lost.now) (length lost.now) }
    ensures least { products.new < 2 ^ 128 - 1 → products.old
        + moment_products (length syndromes.now - length lost.now) (length lost.now) ≤ products.new }
{
    let count = syndromes.len() - lost.len();
    let (located, rest) = scratch.split_at_mut(lost.len());
    let (product, rest) = rest.split_at_mut(lost.len() + 1);
    let (moments, rest) = rest.split_at_mut(count);
    let (first, rest) = rest.split_at_mut(count / 2 + 1);
    let (second, _) = rest.split_at_mut(count / 2 + 1);
    copy_points(r, points, lost, located);
    fill_moments(r, located, syndromes, product, moments);
    let c = lost.len() as u128;
    *products = products.saturating_add(c.saturating_mul(c + 3) / 2);
    *products = products.saturating_add((count as u128).saturating_mul(c + 1));
    match find_locator(r, moments, first, second, products) {
        None => None,
        Some(found) => {
            let of_values = fill_values_of(r, points, first, second, found.1, found.0, values);
            *products = products.saturating_add(of_values);
            clear_lost(r, lost, values);
            Some(found.2)
        }
    }
}

// A number without an inverse, of the witness and the values that aren't 0, or a product of some; `None` where each has one.
// It takes a product for each value.
pub fn find_nonunit<T: RingWord, R: Reducer<T>>(r: &R, witness: &T, values: &[T]) -> Option<T>
    requires witness { IsChecked R.Reducer T.number r.now witness.now }
    requires values { AreChecked R.Reducer T.number r.now values.now }
    requires nonzero { R.value (R.modulus r.now) (T.number witness.now) ≢ 0 }
    ensures { let m = R.modulus r.now in MatchOption result
        (HasInverse m (R.value m (T.number witness.now)) × ((i : ℕ) → i < length values.now →
        entry T.number R.value m values.now i ≢ 0 → HasInverse m (entry T.number R.value m values.now i)))
        (λ a. IsWithoutInverse m (T.number a)) }
{
    let mut product = *witness;
    'values: for i in 0..values.len() {
        product = joined(r, &product, &values[i]);
    }
    match r.inv(product) {
        Some(_) => None,
        None => Some(r.residue(product)),
    }
}

// The product of two numbers, the first of which isn't 0; the first, where the product is 0.
fn joined<T: RingWord, R: Reducer<T>>(r: &R, witness: &T, value: &T) -> T
    requires witness { IsChecked R.Reducer T.number r.now witness.now }
    requires value { IsChecked R.Reducer T.number r.now value.now }
    requires nonzero { R.value (R.modulus r.now) (T.number witness.now) ≢ 0 }
    ensures checked { IsChecked R.Reducer T.number r.now result }
    ensures nonzero { R.value (R.modulus r.now) (T.number result) ≢ 0 }
    ensures units { let m = R.modulus r.now in HasInverse m (R.value m (T.number result)) →
        HasInverse m (R.value m (T.number witness.now))
        × (R.value m (T.number value.now) ≢ 0 → HasInverse m (R.value m (T.number value.now))) }
{
    let product = r.mul(witness, value);
    if r.is_zero(&product) {
        *witness
    } else {
        product
    }
}
