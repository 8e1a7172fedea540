//! The errors at chosen places: those where a value is 0.

ghost use Rattle.std.specs.Prelude.{◌≡◌, ◌≢◌, ℕ, ◌+◌, ◌-◌, ◌*◌, ◌%◌, ◌<◌, ◌≤◌, ◌↔◌, ◌==◌, if◌then◌else◌};
ghost use Rattle.std.specs.Prelude.{IsTrue, MatchOption, length, slice_set};
ghost use Rattle.num_modular.specs.Congruence.{Congruent};
ghost use Rattle.num_modular.specs.Entries.{entry};
ghost use Rattle.num_modular.specs.Checked.{AreChecked, IsChecked};
ghost use Rattle.num_modular.specs.Inverses.{HasInverse};
ghost use Rattle.num_modular.specs.Polynomials.{HaveUnitDifferences};
ghost use Rattle.ring_decoder.specs.Corrector.{without};
ghost use Rattle.ring_decoder.specs.Products.{solve_products};
ghost use Rattle.ring_decoder.specs.ErrorPatterns.{zeros, spread, AreChosen, Covers, IsNearPattern, IsSolution, listed_weight};
ghost use Rattle.ring_decoder.specs.PowerSums.{ArePowerSums};

use super::errors::{multiply_each, solve_errors};
use super::syndromes::are_power_sums;
use num_modular::{Reducer, RingWord};

// The number of the values that are 0.
pub fn count_zeros<T: RingWord, R: Reducer<T>>(r: &R, values: &[T]) -> usize
    requires values { AreChecked R.Reducer T.number r.now values.now }
    ensures { let m = R.modulus r.now in result ≡ zeros (length values.now) (entry T.number R.value m values.now) }
{
    let mut count = 0;
    'values: for i in 0..values.len() {
        if r.is_zero(&values[i]) {
            count += 1;
        }
    }
    count
}

// Writes a number at a place.
fn put<T: RingWord>(numbers: &mut [T], place: usize, number: &T)
    requires { place < length numbers.old }
    ensures { numbers.new ≡ slice_set numbers.old place number.now }
{
    numbers[place] = *number;
}

// Copies the numbers of the chosen places.
#[tactic(auto, using(crate::proofs::ChosenPlaces::zeros_before, num_modular::specs::Callers::entry_read))]
fn gather<T: RingWord, R: Reducer<T>>(r: &R, values: &[T], numbers: &[T], chosen: &mut [T])
    requires values { AreChecked R.Reducer T.number r.now values.now }
    requires numbers { AreChecked R.Reducer T.number r.now numbers.now }
    requires pairs { length numbers.now ≡ length values.now }
    requires room { let m = R.modulus r.now in
        length chosen.old ≡ zeros (length values.now) (entry T.number R.value m values.now) }
    ensures checked { AreChecked R.Reducer T.number r.now chosen.new }
    ensures chosen { let m = R.modulus r.now in AreChosen (length values.now) (entry T.number R.value m values.now)
        (entry T.number R.value m numbers.now) (entry T.number R.value m chosen.new) }
{
    let mut next = 0;
    'values: for i in 0..values.len() {
        if r.is_zero(&values[i]) {
            put(chosen, next, &numbers[i]);
            next += 1;
        }
    }
}

// Writes the errors at all places: those at the chosen ones, and 0 at the others.
#[tactic(auto, using(crate::specs::ErrorPatterns::spread, num_modular::specs::Callers::held_entry))]
fn scatter<T: RingWord, R: Reducer<T>>(r: &R, values: &[T], chosen: &[T], errors: &mut [T])
    requires values { AreChecked R.Reducer T.number r.now values.now }
    requires chosen { AreChecked R.Reducer T.number r.now chosen.now }
    requires count { let m = R.modulus r.now in
        length chosen.now ≡ zeros (length values.now) (entry T.number R.value m values.now) }
    requires room { length errors.old ≡ length values.now }
    ensures checked { AreChecked R.Reducer T.number r.now errors.new }
    ensures errors { let m = R.modulus r.now in (i : ℕ) → i < length values.now → entry T.number R.value m errors.new i
        ≡ spread (entry T.number R.value m values.now) (entry T.number R.value m chosen.now) i }
{
    let zero = r.transform(T::zero());
    let mut next = 0;
    'values: for i in 0..values.len() {
        if r.is_zero(&values[i]) {
            errors[i] = chosen[next];
            next += 1;
        } else {
            errors[i] = zero;
        }
    }
}

// Writes the errors at the chosen points, if there are any with all the syndromes. The number of products is added.
fn solve_chosen<T: RingWord, R: Reducer<T>>(
    r: &R,
    points: &[T],
    weights: &[T],
    syndromes: &[T],
    scratch: &mut [T],
    errors: &mut [T],
    products: &mut u128,
) -> bool
    requires points { AreChecked R.Reducer T.number r.now points.now }
    requires weights { AreChecked R.Reducer T.number r.now weights.now }
    requires syndromes { AreChecked R.Reducer T.number r.now syndromes.now }
    requires pairs { length weights.now ≡ length points.now }
    requires few { length points.now ≤ length syndromes.now }
    requires fit { let m = R.modulus r.now in
        HaveUnitDifferences m (length points.now) (entry T.number R.value m points.now) }
    requires units { let m = R.modulus r.now in (i : ℕ) → i < length points.now →
        HasInverse m (entry T.number R.value m weights.now i) }
    requires scratch { 3 * length points.now + 1 ≤ length scratch.old }
    requires room { length errors.old ≡ length points.now }
    ensures checked { IsTrue result → AreChecked R.Reducer T.number r.now errors.new }
    ensures sums { let m = R.modulus r.now in IsTrue result →
        ArePowerSums m (length syndromes.now) (length points.now) (entry T.number R.value m points.now)
        (λ i. entry T.number R.value m weights.now i * entry T.number R.value m errors.new i)
        (entry T.number R.value m syndromes.now) }
    ensures only { let m = R.modulus r.now in (e : ℕ → ℕ) →
        ArePowerSums m (length syndromes.now) (length points.now) (entry T.number R.value m points.now)
        (λ i. entry T.number R.value m weights.now i * e i) (entry T.number R.value m syndromes.now) →
        IsTrue result × ((i : ℕ) → i < length points.now → entry T.number R.value m errors.new i ≡ e i % m) }
    ensures counted { products.new ≤ products.old + solve_products (length points.now) (length syndromes.now) }
    ensures grown { products.old ≤ products.new }
{
    let (product, rest) = scratch.split_at_mut(points.len() + 1);
    let (terms, rest) = rest.split_at_mut(points.len());
    let (spare, _) = rest.split_at_mut(points.len());
    let q = points.len() as u128;
    *products = products.saturating_add(q.saturating_mul(7 * q + 13) / 2);
    if !solve_errors(r, points, weights, syndromes, product, terms, spare, errors) {
        return false;
    }
    multiply_each(r, weights, errors, terms);
    are_power_sums(r, points, terms, syndromes, products)
}

// 1 where the error at a place that isn't lost isn't 0, otherwise 0.
fn is_wrong<T: RingWord, R: Reducer<T>>(r: &R, lost: &[usize], error: &T, place: usize) -> usize
    requires error { IsChecked R.Reducer T.number r.now error.now }
    ensures counted { let m = R.modulus r.now in
        result ≡ (if without lost.now (λ i. R.value m (T.number error.now)) place == 0 then 0 else 1) }
    ensures few { result ≤ 1 }
{
    if r.is_zero(error) || lost.contains(&place) {
        0
    } else {
        1
    }
}

// The number of the errors that aren't 0, at places that aren't lost.
#[tactic(auto, using(ring_codes::proofs::Distances::none_counted))]
fn count_wrong<T: RingWord, R: Reducer<T>>(r: &R, lost: &[usize], errors: &[T]) -> usize
    requires errors { AreChecked R.Reducer T.number r.now errors.now }
    ensures { let m = R.modulus r.now in
        result ≡ listed_weight m (length errors.now) lost.now (entry T.number R.value m errors.now) }
{
    let mut wrong = 0;
    'errors: for i in 0..errors.len() {
        wrong += is_wrong(r, lost, &errors[i], i);
    }
    wrong
}

// Writes the errors at all places, 0 where a value isn't 0, if there are any with all the syndromes that are few enough:
// returns how many are at places that aren't lost. The number of products is added.
pub fn solve<T: RingWord, R: Reducer<T>>(
    r: &R,
    points: &[T],
    weights: &[T],
    lost: &[usize],
    syndromes: &[T],
    values: &[T],
    scratch: &mut [T],
    errors: &mut [T],
    products: &mut u128,
) -> Option<usize>
    requires points { AreChecked R.Reducer T.number r.now points.now }
    requires weights { AreChecked R.Reducer T.number r.now weights.now }
    requires syndromes { AreChecked R.Reducer T.number r.now syndromes.now }
    requires values { AreChecked R.Reducer T.number r.now values.now }
    requires each_weight { length weights.now ≡ length points.now }
    requires each_value { length values.now ≡ length points.now }
    requires fit { let m = R.modulus r.now in
        HaveUnitDifferences m (length points.now) (entry T.number R.value m points.now) }
    requires units { let m = R.modulus r.now in (i : ℕ) → i < length points.now →
        HasInverse m (entry T.number R.value m weights.now i) }
    requires lost { length lost.now ≤ length syndromes.now }
    requires scratch { 6 * length syndromes.now + 1 ≤ length scratch.old }
    requires room { length errors.old ≡ length points.now }
    ensures solved { let m = R.modulus r.now in let n = length points.now in let t = length syndromes.now in
        let x = entry T.number R.value m points.now in let v = entry T.number R.value m weights.now in
        let s = entry T.number R.value m syndromes.now in MatchOption result
        ((e : ℕ → ℕ) → IsNearPattern m t n x v lost.now s e → Covers m t n (entry T.number R.value m values.now) e → ⊥)
        (λ wrong. AreChecked R.Reducer T.number r.now errors.new
        × IsSolution m t n x v lost.now s (entry T.number R.value m errors.new) wrong) }
    ensures counted { let t = length syndromes.now in products.new ≤ products.old + solve_products t t }
    ensures grown { products.old ≤ products.new }
{
    let q = count_zeros(r, values);
    if q > syndromes.len() {
        return None;
    }
    let (chosen, rest) = scratch.split_at_mut(q);
    let (chosen_weights, rest) = rest.split_at_mut(q);
    let (chosen_errors, rest) = rest.split_at_mut(q);
    gather(r, values, points, chosen);
    gather(r, values, weights, chosen_weights);
    if !solve_chosen(
        r,
        chosen,
        chosen_weights,
        syndromes,
        rest,
        chosen_errors,
        products,
    ) {
        return None;
    }
    scatter(r, values, chosen_errors, errors);
    let wrong = count_wrong(r, lost, errors);
    if wrong > (syndromes.len() - lost.len()) / 2 {
        None
    } else {
        Some(wrong)
    }
}

// Subtracts the errors from the word.
pub fn subtract<T: RingWord, R: Reducer<T>>(r: &R, errors: &[T], word: &mut [T])
    requires errors { AreChecked R.Reducer T.number r.now errors.now }
    requires word { AreChecked R.Reducer T.number r.now word.old }
    requires room { length word.old ≡ length errors.now }
    ensures checked { AreChecked R.Reducer T.number r.now word.new }
    ensures difference { let m = R.modulus r.now in (i : ℕ) → i < length errors.now → Congruent m
        (entry T.number R.value m word.new i + entry T.number R.value m errors.now i) (entry T.number R.value m word.old i) }
{
    'places: for i in 0..errors.len() {
        let symbol = r.sub(&word[i], &errors[i]);
        word[i] = symbol;
    }
}
