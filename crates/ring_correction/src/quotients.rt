//! The message from a pair that solves the key equation: the quotients N(x)/E(x) at k points are its values there.

ghost use Rattle.std.specs.Prelude.{◌≡◌, ◌≢◌, ℕ, ◌+◌, ◌*◌, ◌%◌, ◌<◌, ◌≤◌};
ghost use Rattle.std.specs.Prelude.{IsTrue, IfOk, IfErr, length, take, drop, MatchOption};
ghost use Rattle.num_modular.specs.Congruence.{Congruent};
ghost use Rattle.num_modular.specs.Entries.{entry};
ghost use Rattle.num_modular.specs.Checked.{AreChecked, IsChecked};
ghost use Rattle.num_modular.specs.Forms.{IsForm};
ghost use Rattle.num_modular.specs.Inverses.{HasInverse};
ghost use Rattle.num_modular.specs.Polynomials.{polynomial_at, HaveUnitDifferences};
ghost use Rattle.ring_codes.specs.Erasure.{distance};
ghost use Rattle.ring_correction.specs.KeyEquations.{IsKeyPair, AreKeyPairs, AreQuotients, IsQuotient};
ghost use Rattle.ring_codes.specs.Erasure.{IsWithoutInverse};

use num_modular::{Reducer, RingWord};
use ring_codes::erasure::{evaluate, interpolate};

/// The form of N(x)/E(x); `None` where E(x) is 0 and has no inverse.
///
/// Where E(x) is another number without an inverse modulo m, it returns that number.
///
/// # Preconditions
///
/// - point, numerator and locator are checked forms
pub fn quotient<T: RingWord, R: Reducer<T>>(
    r: &R,
    point: &T,
    numerator: &[T],
    locator: &[T],
) -> Result<Option<T>, T>
    requires point { IsChecked R.Reducer T.number r.now point.now }
    requires numerator { AreChecked R.Reducer T.number r.now numerator.now }
    requires locator { AreChecked R.Reducer T.number r.now locator.now }
    ensures inverse { IfErr result (λ a. IsWithoutInverse (R.modulus r.now) (T.number a)) }
    ensures quotient { let m = R.modulus r.now in let x = R.value m (T.number point.now) in
        let n = polynomial_at (length numerator.now) (entry T.number R.value m numerator.now) x in
        let e = polynomial_at (length locator.now) (entry T.number R.value m locator.now) x in
        IfOk result (λ found. MatchOption found ((e % m ≡ 0) × (HasInverse m 0 → ⊥))
        (λ f. IsForm R.form R.value m (T.number f) × IsQuotient m n e (R.value m (T.number f)))) }
{
    let value = evaluate(r, locator, point);
    match r.inv(value) {
        Some(inverse) => {
            let dividend = evaluate(r, numerator, point);
            Ok(Some(r.mul(&dividend, &inverse)))
        }
        None => {
            if r.is_zero(&value) {
                Ok(None)
            } else {
                Err(r.residue(value))
            }
        }
    }
}

/// Writes the first k points at which E(x) has an inverse, and the quotients N(x)/E(x) there, k being the number of the
/// places for them.
///
/// Returns false where there are fewer. Where E(x) isn't 0 and has no inverse modulo m, it returns that number.
///
/// # Preconditions
///
/// - all are checked forms
/// - k is at least 1 and at most the number of points
#[tactic(auto, using(num_modular::specs::Callers::form_read))]
pub fn divide<T: RingWord, R: Reducer<T>>(
    r: &R,
    points: &[T],
    numerator: &[T],
    locator: &[T],
    chosen: &mut [T],
    values: &mut [T],
) -> Result<bool, T>
    requires points { AreChecked R.Reducer T.number r.now points.now }
    requires numerator { AreChecked R.Reducer T.number r.now numerator.now }
    requires locator { AreChecked R.Reducer T.number r.now locator.now }
    requires some { 0 < length chosen.old }
    requires few { length chosen.old ≤ length points.now }
    requires equal { length values.old ≡ length chosen.old }
    ensures inverse { IfErr result (λ a. IsWithoutInverse (R.modulus r.now) (T.number a)) }
    ensures checked_chosen { IfOk result (λ b. IsTrue b →
        AreChecked R.Reducer T.number r.now chosen.new) }
    ensures checked_values { IfOk result (λ b. IsTrue b →
        AreChecked R.Reducer T.number r.now values.new) }
    ensures quotients { let m = R.modulus r.now in
        let n = polynomial_at (length numerator.now) (entry T.number R.value m numerator.now) in
        let e = polynomial_at (length locator.now) (entry T.number R.value m locator.now) in
        IfOk result (λ b. IsTrue b → AreQuotients m (length points.now) (length chosen.old)
        (entry T.number R.value m points.now) n e (entry T.number R.value m chosen.new)
        (entry T.number R.value m values.new)) }
    ensures zeros { let m = R.modulus r.now in
        let e = polynomial_at (length locator.now) (entry T.number R.value m locator.now) in
        IfOk result (λ b. (IsTrue b → ⊥) → (HasInverse m 0 → ⊥)
        × (distance (length points.now) (λ j. e (entry T.number R.value m points.now j) % m) (λ j. 0)
        < length chosen.old)) }
{
    let mut found = 0;
    'points: for i in 0..points.len() {
        match quotient(r, &points[i], numerator, locator) {
            Err(a) => return Err(a),
            Ok(None) => continue,
            Ok(Some(value)) => {
                chosen[found] = points[i];
                values[found] = value;
                found += 1;
                if found == chosen.len() {
                    return Ok(true);
                }
            }
        }
    }
    Ok(false)
}

/// Writes the message whose values are the quotients of a pair: one list, whose first `split` coefficients are its
/// numerator's.
///
/// Returns false where fewer than k quotients exist. The contents of `scratch` are ignored, and unspecified afterwards.
///
/// # Preconditions
///
/// - the conditions of [`divide`] hold
/// - the numerator is within the pair
/// - there are three places of scratch for each symbol of the message
/// - the points fit
#[tactic(auto, using(crate::proofs::KeyPairs::rest_whole))]
pub fn divide_pair<T: RingWord, R: Reducer<T>>(
    r: &R,
    points: &[T],
    pair: &[T],
    split: usize,
    scratch: &mut [T],
    message: &mut [T],
) -> Result<bool, T>
    requires points { AreChecked R.Reducer T.number r.now points.now }
    requires pair { AreChecked R.Reducer T.number r.now pair.now }
    requires split { split ≤ length pair.now }
    requires some { 0 < length message.old }
    requires few { length message.old ≤ length points.now }
    requires room { 3 * length message.old ≤ length scratch.old }
    requires fit { let m = R.modulus r.now in
        HaveUnitDifferences m (length points.now) (entry T.number R.value m points.now) }
    ensures inverse { IfErr result (λ a. IsWithoutInverse (R.modulus r.now) (T.number a)) }
    ensures checked { IfOk result (λ b. IsTrue b →
        AreChecked R.Reducer T.number r.now message.new) }
    ensures message { let m = R.modulus r.now in
        let k = length message.old in let s = length points.now in let x = entry T.number R.value m points.now in
        IfOk result (λ b. (d u : ℕ) (y sent : ℕ → ℕ) → length pair.now ≡ split + d → 1 ≤ d →
        d + k ≡ split + 1 → split ≤ s → u < 2 * split → IsKeyPair m k split d s u x y
        (entry T.number R.value m (take split pair.now)) (entry T.number R.value m (drop split pair.now)) →
        distance s y (λ j. polynomial_at k sent (x j) % m) + split ≤ s →
        IsTrue b × ((i : ℕ) → i < k → entry T.number R.value m message.new i ≡ sent i % m)) }
{
    let k = message.len();
    let (chosen, rest) = scratch.split_at_mut(k);
    let (values, rest) = rest.split_at_mut(k);
    let weights = &mut rest[..k];
    let numerator = &pair[..split];
    let locator = &pair[split..];
    match divide(r, points, numerator, locator, chosen, values) {
        Err(a) => Err(a),
        Ok(false) => Ok(false),
        Ok(true) => Ok(interpolate(r, chosen, values, weights, message)),
    }
}

/// Writes the message whose values are the quotients of the lighter of two pairs, given their weights.
///
/// It is the only message that can have a near word; returns false where there is none.
///
/// # Preconditions
///
/// - the conditions of [`divide_pair`] hold, for both pairs
pub fn divide_lighter<T: RingWord, R: Reducer<T>>(
    r: &R,
    points: &[T],
    pair_weights: (usize, usize),
    first: &[T],
    second: &[T],
    split: usize,
    scratch: &mut [T],
    message: &mut [T],
) -> Result<bool, T>
    requires points { AreChecked R.Reducer T.number r.now points.now }
    requires first { AreChecked R.Reducer T.number r.now first.now }
    requires second { AreChecked R.Reducer T.number r.now second.now }
    requires first_split { split ≤ length first.now }
    requires second_split { split ≤ length second.now }
    requires some { 0 < length message.old }
    requires few { length message.old ≤ length points.now }
    requires room { 3 * length message.old ≤ length scratch.old }
    requires fit { let m = R.modulus r.now in
        HaveUnitDifferences m (length points.now) (entry T.number R.value m points.now) }
    ensures inverse { IfErr result (λ a. IsWithoutInverse (R.modulus r.now) (T.number a)) }
    ensures checked { IfOk result (λ b. IsTrue b →
        AreChecked R.Reducer T.number r.now message.new) }
    ensures message { let m = R.modulus r.now in
        let k = length message.old in let s = length points.now in let x = entry T.number R.value m points.now in
        IfOk result (λ b. (d : ℕ) (y sent : ℕ → ℕ) → length first.now ≡ split + d → length second.now ≡ split + d →
        1 ≤ d → d + k ≡ split + 1 → split ≤ s → pair_weights.0 + pair_weights.1 < 2 * split →
        AreKeyPairs m k split d s pair_weights.0 pair_weights.1 x y
        (entry T.number R.value m (take split first.now)) (entry T.number R.value m (drop split first.now))
        (entry T.number R.value m (take split second.now)) (entry T.number R.value m (drop split second.now)) →
        distance s y (λ j. polynomial_at k sent (x j) % m) + split ≤ s →
        IsTrue b × ((i : ℕ) → i < k → entry T.number R.value m message.new i ≡ sent i % m)) }
{
    if pair_weights.0 <= pair_weights.1 {
        divide_pair(r, points, first, split, scratch, message)
    } else {
        divide_pair(r, points, second, split, scratch, message)
    }
}
