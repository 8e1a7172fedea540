//! Pairs of polynomials that solve the key equation: N(x) = y·E(x) at the points x with the symbols y.
//!
//! A pair is one list: the coefficients of its numerator N, the constant first, and from the index `split` on those of
//! its locator E.

ghost use Rattle.std.specs.Prelude.{◌≡◌, ◌≢◌, ℕ, zero, suc, ◌+◌, ◌*◌, ◌%◌, ◌<◌, ◌≤◌};
ghost use Rattle.std.specs.Prelude.{◌^◌, IsOk, IfOk, IfErr, length, take, drop};
ghost use Rattle.num_modular.specs.Congruence.{Congruent};
ghost use Rattle.num_modular.specs.Entries.{entry};
ghost use Rattle.num_modular.specs.Checked.{AreChecked, IsChecked};
ghost use Rattle.num_modular.specs.Polynomials.{polynomial_at};
ghost use Rattle.ring_correction.specs.KeyAdvance.{HoldsPair, HoldPairs};
ghost use Rattle.ring_codes.specs.Shifts.{shifted};
ghost use Rattle.ring_codes.specs.Erasure.{IsWithoutInverse};

use num_modular::{Reducer, RingWord};
use ring_codes::erasure::{evaluate, multiply_by_root};

/// The form of N(x) - y·E(x), for a point x with the symbol y.
///
/// # Preconditions
///
/// - point, symbol and pair are checked forms
/// - the numerator is within the pair
#[tactic(auto, using(crate::proofs::KeyPairs::rest_whole))]
pub fn discrepancy<T: RingWord, R: Reducer<T>>(
    r: &R,
    point: &T,
    symbol: &T,
    pair: &[T],
    split: usize,
) -> T
    requires point { IsChecked R.Reducer T.number r.now point.now }
    requires symbol { IsChecked R.Reducer T.number r.now symbol.now }
    requires pair { AreChecked R.Reducer T.number r.now pair.now }
    requires within { split ≤ length pair.now }
    ensures checked { IsChecked R.Reducer T.number r.now result }
    ensures value { let m = R.modulus r.now in let entries = entry T.number R.value m in (d x y : ℕ) →
        length pair.now ≡ split + d → x ≡ R.value m (T.number point.now) → y ≡ R.value m (T.number symbol.now) →
        Congruent m (R.value m (T.number result) + y * polynomial_at d (entries (drop split pair.now)) x)
        (polynomial_at split (entries (take split pair.now)) x) }
{
    let value = evaluate(r, &pair[..split], point);
    let located = evaluate(r, &pair[split..], point);
    let product = r.mul(symbol, &located);
    r.sub(&value, &product)
}

/// Replaces each coefficient c by a·c - b·p, p being the other polynomial's.
///
/// # Preconditions
///
/// - all are checked forms
/// - the polynomials have as many coefficients
#[tactic(auto, using(num_modular::specs::Callers::form_read))]
pub fn eliminate<T: RingWord, R: Reducer<T>>(
    r: &R,
    a: &T,
    coefficients: &mut [T],
    b: &T,
    pivots: &[T],
)
    requires a { IsChecked R.Reducer T.number r.now a.now }
    requires coefficients { AreChecked R.Reducer T.number r.now coefficients.old }
    requires b { IsChecked R.Reducer T.number r.now b.now }
    requires pivots { AreChecked R.Reducer T.number r.now pivots.now }
    requires equal { length pivots.now ≡ length coefficients.old }
    ensures checked { AreChecked R.Reducer T.number r.now coefficients.new }
    ensures difference { let m = R.modulus r.now in (i : ℕ) → i < length coefficients.old →
        Congruent m (entry T.number R.value m coefficients.new i
        + R.value m (T.number b.now) * entry T.number R.value m pivots.now i)
        (R.value m (T.number a.now) * entry T.number R.value m coefficients.old i) }
{
    'coefficients: for i in 0..coefficients.len() {
        let own = r.mul(a, &coefficients[i]);
        let product = r.mul(b, &pivots[i]);
        coefficients[i] = r.sub(&own, &product);
    }
}

/// Writes 1 at a place, and 0 elsewhere.
///
/// # Preconditions
///
/// - the list has that place
#[tactic(auto, using(num_modular::specs::Callers::entry_written, num_modular::specs::Callers::forms_written, num_modular::specs::Callers::held_forms, num_modular::specs::Callers::hold_more, ring_codes::proofs::Counts::zero_mod))]
pub fn set_unit<T: RingWord, R: Reducer<T>>(r: &R, place: usize, coefficients: &mut [T])
    requires { place < length coefficients.old }
    ensures checked { AreChecked R.Reducer T.number r.now coefficients.new }
    ensures one { let m = R.modulus r.now in entry T.number R.value m coefficients.new place ≡ 1 % m }
    ensures others { let m = R.modulus r.now in (i : ℕ) → i ≢ place → entry T.number R.value m coefficients.new i ≡ 0 }
{
    let zero = r.transform(T::zero());
    let one = r.transform(T::one());
    'coefficients: for i in 0..coefficients.len() {
        coefficients[i] = zero;
    }
    coefficients[place] = one;
}

/// Multiplies a pair by X - x.
///
/// # Preconditions
///
/// - point and pair are checked forms
/// - the numerator is within the pair
pub fn raise<T: RingWord, R: Reducer<T>>(r: &R, point: &T, pair: &mut [T], split: usize)
    requires point { IsChecked R.Reducer T.number r.now point.now }
    requires pair { AreChecked R.Reducer T.number r.now pair.old }
    requires within { split ≤ length pair.old }
    ensures checked { AreChecked R.Reducer T.number r.now pair.new }
    ensures pair { let m = R.modulus r.now in let entries = entry T.number R.value m in (d k i u v : ℕ) (x y : ℕ → ℕ) →
        length pair.old ≡ split + d → d + k ≡ split + 1 → v ≡ u + 2 → x i ≡ R.value m (T.number point.now) →
        HoldsPair entries m k split d i u x y pair.old → HoldsPair entries m k split d (i + 1) v x y pair.new }
{
    let (numerator, locator) = pair.split_at_mut(split);
    multiply_by_root(r, point, numerator, numerator.len());
    multiply_by_root(r, point, locator, locator.len());
}

/// With the discrepancies p of the pivot and d of the other pair at a point x, replaces the other pair by p·other -
/// d·pivot and multiplies the pivot by X - x.
///
/// Where p has no inverse, it returns p instead.
///
/// # Preconditions
///
/// - all are checked forms, p isn't 0, both pairs have as many coefficients, and the numerators are within them
pub fn reduce<T: RingWord, R: Reducer<T>>(
    r: &R,
    point: &T,
    pivot_discrepancy: &T,
    pivot: &mut [T],
    discrepancy: &T,
    other: &mut [T],
    split: usize,
) -> Result<(), T>
    requires point { IsChecked R.Reducer T.number r.now point.now }
    requires pivot_discrepancy { IsChecked R.Reducer T.number r.now pivot_discrepancy.now }
    requires nonzero { R.value (R.modulus r.now) (T.number pivot_discrepancy.now) ≢ 0 }
    requires pivot { AreChecked R.Reducer T.number r.now pivot.old }
    requires discrepancy { IsChecked R.Reducer T.number r.now discrepancy.now }
    requires other { AreChecked R.Reducer T.number r.now other.old }
    requires equal { length pivot.old ≡ length other.old }
    requires within { split ≤ length other.old }
    ensures inverse { IfErr result (λ a. IsWithoutInverse (R.modulus r.now) (T.number a)) }
    ensures checked_pivot { IsOk result → AreChecked R.Reducer T.number r.now pivot.new }
    ensures checked_other { IsOk result → AreChecked R.Reducer T.number r.now other.new }
    ensures pivot { let m = R.modulus r.now in let entries = entry T.number R.value m in IsOk result →
        (d k i u v : ℕ) (x y : ℕ → ℕ) → length other.old ≡ split + d → d + k ≡ split + 1 → v ≡ u + 2 →
        x i ≡ R.value m (T.number point.now) →
        HoldsPair entries m k split d i u x y pivot.old → HoldsPair entries m k split d (i + 1) v x y pivot.new }
    ensures other { let m = R.modulus r.now in let entries = entry T.number R.value m in IsOk result →
        (d k i u v : ℕ) (x y : ℕ → ℕ) → length other.old ≡ split + d → d + k ≡ split + 1 → u < v →
        Congruent m (R.value m (T.number pivot_discrepancy.now)
        + y i * polynomial_at d (entries (drop split pivot.old)) (x i))
        (polynomial_at split (entries (take split pivot.old)) (x i)) →
        Congruent m (R.value m (T.number discrepancy.now) + y i * polynomial_at d (entries (drop split other.old)) (x i))
        (polynomial_at split (entries (take split other.old)) (x i)) →
        HoldsPair entries m k split d i u x y pivot.old → HoldsPair entries m k split d i v x y other.old →
        HoldsPair entries m k split d (i + 1) v x y other.new }
{
    match r.inv(*pivot_discrepancy) {
        None => Err(r.residue(*pivot_discrepancy)),
        Some(_) => {
            eliminate(r, pivot_discrepancy, other, discrepancy, pivot);
            raise(r, point, pivot, split);
            Ok(())
        }
    }
}

/// Makes two pairs solve the key equation at one more point, and returns their new weights.
///
/// Where a number without an inverse modulo m is in the way, it returns that number.
///
/// # Preconditions
///
/// - all are checked forms, both pairs have as many coefficients, and the numerators are within them
pub fn advance<T: RingWord, R: Reducer<T>>(
    r: &R,
    point: &T,
    symbol: &T,
    first: &mut [T],
    second: &mut [T],
    split: usize,
    weights: (usize, usize),
) -> Result<(usize, usize), T>
    requires point { IsChecked R.Reducer T.number r.now point.now }
    requires symbol { IsChecked R.Reducer T.number r.now symbol.now }
    requires first { AreChecked R.Reducer T.number r.now first.old }
    requires second { AreChecked R.Reducer T.number r.now second.old }
    requires equal { length first.old ≡ length second.old }
    requires within { split ≤ length first.old }
    requires few { weights.0 + weights.1 + 1 < 2 ^ 64 }
    ensures inverse { IfErr result (λ a. IsWithoutInverse (R.modulus r.now) (T.number a)) }
    ensures checked_first { IsOk result → AreChecked R.Reducer T.number r.now first.new }
    ensures checked_second { IsOk result → AreChecked R.Reducer T.number r.now second.new }
    ensures weights { IfOk result (λ w. w.0 + w.1 ≤ weights.0 + weights.1 + 1) }
    ensures pairs { let m = R.modulus r.now in let entries = entry T.number R.value m in IfOk result (λ w.
        (d k i : ℕ) (x y : ℕ → ℕ) → length first.old ≡ split + d → d + k ≡ split + 1 →
        x i ≡ R.value m (T.number point.now) → y i ≡ R.value m (T.number symbol.now) →
        HoldPairs entries m k split d i weights.0 weights.1 x y first.old second.old →
        HoldPairs entries m k split d (i + 1) w.0 w.1 x y first.new second.new) }
{
    let first_discrepancy = discrepancy(r, point, symbol, first, split);
    let second_discrepancy = discrepancy(r, point, symbol, second, split);
    if r.is_zero(&first_discrepancy) {
        if r.is_zero(&second_discrepancy) {
            return Ok(weights);
        }
        raise(r, point, second, split);
        return Ok((weights.0, weights.1 + 1));
    }
    if r.is_zero(&second_discrepancy) {
        raise(r, point, first, split);
        return Ok((weights.0 + 1, weights.1));
    }
    if weights.0 <= weights.1 {
        match reduce(
            r,
            point,
            &first_discrepancy,
            first,
            &second_discrepancy,
            second,
            split,
        ) {
            Err(a) => Err(a),
            Ok(()) => Ok((weights.0 + 1, weights.1)),
        }
    } else {
        match reduce(
            r,
            point,
            &second_discrepancy,
            second,
            &first_discrepancy,
            first,
            split,
        ) {
            Err(a) => Err(a),
            Ok(()) => Ok((weights.0, weights.1 + 1)),
        }
    }
}

/// Finds two pairs that solve the key equation at s points, and returns their weights, of which one is small: they add
/// up to at most s + k - 1.
///
/// The pairs at the start are (1, 0) and (0, 1), with the weights 0 and k - 1. What the pairs hold before is ignored.
///
/// Source: Kötter, "On algebraic decoding of algebraic-geometric and cyclic codes"; without division, as Berlekamp,
/// "Bounded distance + 1 soft-decision Reed-Solomon decoding".
///
/// # Preconditions
///
/// - points and symbols are checked forms
/// - each point has its symbol
/// - k is at least 1
/// - both numerators have `split` coefficients, the locators k - 1 fewer, but one at least
#[tactic(auto, using(num_modular::specs::Callers::form_read))]
pub fn solve<T: RingWord, R: Reducer<T>>(
    r: &R,
    points: &[T],
    symbols: &[T],
    k: usize,
    first: &mut [T],
    second: &mut [T],
    split: usize,
) -> Result<(usize, usize), T>
    requires points { AreChecked R.Reducer T.number r.now points.now }
    requires symbols { AreChecked R.Reducer T.number r.now symbols.now }
    requires symbols_each { length symbols.now ≡ length points.now }
    requires equal { length first.old ≡ length second.old }
    requires some { split < length first.old }
    requires lengths { length first.old + k ≡ 2 * split + 1 }
    requires positive { 1 ≤ k }
    requires few { length points.now + k < 2 ^ 64 }
    ensures inverse { IfErr result (λ a. IsWithoutInverse (R.modulus r.now) (T.number a)) }
    ensures checked_first { IsOk result → AreChecked R.Reducer T.number r.now first.new }
    ensures checked_second { IsOk result → AreChecked R.Reducer T.number r.now second.new }
    ensures weights { IfOk result (λ w. w.0 + w.1 < length points.now + k) }
    ensures pairs { let m = R.modulus r.now in let entries = entry T.number R.value m in IfOk result (λ w. (d : ℕ) →
        length first.old ≡ split + d → HoldPairs entries m k split d (length points.now) w.0 w.1
        (entries points.now) (entries symbols.now) first.new second.new) }
{
    set_unit(r, 0, first);
    set_unit(r, split, second);
    let mut weights = (0, k - 1);
    'symbols: for i in 0..points.len() {
        match advance(r, &points[i], &symbols[i], first, second, split, weights) {
            Err(a) => return Err(a),
            Ok(w) => weights = w,
        }
    }
    Ok(weights)
}
