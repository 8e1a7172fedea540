//! Polynomials with given roots.

ghost use Rattle.std.specs.Prelude.{◌≡◌, ℕ, ◌+◌, ◌*◌, ◌<◌, ◌≤◌, length};
ghost use Rattle.num_modular.specs.Congruence.{Congruent};
ghost use Rattle.num_modular.specs.Checked.{AreChecked, IsChecked};
ghost use Rattle.num_modular.specs.Entries.{entry};
ghost use Rattle.ring_codes.specs.Roots.{HasRoots, AreRootCoefficients};
ghost use Rattle.ring_codes.specs.Shifts.{shifted};

use num_modular::{Reducer, RingWord};

/// Multiplies a polynomial by X - x, in place.
///
/// It has `count` coefficients, the constant first; that of the product which has no place is dropped. Those behind are
/// left as they are.
///
/// Source: the definition of the product, coefficient by coefficient.
///
/// # Preconditions
///
/// - there are `count` coefficients or more
/// - point and coefficients are checked forms
#[tactic(auto, using(num_modular::specs::Callers::form_read))]
pub fn multiply_by_root<T: RingWord, R: Reducer<T>>(
    r: &R,
    point: &T,
    coefficients: &mut [T],
    count: usize,
)
    requires point { IsChecked R.Reducer T.number r.now point.now }
    requires coefficients { AreChecked R.Reducer T.number r.now coefficients.old }
    requires within { count ≤ length coefficients.old }
    ensures checked { AreChecked R.Reducer T.number r.now coefficients.new }
    ensures product { let m = R.modulus r.now in (i : ℕ) → i < count →
        Congruent m (entry T.number R.value m coefficients.new i
        + R.value m (T.number point.now) * entry T.number R.value m coefficients.old i)
        (shifted (entry T.number R.value m coefficients.old) i) }
    ensures behind { let m = R.modulus r.now in (i : ℕ) → count ≤ i →
        entry T.number R.value m coefficients.new i ≡ entry T.number R.value m coefficients.old i }
{
    let mut before = r.transform(T::zero());
    'coefficients: for i in 0..count {
        let coefficient = coefficients[i];
        let product = r.mul(point, &coefficient);
        coefficients[i] = r.sub(&before, &product);
        before = coefficient;
    }
}

/// Writes the polynomial with the points as roots: the product of X - x for the points x.
///
/// Its constant coefficient is first, and 0 follows the last. The contents of `coefficients` are ignored. It takes
/// q·(q + 3)/2 products for q points.
///
/// Source: the definition, one factor after another.
///
/// # Preconditions
///
/// - there are more coefficients than points
/// - the points are checked forms
#[tactic(auto, using(num_modular::specs::Callers::hold_more, crate::proofs::Counts::zero_mod))]
pub fn expand_roots<T: RingWord, R: Reducer<T>>(r: &R, points: &[T], coefficients: &mut [T])
    requires points { AreChecked R.Reducer T.number r.now points.now }
    requires room { length points.now < length coefficients.old }
    ensures checked { AreChecked R.Reducer T.number r.now coefficients.new }
    ensures roots { let m = R.modulus r.now in HasRoots m (length points.now) (entry T.number R.value m points.now)
        (entry T.number R.value m coefficients.new) }
    ensures each { let m = R.modulus r.now in AreRootCoefficients m (length points.now)
        (entry T.number R.value m points.now) (entry T.number R.value m coefficients.new) }
    ensures behind { let m = R.modulus r.now in (j : ℕ) → length points.now < j →
        entry T.number R.value m coefficients.new j ≡ 0 }
{
    let zero = r.transform(T::zero());
    'zeros: for i in 0..coefficients.len() {
        coefficients[i] = zero;
    }
    coefficients[0] = r.transform(T::one());
    'points: for i in 0..points.len() {
        multiply_by_root(r, &points[i], coefficients, i + 2);
    }
}
