//! A polynomial's values at several points side by side: the processor has their products under way at once.

ghost use Rattle.std.specs.Prelude.{◌≡◌, ℕ, ◌+◌, ◌*◌, ◌%◌, ◌<◌, length};
ghost use Rattle.num_modular.specs.Entries.{entry};
ghost use Rattle.num_modular.specs.Checked.{AreChecked, IsChecked};
ghost use Rattle.ring_codes.specs.Erasure.{IsEncoding};

use num_modular::{Reducer, RingWord};

// A step of Horner's rule at each point: the value times the point, plus the coefficient.
fn step_each<T: RingWord, R: Reducer<T>>(r: &R, coefficient: &T, points: &[T], values: &mut [T])
    requires coefficient { IsChecked R.Reducer T.number r.now coefficient.now }
    requires points { AreChecked R.Reducer T.number r.now points.now }
    requires values { AreChecked R.Reducer T.number r.now values.old }
    requires room { length values.old ≡ length points.now }
    ensures checked { AreChecked R.Reducer T.number r.now values.new }
    ensures values { let m = R.modulus r.now in (i : ℕ) → i < length points.now →
        entry T.number R.value m values.new i ≡ (R.value m (T.number coefficient.now)
        + entry T.number R.value m values.old i * entry T.number R.value m points.now i % m) % m }
{
    'points: for i in 0..points.len() {
        let product = r.mul(&values[i], &points[i]);
        values[i] = r.add(coefficient, &product);
    }
}

/// Writes the polynomial's value at each point, by Horner's rule at all of them side by side.
///
/// # Preconditions
///
/// - coefficients and points are checked forms, and there are as many values as points
#[tactic(auto, using(num_modular::specs::Callers::hold_more, num_modular::specs::Callers::held_entry, num_modular::specs::Callers::held_forms, crate::proofs::NewtonForms::zero_is_empty_polynomial_value, num_modular::specs::Callers::form_read))]
pub fn evaluate_side_by_side<T: RingWord, R: Reducer<T>>(
    r: &R,
    coefficients: &[T],
    points: &[T],
    values: &mut [T],
)
    requires coefficients { AreChecked R.Reducer T.number r.now coefficients.now }
    requires points { AreChecked R.Reducer T.number r.now points.now }
    requires room { length values.old ≡ length points.now }
    ensures checked { AreChecked R.Reducer T.number r.now values.new }
    ensures encoding { let m = R.modulus r.now in
        IsEncoding m (length coefficients.now) (length points.now) (entry T.number R.value m points.now)
        (entry T.number R.value m coefficients.now) (entry T.number R.value m values.new) }
{
    let zero = r.transform(T::zero());
    'zeros: for i in 0..points.len() {
        values[i] = zero;
    }
    'coefficients: for k in 0..coefficients.len() {
        let i = coefficients.len() - 1 - k;
        step_each(r, &coefficients[i], points, values);
    }
}
