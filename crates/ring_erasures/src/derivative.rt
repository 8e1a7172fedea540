//! Derivatives of polynomials.

ghost use Rattle.std.specs.Prelude.{◌≡◌, ℕ, ◌+◌, ◌-◌, ◌%◌, ◌<◌, ◌≤◌, length};
ghost use Rattle.num_modular.specs.Entries.{entry};
ghost use Rattle.num_modular.specs.Checked.{AreChecked, IsChecked};
ghost use Rattle.num_modular.specs.Transforms.{Suits};
ghost use Rattle.ring_codes.specs.Erasure.{IsEncoding};
ghost use Rattle.ring_codes.specs.Powers.{ArePowers};
ghost use Rattle.ring_erasures.specs.Erasures.{derivative};

use num_modular::{Reducer, RingWord};
use ring_codes::erasure::encode_by_transform;

// Writes the coefficients of the derivative, one less; the last place is left as it is.
#[tactic(auto, using(num_modular::specs::Callers::form_read))]
fn differentiate<T: RingWord, R: Reducer<T>>(r: &R, coefficients: &mut [T])
    requires coefficients { AreChecked R.Reducer T.number r.now coefficients.old }
    requires some { 0 < length coefficients.old }
    ensures checked { AreChecked R.Reducer T.number r.now coefficients.new }
    ensures derivative { let m = R.modulus r.now in (i : ℕ) → i + 1 < length coefficients.old →
        entry T.number R.value m coefficients.new i ≡ derivative (entry T.number R.value m coefficients.old) i % m }
{
    let one = r.transform(T::one());
    let mut index = r.transform(T::zero());
    'coefficients: for i in 0..coefficients.len() - 1 {
        index = r.add(&index, &one);
        coefficients[i] = r.mul(&index, &coefficients[i + 1]);
    }
}

// Writes the values of the derivative at the powers of g; the coefficients then are those of the derivative.
pub fn encode_derivative<T: RingWord, R: Reducer<T>>(
    r: &R,
    g: &T,
    coefficients: &mut [T],
    word: &mut [T],
)
    requires root { IsChecked R.Reducer T.number r.now g.now }
    requires coefficients { AreChecked R.Reducer T.number r.now coefficients.old }
    requires some { 0 < length coefficients.old }
    requires suits { let m = R.modulus r.now in Suits m (R.value m (T.number g.now)) (length word.old) }
    requires few { length coefficients.old ≤ length word.old }
    ensures checked { AreChecked R.Reducer T.number r.now word.new }
    ensures encoding { let m = R.modulus r.now in let entries = entry T.number R.value m in (points : ℕ → ℕ) →
        ArePowers m (R.value m (T.number g.now)) (length word.old) points →
        IsEncoding m (length coefficients.old - 1) (length word.old) points (derivative (entries coefficients.old))
        (entries word.new) }
{
    differentiate(r, coefficients);
    let (derivative, _) = coefficients.split_at_mut(coefficients.len() - 1);
    encode_by_transform(r, g, derivative, word);
}
