//! Syndromes of words at the powers of a root: by one transform.

ghost use Rattle.std.specs.Prelude.{◌≡◌, ℕ, ◌+◌, ◌-◌, ◌*◌, ◌%◌, ◌<◌, ◌≤◌, ◌↔◌, IsTrue, length};
ghost use Rattle.num_modular.specs.Entries.{entry};
ghost use Rattle.num_modular.specs.Checked.{AreChecked, IsChecked};
ghost use Rattle.num_modular.specs.Inverses.{HasInverse};
ghost use Rattle.num_modular.specs.Polynomials.{HaveUnitDifferences};
ghost use Rattle.num_modular.specs.Transforms.{Suits};
ghost use Rattle.ring_codes.specs.Powers.{ArePowers};
ghost use Rattle.ring_decoder.specs.PowerSums.{ArePowerSums};
ghost use Rattle.ring_decoder.specs.Syndromes.{AreWeights};

use num_modular::ring::{intt, root_fits};
use num_modular::{Reducer, RingWord};

/// Whether the points are the powers g^0, .., g^(n - 1) of a root that suits their number.
///
/// # Preconditions
///
/// - g and the points are checked forms
pub fn are_powers<T: RingWord, R: Reducer<T>>(r: &R, g: &T, points: &[T]) -> bool
    requires root { IsChecked R.Reducer T.number r.now g.now }
    requires points { AreChecked R.Reducer T.number r.now points.now }
    ensures { let m = R.modulus r.now in IsTrue result ↔
        (Suits m (R.value m (T.number g.now)) (length points.now)
        × ArePowers m (R.value m (T.number g.now)) (length points.now) (entry T.number R.value m points.now)) }
{
    if !root_fits(r, g, points.len()) {
        return false;
    }
    let mut power = r.transform(T::one());
    'points: for i in 0..points.len() {
        if points[i] != power {
            return false;
        }
        power = r.mul(&power, g);
    }
    true
}

/// Writes the syndromes of a word at the powers of a root, those that `fill_syndromes` writes, and returns true: by one
/// transform. False exactly where the number of the points has no inverse.
///
/// For n symbols it takes the products of `ntt_counted` and n more, or none where it returns false. They are the last coefficients of the polynomial through all symbols. The contents of `coefficients` are ignored, and
/// unspecified afterwards; those of `syndromes` too after false.
///
/// Source: Blahut, "Transform techniques for error control codes".
///
/// # Preconditions
///
/// - g suits the number of symbols
/// - there are as many coefficients as symbols, and no more syndromes
/// - g and the symbols are checked forms
#[tactic(auto, using(num_modular::specs::Callers::entry_read, num_modular::specs::Callers::form_read, num_modular::specs::Callers::held_forms, num_modular::specs::Callers::hold_more))]
pub fn fill_syndromes_by_transform<T: RingWord, R: Reducer<T>>(
    r: &R,
    g: &T,
    word: &[T],
    coefficients: &mut [T],
    syndromes: &mut [T],
) -> bool
    requires root { IsChecked R.Reducer T.number r.now g.now }
    requires word { AreChecked R.Reducer T.number r.now word.now }
    requires suits { let m = R.modulus r.now in Suits m (R.value m (T.number g.now)) (length word.now) }
    requires room { length coefficients.old ≡ length word.now }
    requires few { length syndromes.old ≤ length word.now }
    ensures inverse { IsTrue result ↔ HasInverse (R.modulus r.now) (length word.now) }
    ensures checked { IsTrue result → AreChecked R.Reducer T.number r.now syndromes.new }
    ensures sums { let m = R.modulus r.now in IsTrue result → (x v : ℕ → ℕ) →
        ArePowers m (R.value m (T.number g.now)) (length word.now) x →
        HaveUnitDifferences m (length word.now) x → AreWeights m (length word.now) x v →
        ArePowerSums m (length syndromes.old) (length word.now) x
        (λ i. v i * entry T.number R.value m word.now i) (entry T.number R.value m syndromes.new) }
{
    coefficients.copy_from_slice(word);
    if !intt(r, coefficients, g) {
        return false;
    }
    'syndromes: for h in 0..syndromes.len() {
        syndromes[h] = coefficients[coefficients.len() - 1 - h];
    }
    true
}
