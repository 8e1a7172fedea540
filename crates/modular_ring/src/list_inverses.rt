//! The inverses of all entries of a list by one inversion.

ghost use Rattle.std.specs.Prelude.{◌≡◌, ℕ, ◌<◌, ◌↔◌, IsTrue, length};
ghost use Rattle.modular_reduced.specs.Entries.{entry};
ghost use Rattle.modular_reduced.specs.Checked.{AreChecked};
ghost use Rattle.modular_word.specs.Inverses.{HasInverse, IsInverse};

use modular_reduced::reducer::Reducer;
use modular_word::ring_word::RingWord;

/// Replaces each form by its inverse.
///
/// Returns false, with the forms unchanged, exactly where one has no inverse modulo m.
///
/// The contents of `scratch` are ignored, and unspecified afterwards.
///
/// Source: Montgomery, "Speeding the Pollard and elliptic curve methods of factorization", section 10.3.1: the
/// inverses come from that of the product of all forms.
///
/// # Conditions
///
/// - `scratch` has as many entries as there are forms
/// - (debug) the entries of `forms` are checked forms
///
/// # Examples
///
/// ```
/// use num_modular::ring::invert_each;
/// use num_modular::{Reducer, Vanilla};
///
/// let ring = Vanilla::<u64>::new(&17);
/// let (mut forms, mut scratch) = ([3, 4], [0; 2]);
/// assert!(invert_each(&ring, &mut forms, &mut scratch));
/// assert_eq!(forms, [6, 13]); // 3 * 6 = 17 + 1, and 4 * 13 = 3 * 17 + 1
/// ```
#[tactic(auto, using(modular_word::proofs::Remainders::remainders, crate::specs::ProductLaws::products_so_far))]
// rust: #[must_use]
// rust: #[track_caller]
pub fn invert_each<T: RingWord, R: Reducer<T>>(r: &R, forms: &mut [T], scratch: &mut [T]) -> bool
    requires checked { AreChecked R.Reducer T.number r.now forms.old }
    requires equal { length scratch.old ≡ length forms.old }
    ensures each { let m = R.modulus r.now in
        IsTrue result ↔ ((i : ℕ) → i < length forms.old → HasInverse m (entry T.number R.value m forms.old i)) }
    ensures inverses { let m = R.modulus r.now in IsTrue result → (i : ℕ) → i < length forms.old →
        IsInverse m (entry T.number R.value m forms.old i) (entry T.number R.value m forms.new i) }
    ensures checked { AreChecked R.Reducer T.number r.now forms.new }
    ensures unchanged { (IsTrue result → ⊥) → forms.new ≡ forms.old }
{
    // rust: debug_assert!(forms.iter().all(|x| r.check(x)), "the entries of `forms` must be checked forms");
    // rust: assert!(scratch.len() == forms.len(), "`scratch` must have as many entries as there are forms: {} and {}",
    // rust:     scratch.len(), forms.len());
    let mut product = r.transform(T::one());
    'forward: for i in 0..forms.len() {
        scratch[i] = product;
        product = r.mul(&product, &forms[i]);
    }
    let Some(mut inverse) = r.inv(product) else {
        return false;
    };
    'backward: for k in 0..forms.len() {
        let i = forms.len() - 1 - k;
        let before = r.mul(&inverse, &forms[i]);
        forms[i] = r.mul(&inverse, &scratch[i]);
        inverse = before;
    }
    true
}
