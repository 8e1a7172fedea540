//! The inverse of the transform, in place.

ghost use Rattle.std.specs.Prelude.{◌≡◌, ℕ, ◌*◌, ◌%◌, ◌<◌, ◌↔◌, IsTrue, length, slice_index};
ghost use Rattle.std.specs.Int.{IsPowerOfTwo};
ghost use Rattle.modular_word.specs.Congruence.{Congruent};
ghost use Rattle.modular_word.specs.Inverses.{HasInverse};
ghost use Rattle.modular_reduced.specs.Checked.{AreChecked, IsChecked};
ghost use Rattle.modular_reduced.specs.Values.{values_of, HoldValues};
ghost use Rattle.modular_transform.specs.Orders.{mirrored};
ghost use Rattle.modular_transform.specs.Transforms.{Suits, transform};

use crate::lists::scale_list;
use crate::order::mirror;
use crate::transform::ntt;
use modular_reduced::reducer::Reducer;
use modular_word::ring_word::RingWord;

// The form of n, a power of two, by doubling 1, because n may not fit a word.
#[tactic(auto, using(crate::proofs::StripPowers::start_is_zeroth_power, crate::proofs::ConvolveLemmas::doubled_all))]
pub(crate) fn length_form<T: RingWord, R: Reducer<T>>(r: &R, n: usize) -> T
    requires { IsPowerOfTwo n }
    ensures form { IsChecked R.Reducer T.number r.now result }
    ensures counted { let m = R.modulus r.now in Congruent m (R.value m (T.number result)) n }
{
    let mut length = r.transform(T::one());
    'doublings: for _done in 0..n.trailing_zeros() {
        length = r.dbl(length);
    }
    length
}

// Transforms, reverses the order of all entries but the first, and multiplies each by a factor. With an inverse of the
// length as the factor, it undoes the transform.
pub(crate) fn transform_back<T: RingWord, R: Reducer<T>>(r: &R, xs: &mut [T], g: &T, part: &T)
    requires checked { AreChecked R.Reducer T.number r.now xs.old }
    requires root { IsChecked R.Reducer T.number r.now g.now }
    requires suits { let m = R.modulus r.now in Suits m (R.value m (T.number g.now)) (length xs.old) }
    requires part { IsChecked R.Reducer T.number r.now part.now }
    ensures entries { let m = R.modulus r.now in
        HoldValues T.number R.form m xs.new
        (λ i. (transform m (R.value m (T.number g.now)) (length xs.old) (slice_index (values_of T.number R.value m xs.old))
        (mirrored (length xs.old) i) * R.value m (T.number part.now)) % m) }
    ensures checked { AreChecked R.Reducer T.number r.now xs.new }
{
    ntt(r, xs, g);
    mirror(xs);
    scale_list(r, xs, part);
}

/// Undoes [`ntt`]: replaces the entries by those whose transform by g they are.
///
/// Returns false, with the entries unchanged, exactly where their number n has no inverse modulo m.
///
/// The modulus needn't be prime. No memory is allocated. n may be too large for a word.
///
/// Source: Pollard, "The fast Fourier transform in a finite field", section 2: the transform by the inverse of g,
/// which is that by g in another order, divided by n.
///
/// # Conditions
///
/// - the length is a power of two
/// - g suits the length (`root_fits` tells)
/// - (debug) g and the entries are checked forms
///
/// # Examples
///
/// ```
/// use num_modular::ring::{find_root, intt, ntt};
/// use num_modular::{Reducer, Vanilla};
///
/// let ring = Vanilla::<u64>::new(&97);
/// let root = find_root(&ring, 4).unwrap();
/// let mut entries = [1, 2, 3, 4];
/// ntt(&ring, &mut entries, &root);
/// assert_eq!(entries[0], 1 + 2 + 3 + 4);
/// assert!(intt(&ring, &mut entries, &root));
/// assert_eq!(entries, [1, 2, 3, 4]);
/// ```
// rust: #[must_use]
// rust: #[track_caller]
pub fn intt<T: RingWord, R: Reducer<T>>(r: &R, xs: &mut [T], g: &T) -> bool
    requires checked { AreChecked R.Reducer T.number r.now xs.old }
    requires root { IsChecked R.Reducer T.number r.now g.now }
    requires suits { let m = R.modulus r.now in Suits m (R.value m (T.number g.now)) (length xs.old) }
    ensures inverse { IsTrue result ↔ HasInverse (R.modulus r.now) (length xs.old) }
    ensures unchanged { (IsTrue result → ⊥) → xs.new ≡ xs.old }
    ensures values { let m = R.modulus r.now in
        IsTrue result → (j : ℕ) → j < length xs.old →
        transform m (R.value m (T.number g.now)) (length xs.old) (slice_index (values_of T.number R.value m xs.new)) j
        ≡ slice_index (values_of T.number R.value m xs.old) j }
    ensures undone { let m = R.modulus r.now in
        IsTrue result → (x : ℕ → ℕ) → ((j : ℕ) → j < length xs.old →
        transform m (R.value m (T.number g.now)) (length xs.old) x j
        ≡ slice_index (values_of T.number R.value m xs.old) j) →
        (i : ℕ) → i < length xs.old → slice_index (values_of T.number R.value m xs.new) i ≡ x i % m }
    ensures checked { AreChecked R.Reducer T.number r.now xs.new }
{
    // rust: assert!(xs.len().is_power_of_two(), "the length must be a power of two: {}", xs.len());
    // rust: debug_assert!(r.check(g) && xs.iter().all(|x| r.check(x)), "g and the entries must be checked forms");
    // rust: assert!(r.check(g) && crate::ring::root_fits(r, g, xs.len()),
    // rust:     "g must suit the length: n = {}, m = {}, g = {}", xs.len(), crate::additions::number(r.modulus()),
    // rust:     crate::additions::number(r.residue(*g)));
    let length = length_form(r, xs.len());
    match r.inv(length) {
        Some(part) => {
            transform_back(r, xs, g, &part);
            true
        }
        None => false,
    }
}
