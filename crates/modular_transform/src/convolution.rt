//! The cyclic product of two lists, by transforms.

ghost use Rattle.std.specs.Prelude.{◌≡◌, ℕ, ◌*◌, ◌%◌, ◌<◌, ◌↔◌, IsTrue, length, slice_index};
ghost use Rattle.std.specs.Int.{IsPowerOfTwo};
ghost use Rattle.modular_word.specs.Congruence.{Congruent};
ghost use Rattle.modular_word.specs.Inverses.{IsInverse, HasInverse};
ghost use Rattle.modular_reduced.specs.Checked.{AreChecked, IsChecked};
ghost use Rattle.modular_reduced.specs.Values.{values_of, HoldValues};
ghost use Rattle.modular_transform.specs.Transforms.{Suits, transform, cyclic_product};

use crate::inverse::{length_form, transform_back};
use crate::lists::multiply_lists;
use crate::transform::ntt;
use modular_reduced::reducer::Reducer;
use modular_word::ring_word::RingWord;

// Replaces xs by the cyclic product and ys by its transform, given a root g and an inverse of the length.
fn multiply<T: RingWord, R: Reducer<T>>(r: &R, xs: &mut [T], ys: &mut [T], g: &T, part: &T)
    requires checked_xs { AreChecked R.Reducer T.number r.now xs.old }
    requires checked_ys { AreChecked R.Reducer T.number r.now ys.old }
    requires root { IsChecked R.Reducer T.number r.now g.now }
    requires suits { let m = R.modulus r.now in Suits m (R.value m (T.number g.now)) (length xs.old) }
    requires equal { length ys.old ≡ length xs.old }
    requires part { IsChecked R.Reducer T.number r.now part.now }
    requires inverse { let m = R.modulus r.now in IsInverse m (length xs.old) (R.value m (T.number part.now)) }
    ensures product { let m = R.modulus r.now in
        HoldValues T.number R.form m xs.new
        (cyclic_product m (length xs.old) (slice_index (values_of T.number R.value m xs.old))
        (slice_index (values_of T.number R.value m ys.old))) }
    ensures transformed { let m = R.modulus r.now in
        HoldValues T.number R.form m ys.new
        (transform m (R.value m (T.number g.now)) (length xs.old) (slice_index (values_of T.number R.value m ys.old))) }
    ensures checked { let m = R.modulus r.now in
        AreChecked R.Reducer T.number r.now xs.new
        × AreChecked R.Reducer T.number r.now ys.new }
{
    ntt(r, xs, g);
    ntt(r, ys, g);
    multiply_lists(r, xs, ys);
    transform_back(r, xs, g, part);
}

/// Replaces xs by the cyclic product xs·ys, and ys by its transform: that by g.
///
/// Returns false, with both lists unchanged, exactly where their length n has no inverse modulo m.
///
/// Entry e of xs becomes the form of the sum of x_i·y_j modulo m over i + j = e or e + n. No memory is allocated. n
/// may be too large for a word.
///
/// Source: Knuth, The Art of Computer Programming, volume 2, section 4.3.3, part C: transform both lists, multiply
/// entry by entry, transform back.
///
/// # Conditions
///
/// - the lists have the same length
/// - the length is a power of two
/// - g suits the length (`root_fits` tells)
/// - (debug) g and all entries are checked forms
///
/// # Examples
///
/// ```
/// use num_modular::ring::{convolve, find_root};
/// use num_modular::{Reducer, Vanilla};
///
/// let ring = Vanilla::<u64>::new(&97);
/// let root = find_root(&ring, 4).unwrap();
/// let (mut xs, mut ys) = ([1, 2, 0, 0], [3, 4, 0, 0]);
/// assert!(convolve(&ring, &mut xs, &mut ys, &root));
/// assert_eq!(xs, [3, 10, 8, 0]); // (1 + 2X)(3 + 4X)
/// ```
// rust: #[must_use]
// rust: #[track_caller]
pub fn convolve<T: RingWord, R: Reducer<T>>(r: &R, xs: &mut [T], ys: &mut [T], g: &T) -> bool
    requires checked_xs { AreChecked R.Reducer T.number r.now xs.old }
    requires checked_ys { AreChecked R.Reducer T.number r.now ys.old }
    requires root { IsChecked R.Reducer T.number r.now g.now }
    requires suits { let m = R.modulus r.now in Suits m (R.value m (T.number g.now)) (length xs.old) }
    requires equal { length ys.old ≡ length xs.old }
    ensures inverse { IsTrue result ↔ HasInverse (R.modulus r.now) (length xs.old) }
    ensures unchanged { (IsTrue result → ⊥) → (xs.new ≡ xs.old) × (ys.new ≡ ys.old) }
    ensures product { let m = R.modulus r.now in
        IsTrue result → HoldValues T.number R.form m xs.new
        (cyclic_product m (length xs.old) (slice_index (values_of T.number R.value m xs.old))
        (slice_index (values_of T.number R.value m ys.old))) }
    ensures transformed { let m = R.modulus r.now in
        IsTrue result → HoldValues T.number R.form m ys.new
        (transform m (R.value m (T.number g.now)) (length xs.old) (slice_index (values_of T.number R.value m ys.old))) }
    ensures values { let m = R.modulus r.now in
        IsTrue result → (e : ℕ) → e < length xs.old → slice_index (values_of T.number R.value m xs.new) e
        ≡ cyclic_product m (length xs.old) (slice_index (values_of T.number R.value m xs.old))
        (slice_index (values_of T.number R.value m ys.old)) e }
    ensures transformed_values { let m = R.modulus r.now in
        IsTrue result → (j : ℕ) → j < length xs.old → slice_index (values_of T.number R.value m ys.new) j
        ≡ transform m (R.value m (T.number g.now)) (length xs.old)
        (slice_index (values_of T.number R.value m ys.old)) j }
    ensures checked { let m = R.modulus r.now in
        AreChecked R.Reducer T.number r.now xs.new
        × AreChecked R.Reducer T.number r.now ys.new }
{
    // rust: assert!(ys.len() == xs.len(), "the lists must have the same length: {} and {}", xs.len(), ys.len());
    // rust: assert!(xs.len().is_power_of_two(), "the length must be a power of two: {}", xs.len());
    // rust: debug_assert!(r.check(g) && xs.iter().all(|x| r.check(x)) && ys.iter().all(|y| r.check(y)),
    // rust:     "g and all entries must be checked forms");
    // rust: assert!(r.check(g) && crate::ring::root_fits(r, g, xs.len()),
    // rust:     "g must suit the length: n = {}, m = {}, g = {}", xs.len(), crate::additions::number(r.modulus()),
    // rust:     crate::additions::number(r.residue(*g)));
    let length = length_form(r, xs.len());
    match r.inv(length) {
        Some(part) => {
            multiply(r, xs, ys, g, &part);
            true
        }
        None => false,
    }
}
