//! Lists of forms: conversion from words and back, sums, differences and products entry by entry.

ghost use Rattle.std.specs.Prelude.{◌≡◌, ℕ, ◌+◌, ◌*◌, ◌%◌, ◌<◌, ◌≤◌, pos, ◌-ℤ◌};
ghost use Rattle.std.specs.Prelude.{length, map, slice_index};
ghost use Rattle.modular_word.specs.Residues.{residue};
ghost use Rattle.modular_reduced.specs.Checked.{AreChecked, IsChecked};
ghost use Rattle.modular_reduced.specs.Forms.{Represents};
ghost use Rattle.modular_reduced.specs.Values.{values_of, HoldValues, sum_of_products};

use modular_reduced::reducer::Reducer;
use modular_word::ring_word::RingWord;

/// Stores the forms of the words, then of 0: at each place after the last word.
///
/// Words that exceed the length of `forms` are ignored.
///
/// The result is what `convolve` and `ntt` take: the values are the residues of the words.
///
/// # Examples
///
/// ```
/// use num_modular::ring::load_forms;
/// use num_modular::{Reducer, Vanilla};
///
/// let ring = Vanilla::<u64>::new(&97);
/// let mut forms = [5; 4];
/// load_forms(&ring, &[100, 2], &mut forms);
/// assert_eq!(forms, [3, 2, 0, 0]);
/// ```
pub fn load_forms<T: RingWord, R: Reducer<T>>(r: &R, words: &[T], forms: &mut [T])
    ensures checked { AreChecked R.Reducer T.number r.now forms.new }
    ensures values { let m = R.modulus r.now in (i : ℕ) → i < length forms.old →
        slice_index (values_of T.number R.value m forms.new) i ≡ slice_index (map T.number words.now) i % m }
{
    'entries: for i in 0..forms.len() {
        let word = if i < words.len() { words[i] } else { T::zero() };
        forms[i] = r.transform(word);
    }
}

/// Stores the values of the first forms: each is below the modulus.
///
/// # Conditions
///
/// - there are at least as many forms as places
/// - (debug) the entries of `forms` are checked forms
///
/// # Examples
///
/// ```
/// use num_modular::ring::{load_forms, unload_forms};
/// use num_modular::Montgomery;
///
/// let ring = Montgomery::<u64>::new(97);
/// let (mut forms, mut words) = ([0; 4], [0; 2]);
/// load_forms(&ring, &[100, 2], &mut forms);
/// unload_forms(&ring, &forms, &mut words);
/// assert_eq!(words, [3, 2]);
/// ```
// rust: #[track_caller]
pub fn unload_forms<T: RingWord, R: Reducer<T>>(r: &R, forms: &[T], words: &mut [T])
    requires checked { AreChecked R.Reducer T.number r.now forms.now }
    requires within { length words.old ≤ length forms.now }
    ensures values { let m = R.modulus r.now in (i : ℕ) → i < length words.old →
        slice_index (map T.number words.new) i ≡ slice_index (values_of T.number R.value m forms.now) i }
{
    // rust: debug_assert!(forms.iter().all(|x| r.check(x)), "the entries of `forms` must be checked forms");
    // rust: assert!(forms.len() >= words.len(), "there must be at least as many forms as places: {} and {}",
    // rust:     forms.len(), words.len());
    'entries: for i in 0..words.len() {
        words[i] = r.residue(forms[i]);
    }
}

/// Changes xs by ys, entry by entry: it adds to each entry of xs the entry of ys with the same index.
///
/// # Conditions
///
/// - the lists have the same length
/// - (debug) the entries of both lists are checked forms
///
/// # Examples
///
/// ```
/// use num_modular::ring::add_lists;
/// use num_modular::{Reducer, Vanilla};
///
/// let ring = Vanilla::<u64>::new(&97);
/// let mut xs = [90, 2];
/// add_lists(&ring, &mut xs, &[10, 3]);
/// assert_eq!(xs, [3, 5]);
/// ```
// rust: #[track_caller]
pub fn add_lists<T: RingWord, R: Reducer<T>>(r: &R, xs: &mut [T], ys: &[T])
    requires equal { length ys.now ≡ length xs.old }
    requires checked_xs { AreChecked R.Reducer T.number r.now xs.old }
    requires checked_ys { AreChecked R.Reducer T.number r.now ys.now }
    ensures entries { let m = R.modulus r.now in
        HoldValues T.number R.form m xs.new
        (λ i. (slice_index (values_of T.number R.value m xs.old) i
        + slice_index (values_of T.number R.value m ys.now) i) % m) }
    ensures values { let m = R.modulus r.now in
        (i : ℕ) → i < length xs.old → slice_index (values_of T.number R.value m xs.new) i
        ≡ (slice_index (values_of T.number R.value m xs.old) i
        + slice_index (values_of T.number R.value m ys.now) i) % m }
    ensures checked { AreChecked R.Reducer T.number r.now xs.new }
{
    r.add_entries(xs, ys);
}

/// Changes xs by ys, entry by entry: it subtracts from each entry of xs the entry of ys with the same index.
///
/// # Conditions
///
/// - the lists have the same length
/// - (debug) the entries of both lists are checked forms
///
/// # Examples
///
/// ```
/// use num_modular::ring::sub_lists;
/// use num_modular::{Reducer, Vanilla};
///
/// let ring = Vanilla::<u64>::new(&97);
/// let mut xs = [90, 2];
/// sub_lists(&ring, &mut xs, &[10, 3]);
/// assert_eq!(xs, [80, 96]);
/// ```
// rust: #[track_caller]
pub fn sub_lists<T: RingWord, R: Reducer<T>>(r: &R, xs: &mut [T], ys: &[T])
    requires equal { length ys.now ≡ length xs.old }
    requires checked_xs { AreChecked R.Reducer T.number r.now xs.old }
    requires checked_ys { AreChecked R.Reducer T.number r.now ys.now }
    ensures entries { let m = R.modulus r.now in
        HoldValues T.number R.form m xs.new
        (λ i. residue m (pos (slice_index (values_of T.number R.value m xs.old) i)
        -ℤ pos (slice_index (values_of T.number R.value m ys.now) i))) }
    ensures values { let m = R.modulus r.now in
        (i : ℕ) → i < length xs.old → slice_index (values_of T.number R.value m xs.new) i
        ≡ residue m (pos (slice_index (values_of T.number R.value m xs.old) i)
        -ℤ pos (slice_index (values_of T.number R.value m ys.now) i)) }
    ensures checked { AreChecked R.Reducer T.number r.now xs.new }
{
    r.sub_entries(xs, ys);
}

/// Changes xs by ys, entry by entry: it multiplies each entry of xs by the entry of ys with the same index.
///
/// # Conditions
///
/// - the lists have the same length
/// - (debug) the entries of both lists are checked forms
///
/// # Examples
///
/// ```
/// use num_modular::ring::multiply_lists;
/// use num_modular::{Reducer, Vanilla};
///
/// let ring = Vanilla::<u64>::new(&97);
/// let mut xs = [90, 2];
/// multiply_lists(&ring, &mut xs, &[10, 3]);
/// assert_eq!(xs, [27, 6]); // 900 - 9 * 97
/// ```
// rust: #[track_caller]
pub fn multiply_lists<T: RingWord, R: Reducer<T>>(r: &R, xs: &mut [T], ys: &[T])
    requires equal { length ys.now ≡ length xs.old }
    requires checked_xs { AreChecked R.Reducer T.number r.now xs.old }
    requires checked_ys { AreChecked R.Reducer T.number r.now ys.now }
    ensures entries { let m = R.modulus r.now in
        HoldValues T.number R.form m xs.new
        (λ i. (slice_index (values_of T.number R.value m xs.old) i
        * slice_index (values_of T.number R.value m ys.now) i) % m) }
    ensures values { let m = R.modulus r.now in
        (i : ℕ) → i < length xs.old → slice_index (values_of T.number R.value m xs.new) i
        ≡ (slice_index (values_of T.number R.value m xs.old) i
        * slice_index (values_of T.number R.value m ys.now) i) % m }
    ensures checked { AreChecked R.Reducer T.number r.now xs.new }
{
    // rust: assert!(ys.len() == xs.len(), "the lists must have the same length: {} and {}", xs.len(), ys.len());
    // rust: debug_assert!(xs.iter().chain(ys.iter()).all(|x| r.check(x)), "all entries must be checked forms");
    'entries: for i in 0..xs.len() {
        xs[i] = r.mul(&xs[i], &ys[i]);
    }
}

/// Multiplies each entry by one factor.
///
/// # Conditions
///
/// - (debug) the factor and all entries are checked forms
///
/// # Examples
///
/// ```
/// use num_modular::ring::scale_list;
/// use num_modular::{Reducer, Vanilla};
///
/// let ring = Vanilla::<u64>::new(&97);
/// let mut xs = [90, 2];
/// scale_list(&ring, &mut xs, &10);
/// assert_eq!(xs, [27, 20]); // 900 - 9 * 97
/// ```
// rust: #[cfg_attr(debug_assertions, track_caller)]
pub fn scale_list<T: RingWord, R: Reducer<T>>(r: &R, xs: &mut [T], factor: &T)
    requires checked { AreChecked R.Reducer T.number r.now xs.old }
    requires factor { IsChecked R.Reducer T.number r.now factor.now }
    ensures entries { let m = R.modulus r.now in
        HoldValues T.number R.form m xs.new
        (λ i. (slice_index (values_of T.number R.value m xs.old) i * R.value m (T.number factor.now)) % m) }
    ensures values { let m = R.modulus r.now in
        (i : ℕ) → i < length xs.old → slice_index (values_of T.number R.value m xs.new) i
        ≡ (slice_index (values_of T.number R.value m xs.old) i * R.value m (T.number factor.now)) % m }
    ensures checked { AreChecked R.Reducer T.number r.now xs.new }
{
    // rust: debug_assert!(r.check(factor) && xs.iter().all(|x| r.check(x)),
    // rust:     "the factor and all entries must be checked forms");
    r.scale_entries(xs, factor);
}

/// The form of Σ x_i·y_i: that of 0 for lists without entries.
///
/// A reducer may reduce once for many products.
///
/// # Conditions
///
/// - the lists have the same length
/// - (debug) the entries of both lists are checked forms
///
/// # Examples
///
/// ```
/// use num_modular::ring::dot_product;
/// use num_modular::{Reducer, Vanilla};
///
/// let ring = Vanilla::<u64>::new(&97);
/// assert_eq!(dot_product(&ring, &[90, 2], &[10, 3]), 33); // 900 + 6 - 9 * 97
/// ```
// rust: #[track_caller]
pub fn dot_product<T: RingWord, R: Reducer<T>>(r: &R, xs: &[T], ys: &[T]) -> T
    requires equal { length ys.now ≡ length xs.now }
    requires checked_xs { AreChecked R.Reducer T.number r.now xs.now }
    requires checked_ys { AreChecked R.Reducer T.number r.now ys.now }
    ensures form { let m = R.modulus r.now in
        Represents R.form m (T.number result) (sum_of_products T.number R.value m xs.now ys.now % m) }
    ensures checked { IsChecked R.Reducer T.number r.now result }
    ensures value { let m = R.modulus r.now in
        R.value m (T.number result) ≡ sum_of_products T.number R.value m xs.now ys.now % m }
{
    // rust: assert!(ys.len() == xs.len(), "the lists must have the same length: {} and {}", xs.len(), ys.len());
    // rust: debug_assert!(xs.iter().chain(ys.iter()).all(|x| r.check(x)), "all entries must be checked forms");
    r.add_products(r.transform(T::zero()), xs, ys)
}
