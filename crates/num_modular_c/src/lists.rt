//! Conversion of lists of words to lists of forms, and back.

ghost use Rattle.std.specs.Prelude.{◌≡◌, ℕ, ◌%◌, ◌<◌, length, map, slice_index};
ghost use Rattle.num_modular.specs.Checked.{AreChecked};
ghost use Rattle.num_modular.specs.Values.{values_of};

use num_modular::Reducer;
use num_modular::ring::{load_forms, unload_forms};

// Replaces each word by its form.
pub(crate) fn load<R: Reducer<u64>>(r: &R, xs: &mut [u64])
    ensures checked { AreChecked R.Reducer (λ x. x) r.now xs.new }
    ensures values { let m = R.modulus r.now in (i : ℕ) → i < length xs.old →
        slice_index (values_of (λ f. f) R.value m xs.new) i ≡ slice_index xs.old i % m }
{
    'entries: for i in 0..xs.len() {
        xs[i] = r.transform(xs[i]);
    }
}

// Replaces each form by its value.
pub(crate) fn unload<R: Reducer<u64>>(r: &R, xs: &mut [u64])
    requires { AreChecked R.Reducer (λ x. x) r.now xs.old }
    ensures { let m = R.modulus r.now in (i : ℕ) → i < length xs.old →
        slice_index xs.new i ≡ slice_index (values_of (λ f. f) R.value m xs.old) i }
{
    'entries: for i in 0..xs.len() {
        xs[i] = r.residue(xs[i]);
    }
}

// Writes the form of each word in another list.
pub(crate) fn load_from<R: Reducer<u64>>(r: &R, words: &[u64], forms: &mut [u64])
    requires { length forms.old ≡ length words.now }
    ensures checked { AreChecked R.Reducer (λ x. x) r.now forms.new }
    ensures values { let m = R.modulus r.now in
        values_of (λ f. f) R.value m forms.new ≡ map (λ x. x % m) words.now }
{
    load_forms(r, words, forms);
}

// Writes the value of each form in another list.
pub(crate) fn unload_from<R: Reducer<u64>>(r: &R, forms: &[u64], words: &mut [u64])
    requires checked { AreChecked R.Reducer (λ x. x) r.now forms.now }
    requires room { length words.old ≡ length forms.now }
    ensures { words.new ≡ values_of (λ f. f) R.value (R.modulus r.now) forms.now }
{
    unload_forms(r, forms, words);
}
