//! One stage of a transform in place: sums and differences of pairs of entries.

ghost use Rattle.std.specs.Prelude.{◌≡◌, ◌+◌, ◌<◌, length, slice_index};
ghost use Rattle.modular_reduced.specs.Checked.{AreChecked, IsChecked};
ghost use Rattle.modular_reduced.specs.Values.{values_of};
ghost use Rattle.modular_transform.specs.Stages.{PairDone, IsStage};

use modular_reduced::reducer::Reducer;
use modular_word::ring_word::RingWord;

// Replaces two entries by their sum, and their difference times a power. It takes one product.
fn pair<T: RingWord, R: Reducer<T>>(r: &R, forms: &mut [T], first: usize, second: usize, power: &T)
    requires checked { AreChecked R.Reducer T.number r.now forms.old }
    requires power { IsChecked R.Reducer T.number r.now power.now }
    requires within { (first < second) × (second < length forms.old) }
    ensures checked { AreChecked R.Reducer T.number r.now forms.new }
    ensures done { let m = R.modulus r.now in
        PairDone m (R.value m (T.number power.now)) first second
        (slice_index (values_of T.number R.value m forms.old)) (slice_index (values_of T.number R.value m forms.new)) }
{
    let a = forms[first];
    let b = forms[second];
    forms[second] = r.mul_difference(&a, &b, power);
    forms[first] = r.add(&a, &b);
}

/// The first stage with a root: entry i and the one `half` after it become their sum, and their difference times the
/// power i of the root.
///
/// Returns the number of products.
///
/// # Preconditions
///
/// - all entries and the root are checked forms
/// - there are 2·half entries
pub fn first_stage<T: RingWord, R: Reducer<T>>(
    r: &R,
    forms: &mut [T],
    half: usize,
    root: &T,
) -> usize
    requires checked { AreChecked R.Reducer T.number r.now forms.old }
    requires root { IsChecked R.Reducer T.number r.now root.now }
    requires whole { half + half ≡ length forms.old }
    ensures checked { AreChecked R.Reducer T.number r.now forms.new }
    ensures stage { let m = R.modulus r.now in
        IsStage m (R.value m (T.number root.now)) half 1
        (slice_index (values_of T.number R.value m forms.old)) (slice_index (values_of T.number R.value m forms.new)) }
    ensures count { result ≡ half + half }
{
    let mut power = r.transform(T::one());
    let mut products = 0;
    'columns: for i in 0..half {
        pair(r, forms, i, half + i, &power);
        power = r.mul(&power, root);
        products += 2;
    }
    products
}
