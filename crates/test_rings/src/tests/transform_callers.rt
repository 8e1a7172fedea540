//! Callers of transforms, proved from their contracts and the public laws alone; no test runs them.

ghost use Rattle.std.specs.Prelude.{length, slice_index};
ghost use Rattle.modular_word.specs.Inverses.{IsInverse};
ghost use Rattle.modular_reduced.specs.Checked.{AreChecked, IsChecked};
ghost use Rattle.modular_reduced.specs.Values.{values_of, HoldValues};
ghost use Rattle.modular_transform.specs.Transforms.{Suits};

use modular_reduced::reducer::Reducer;
use modular_transform::laws::transform_laws;
use modular_transform::lists::scale_list;
use modular_transform::transform::ntt;
use modular_word::ring_word::RingWord;

/// The transform by g and then by its inverse, each entry times the inverse `part` of the length: every entry has
/// its former value.
pub fn there_and_back<T: RingWord, R: Reducer<T>>(r: &R, xs: &mut [T], g: &T, inverse: &T, part: &T)
    requires checked { AreChecked R.Reducer T.number r.now xs.old }
    requires root { IsChecked R.Reducer T.number r.now g.now }
    requires inverse_form { IsChecked R.Reducer T.number r.now inverse.now }
    requires part_form { IsChecked R.Reducer T.number r.now part.now }
    requires suits { let m = R.modulus r.now in Suits m (R.value m (T.number g.now)) (length xs.old) }
    requires inverse { let m = R.modulus r.now in
        IsInverse m (R.value m (T.number g.now)) (R.value m (T.number inverse.now)) }
    requires part { let m = R.modulus r.now in IsInverse m (length xs.old) (R.value m (T.number part.now)) }
    ensures { let m = R.modulus r.now in
        HoldValues T.number R.form m xs.new (slice_index (values_of T.number R.value m xs.old)) }
{
    transform_laws();
    ntt(r, xs, g);
    ntt(r, xs, inverse);
    scale_list(r, xs, part);
}
