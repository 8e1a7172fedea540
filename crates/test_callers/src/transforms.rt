//! Callers of `ntt`.

ghost use Rattle.modular_reduced.specs.Checked.{AreChecked, IsChecked};

use modular_reduced::reducer::Reducer;
use modular_transform::transform::{ntt, root_fits};
use modular_word::ring_word::RingWord;

/// Replaces forms by their transform by g where g suits as many entries.
///
/// # Preconditions
///
/// - g and the entries are checked forms
pub fn transform_where_it_suits<T: RingWord, R: Reducer<T>>(r: &R, xs: &mut [T], g: &T)
    requires root { IsChecked R.Reducer T.number r.now g.now }
    requires forms { AreChecked R.Reducer T.number r.now xs.old }
    ensures { AreChecked R.Reducer T.number r.now xs.new }
{
    if root_fits(r, g, xs.len()) {
        ntt(r, xs, g);
    }
}
