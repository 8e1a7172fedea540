//! Products of polynomials with whole numbers as coefficients.

ghost use Rattle.std.specs.Prelude.{◌≡◌, ℕ, ◌+◌, ◌-◌, ◌*◌, ◌<◌, ◌≤◌, ◌↔◌, IsTrue, All, length, slice_index};
ghost use Rattle.num_modular.specs.Checked.{IsChecked};
ghost use Rattle.num_modular.specs.Inverses.{HasInverse};
ghost use Rattle.num_modular.specs.Sums.{sum_below};
ghost use Rattle.num_modular.specs.Transforms.{Suits};

use num_modular::Reducer;
use num_modular::laws::coefficient_laws;
use num_modular::ring::{convolve, load_forms, unload_forms};

/// Writes the coefficients of the product of the polynomials xs and ys to `product`, the lowest first.
///
/// The scratch lists have unspecified contents afterwards. Returns false, with `product` unchanged, exactly where the
/// length n of the scratch lists has no inverse modulo m.
///
/// # Preconditions
///
/// - no coefficient is above `bound`, and m is above n·bound^2
/// - n is at least the number of coefficients of the product
/// - g is the checked form of a root that suits n
///
/// # Examples
///
/// ```
/// use num_modular::applications::examples::polynomials::product_of;
/// use num_modular::ring::find_root;
/// use num_modular::{Reducer, Vanilla};
///
/// let ring = Vanilla::<u64>::new(&97);
/// let root = find_root(&ring, 4).unwrap();
/// let (mut product, mut left, mut right) = ([0; 3], [0; 4], [0; 4]);
/// // (1 + 2X)(3 + 4X), with coefficients of at most 4: 97 is above 4 * 4^2
/// assert!(product_of(&ring, root, &[1, 2], &[3, 4], &mut product, &mut left, &mut right, 4));
/// assert_eq!(product, [3, 10, 8]);
/// ```
// rust: #[must_use]
pub fn product_of<R: Reducer<u64>>(
    r: &R,
    g: u64,
    xs: &[u64],
    ys: &[u64],
    product: &mut [u64],
    left: &mut [u64],
    right: &mut [u64],
    bound: u64,
) -> bool
    requires root { IsChecked R.Reducer (λ x. x) r.now g }
    requires suits { let m = R.modulus r.now in Suits m (R.value m g) (length left.old) }
    requires equal { length right.old ≡ length left.old }
    requires small_xs { All (λ x. x ≤ bound) xs.now }
    requires small_ys { All (λ y. y ≤ bound) ys.now }
    requires modulus { length left.old * (bound * bound) < R.modulus r.now }
    requires room { length xs.now + length ys.now ≤ length left.old + 1 }
    requires within { length product.old ≤ length left.old }
    ensures inverse { IsTrue result ↔ HasInverse (R.modulus r.now) (length left.old) }
    ensures coefficients { IsTrue result → (e : ℕ) → e < length product.old →
        slice_index product.new e ≡ sum_below (e + 1) (λ i. slice_index xs.now i * slice_index ys.now (e - i)) }
    ensures unchanged { (IsTrue result → ⊥) → product.new ≡ product.old }
{
    // rust: let _ = bound;
    coefficient_laws();
    load_forms(r, xs, left);
    load_forms(r, ys, right);
    if !convolve(r, left, right, &g) {
        return false;
    }
    unload_forms(r, left, product);
    true
}
