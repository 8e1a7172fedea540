//! Callers of laws that no user's crate cites.

ghost use Rattle.std.specs.Prelude.{◌≡◌, ℕ, ◌+◌, ◌*◌, ◌%◌, ◌<◌, ◌≤◌};
ghost use Rattle.num_modular.specs.Forms.{IsForm};
ghost use Rattle.num_modular.specs.Inverses.{IsInverse};
ghost use Rattle.num_modular.specs.Sums.{sum_below};
ghost use Rattle.num_modular.specs.Products.{product_below};

use num_modular::laws::{canonical_laws, product_below_laws, sum_below_laws, undoing_laws};
use num_modular::{Reducer, RingWord};

/// Two checked forms of one value are one form.
pub fn one_form<T: RingWord, R: Reducer<T>>(r: &R)
    ensures { let m = R.modulus r.now in (f g : ℕ) → IsForm R.form R.value m f → IsForm R.form R.value m g →
        R.value m f ≡ R.value m g → f ≡ g }
{
    canonical_laws::<T, R>(r);
}

/// A quotient by a number with an inverse, times that number, is the dividend.
pub fn quotient_undone()
    ensures { (m a b x : ℕ) → IsInverse m b x → a < m → ((a * x) % m * b) % m ≡ a }
{
    undoing_laws();
}

/// A sum of n terms 0 or 1 is at most n.
pub fn sum_of_bits()
    ensures { (n : ℕ) (f : ℕ → ℕ) → ((i : ℕ) → i < n → f i ≤ 1) → sum_below n f ≤ n * 1 }
{
    sum_below_laws();
}

/// (n + 1)! is n! times n + 1.
pub fn product_of_one_more()
    ensures { (n : ℕ) → product_below (n + 1) (λ i. i + 1) ≡ product_below n (λ i. i + 1) * (n + 1) }
{
    product_below_laws();
}
