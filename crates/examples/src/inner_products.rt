//! The inner product of two lists, over any reducer.

ghost use Rattle.std.specs.Prelude.{◌≡◌, ◌+◌, ◌*◌, ◌%◌, ◌≤◌, length, slice_index};
ghost use Rattle.num_modular.specs.Sums.{sum_below};

use num_modular::laws::range_laws;
use num_modular::{Montgomery, Reducer};

/// The sum of the products of the entries, modulo m.
///
/// # Preconditions
///
/// - the lists have the same length
///
/// # Examples
///
/// ```
/// use num_modular::applications::examples::inner_products::inner_product;
/// use num_modular::Montgomery;
///
/// let ring = Montgomery::<u64>::new(20);
/// assert_eq!(inner_product(&ring, &[1, 2, 3], &[4, 5, 6]), 12); // 4 + 10 + 18 - 20
/// ```
#[tactic(auto, using(num_modular::specs::Remainders::remainders))]
pub fn inner_product<R: Reducer<u64>>(r: &R, xs: &[u64], ys: &[u64]) -> u64
    requires { length xs.now ≡ length ys.now }
    ensures { result ≡ sum_below (length xs.now) (λ i. slice_index xs.now i * slice_index ys.now i) % R.modulus r.now }
{
    range_laws();
    let mut sum = r.transform(0);
    'terms: for i in 0..xs.len() {
        let product = r.mul(&r.transform(xs[i]), &r.transform(ys[i]));
        sum = r.add(&sum, &product);
    }
    r.residue(sum)
}

/// The inner product of four words with four words modulo m.
///
/// # Preconditions
///
/// - m is at least 1
///
/// # Examples
///
/// ```
/// use num_modular::applications::examples::inner_products::inner_product_of_four;
///
/// assert_eq!(inner_product_of_four([1, 2, 3, 4], [5, 6, 7, 8], 50), 20); // 5 + 12 + 21 + 32 - 50
/// ```
pub fn inner_product_of_four(x: [u64; 4], y: [u64; 4], m: u64) -> u64
    requires { 1 ≤ m }
    ensures { result ≡ sum_below 4 (λ i. slice_index x i * slice_index y i) % m }
{
    inner_product(&Montgomery::<u64>::new(m), &x, &y)
}
