//! A polynomial hash of bytes.

ghost use Rattle.std.specs.Prelude.{◌≡◌, ◌%◌, length, slice_index};
ghost use Rattle.num_modular.specs.Sums.{polynomial_highest_first};

use num_modular::laws::range_laws;
use num_modular::{FixedMersenneInt64, ModularInteger};

/// The polynomial with the bytes as coefficients, the highest first, at x modulo 2^61 - 1, by Horner's
/// rule.
///
/// # Examples
///
/// ```
/// use num_modular::applications::examples::hashes::hash;
///
/// assert_eq!(hash(&[1, 2, 3], 1000), 1_002_003);
/// ```
pub fn hash(bytes: &[u8], x: u64) -> u64
    ensures { result ≡ polynomial_highest_first (length bytes.now) (slice_index bytes.now) x % 2305843009213693951 }
{
    range_laws();
    let point = FixedMersenneInt64::<61, 1>::new(x, &2305843009213693951);
    let mut value = point.convert(0);
    'bytes: for byte in bytes {
        value = value * point + u64::from(*byte);
    }
    value.residue()
}
