//! Square roots modulo primes that are 3 modulo 4.

ghost use Rattle.std.specs.Prelude.{◌≡◌, ℕ, ◌+◌, ◌*◌, ◌/◌, ◌%◌, ◌^◌, MatchOption};
ghost use Rattle.num_modular.specs.Primes.{IsPrime};

use num_modular::laws::prime_power_laws;
use num_modular::{ModularPow, ModularUnaryOps};

/// The power of a to the exponent (p + 1)/4 modulo p, where it is a square root of a; `None` exactly where a has no
/// square root modulo p.
///
/// # Preconditions
///
/// - p is a prime that is 3 modulo 4
///
/// # Examples
///
/// ```
/// use num_modular::applications::examples::square_roots::square_root;
///
/// assert_eq!(square_root(2, 7), Some(4)); // 4 * 4 = 2 * 7 + 2
/// assert_eq!(square_root(3, 7), None);
/// ```
pub fn square_root(a: u64, p: u64) -> Option<u64>
    requires three { p % 4 ≡ 3 }
    requires prime { IsPrime p }
    ensures { MatchOption result ((x : ℕ) → (x * x) % p ≡ a % p → ⊥)
        (λ r. (r ≡ a ^ ((p + 1) / 4) % p) × ((r * r) % p ≡ a % p)) }
{
    prime_power_laws();
    let root = a.powm(p / 4 + 1, &p);
    if root.sqm(&p) == a % p {
        Some(root)
    } else {
        None
    }
}
