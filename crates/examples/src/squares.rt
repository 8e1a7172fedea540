//! Quadratic residues of odd primes.

ghost use Rattle.std.specs.Prelude.{◌≡◌, ℕ, ◌*◌, ◌%◌, ◌↔◌, IsTrue};
ghost use Rattle.num_modular.specs.Primes.{IsPrime};

use num_modular::laws::prime_laws;
use num_modular::prim::symbol_over_prime;

/// Whether a is congruent to the square of a number that p doesn't divide.
///
/// # Preconditions
///
/// - p is an odd prime
///
/// # Examples
///
/// ```
/// use num_modular::applications::examples::squares::is_quadratic_residue;
///
/// assert!(is_quadratic_residue(2, 7)); // 3 * 3 = 7 + 2
/// assert!(!is_quadratic_residue(3, 7));
/// ```
pub fn is_quadratic_residue(a: u64, p: u64) -> bool
    requires odd { p % 2 ≡ 1 }
    requires prime { IsPrime p }
    ensures { IsTrue result ↔ ((x : ℕ) × (x % p ≡ 0 → ⊥) × ((x * x) % p ≡ a % p)) }
{
    prime_laws();
    symbol_over_prime(a, p) == 1
}
