//! The number with two remainders for moduli that may have common divisors.

ghost use Rattle.std.specs.Prelude.{◌≡◌, ℕ, ◌+◌, ◌*◌, ◌%◌, ◌<◌, ◌≤◌, ◌↔◌, IsSome, MatchOption};
ghost use Rattle.num_modular.specs.Divisors.{Coprime, gcd};
ghost use Rattle.residue_numbers.specs.Combinations.{AreParts, IsCommon, IsCombination};

use num_modular::laws::{
    congruence_laws, divisor_laws, inverse_laws, linear_congruence_laws, residue_laws,
};
use num_modular::{ModularCoreOps, ModularUnaryOps};

// The greatest common divisor, by Euclid's algorithm.
fn common_divisor(m: u64, n: u64) -> u64
    requires { 1 ≤ n }
    ensures greatest { result ≡ gcd m n }
    ensures parts { AreParts m n result }
{
    divisor_laws();
    let (mut divisor, mut rest) = (m, n);
    'steps: while rest != 0 {
        let next = divisor % rest;
        divisor = rest;
        rest = next;
    }
    divisor
}

// What is to be added to the remainder of a modulo m, so that the sum is congruent to b modulo n.
fn difference_modulo(a: u64, m: u64, b: u64, n: u64) -> u64
    requires m { 1 ≤ m }
    requires n { 1 ≤ n }
    ensures { (result + a % m) % n ≡ b % n }
{
    residue_laws();
    b.subm(a % m, &n)
}

// The number t below v with u·t congruent to k modulo v.
fn quotient_modulo(k: u64, u: u64, v: u64) -> u64
    requires positive { 1 ≤ v }
    requires coprime { Coprime u v }
    ensures below { result < v }
    ensures solved { (u * result) % v ≡ k % v }
{
    inverse_laws();
    linear_congruence_laws();
    match u.invm(&v) {
        Some(inverse) => k.mulm(inverse, &v),
        // Coprime numbers have an inverse.
        None => 0,
    }
}

/// The number with two given remainders, and its modulus: it is congruent to a modulo m and to b modulo n, and the only
/// one below the least common multiple of m and n, which is the other result; `None` exactly where a and b differ
/// modulo the greatest common divisor.
///
/// Source: Gauss, Disquisitiones Arithmeticae, articles 32 to 35; Ore, "The general Chinese remainder theorem".
///
/// # Conditions
///
/// - m and n are at least 1
///
/// # Examples
///
/// ```
/// use num_modular::applications::residue_numbers::combine;
///
/// assert_eq!(combine(3, 4, 5, 6), Some((11, 12)));
/// assert_eq!(combine(1, 4, 2, 6), None); // one is odd, the other even
/// ```
// rust: #[track_caller]
pub fn combine(a: u64, m: u64, b: u64, n: u64) -> Option<(u128, u128)>
    requires m { 1 ≤ m }
    requires n { 1 ≤ n }
    ensures number { MatchOption result ((x : ℕ) → IsCommon a m b n x → ⊥)
        (λ both. IsCombination a m b n both.0 both.1) }
    ensures exactly { IsSome result ↔ (a % gcd m n ≡ b % gcd m n) }
{
    // rust: assert!(m > 0 && n > 0, "m and n must be at least 1");
    inverse_laws();
    congruence_laws();
    let divisor = common_divisor(m, n);
    let difference = difference_modulo(a, m, b, n);
    if difference % divisor != 0 {
        return None;
    }
    let step = n / divisor;
    let steps = quotient_modulo(difference / divisor, m / divisor, step);
    Some((
        u128::from(a % m) + u128::from(m) * u128::from(steps),
        u128::from(m) * u128::from(step),
    ))
}
