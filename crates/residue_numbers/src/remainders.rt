//! A number from two remainders, by the Chinese remainder theorem.

ghost use Rattle.std.specs.Prelude.{◌≡◌, ◌*◌, ◌%◌, ◌<◌, ◌≤◌, MatchOption};
ghost use Rattle.num_modular.specs.Inverses.{HasInverse};

use num_modular::laws::linear_congruence_laws;
use num_modular::{ModularCoreOps, ModularUnaryOps};

/// The number below m·n that is congruent to a modulo m and to b modulo n; `None` exactly where m has no inverse
/// modulo n.
///
/// # Conditions
///
/// - m and n are at least 1
///
/// # Examples
///
/// ```
/// use num_modular::applications::residue_numbers::from_remainders;
///
/// assert_eq!(from_remainders(2, 3, 3, 5), Some(8));
/// assert_eq!(from_remainders(2, 4, 3, 6), None); // 4 has no inverse modulo 6
/// ```
// rust: #[track_caller]
pub fn from_remainders(a: u32, m: u32, b: u32, n: u32) -> Option<u64>
    requires m { 1 ≤ m }
    requires n { 1 ≤ n }
    ensures { MatchOption result (HasInverse n m → ⊥) (λ x. (x < m * n) × (x % m ≡ a % m) × (x % n ≡ b % n)) }
{
    // rust: assert!(m > 0 && n > 0, "m and n must be at least 1");
    linear_congruence_laws();
    let a = a % m;
    let inverse = m.invm(&n)?;
    let steps = b.subm(a, &n).mulm(inverse, &n);
    Some(u64::from(a) + u64::from(m) * u64::from(steps))
}
