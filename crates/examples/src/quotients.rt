//! Quotients modulo m, where the divisor must have an inverse.

ghost use Rattle.num_modular.specs.Integers.{IsModularQuotient};
ghost use Rattle.num_modular.specs.Inverses.{HasInverse, IsInverse};
ghost use Rattle.std.specs.Prelude.{◌≡◌, ℕ, ◌*◌, ◌%◌, ◌≤◌, MatchOption};

use num_modular::{ModularInteger, MontgomeryInt, VanillaInt};

/// a times the inverse of b modulo m; `None` exactly where b has none.
///
/// # Preconditions
///
/// - m is at least 1
///
/// # Examples
///
/// ```
/// use num_modular::applications::examples::quotients::by_inverse;
///
/// assert_eq!(by_inverse(10, 5, 21), Some(2));
/// assert_eq!(by_inverse(10, 6, 21), None); // 3 divides 6 and 21
/// ```
#[tactic(auto, using(num_modular::specs::Remainders::remainders))]
pub fn by_inverse(a: u64, b: u64, m: u64) -> Option<u64>
    requires { 1 ≤ m }
    ensures { MatchOption result (HasInverse m (b % m) → ⊥)
        (λ q. (x : ℕ) × IsInverse m (b % m) x × (q ≡ (a * x) % m)) }
{
    let b = MontgomeryInt::<u64>::new(b, &m);
    let a = b.convert(a);
    let i = b.inv()?;
    Some((a * i).residue())
}

/// The number below m whose product with b is congruent to a modulo m; `None` exactly where b has no inverse.
///
/// # Preconditions
///
/// - m is at least 1
///
/// # Examples
///
/// ```
/// use num_modular::applications::examples::quotients::by_operator;
///
/// assert_eq!(by_operator(10, 4, 21), Some(13)); // 13 * 4 = 2 * 21 + 10
/// assert_eq!(by_operator(10, 6, 21), None); // 3 divides 6 and 21
/// ```
pub fn by_operator(a: u64, b: u64, m: u64) -> Option<u64>
    requires { 1 ≤ m }
    ensures { MatchOption result (HasInverse m (b % m) → ⊥) (λ q. IsModularQuotient m (a % m) (b % m) q) }
{
    let b = MontgomeryInt::<u64>::new(b, &m);
    let a = b.convert(a);
    if b.inv().is_some() {
        Some((a / b).residue())
    } else {
        None
    }
}

/// 10 / 5 modulo 21.
///
/// # Examples
///
/// ```
/// use num_modular::applications::examples::quotients::ten_by_five;
///
/// assert_eq!(ten_by_five(), 2);
/// ```
pub fn ten_by_five() -> u8
    ensures { result ≡ 2 }
{
    let ten = VanillaInt::<u8>::new(10, &21);
    let five = VanillaInt::<u8>::new(5, &21);
    (ten / five).residue()
}
