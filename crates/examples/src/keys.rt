//! Key agreement by powers (Diffie and Hellman, "New directions in cryptography").

ghost use Rattle.std.specs.Prelude.{◌≡◌, ◌*◌, ◌%◌, ◌^◌, ◌≤◌};

use num_modular::ModularPow;
use num_modular::laws::power_laws;

/// The word that a party publishes: the power of the base g to the party's secret, modulo m.
///
/// # Preconditions
///
/// - m is at least 1
///
/// # Examples
///
/// ```
/// use num_modular::applications::examples::keys::known_word;
///
/// assert_eq!(known_word(5, 6, 23), 8); // 5^6 = 15625 = 679 * 23 + 8
/// ```
pub fn known_word(g: u64, secret: u64, m: u64) -> u64
    requires { 1 ≤ m }
    ensures { result ≡ g ^ secret % m }
{
    g.powm(secret, &m)
}

/// The keys of two parties, each from its own secret and the word that the other publishes: they are equal.
///
/// # Preconditions
///
/// - m is at least 1
///
/// # Examples
///
/// ```
/// use num_modular::applications::examples::keys::keys;
///
/// // the parties publish 5^6 = 8 and 5^15 = 19 modulo 23
/// assert_eq!(keys(5, 6, 15, 23), (2, 2)); // 19^6 and 8^15
/// ```
#[tactic(auto, using(num_modular::specs::Remainders::remainders))]
pub fn keys(g: u64, first: u64, second: u64, m: u64) -> (u64, u64)
    requires { 1 ≤ m }
    ensures key { result.0 ≡ g ^ (first * second) % m }
    ensures agreed { result.1 ≡ result.0 }
{
    power_laws();
    let from_second = known_word(g, second, m).powm(first, &m);
    let from_first = known_word(g, first, m).powm(second, &m);
    (from_second, from_first)
}
