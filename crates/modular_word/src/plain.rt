//! The definitions of `specs/` as programs: simple and slow, each with its definition as its contract.
//!
//! The tests compare the fast calls with them; the library doesn't use them.

ghost use Rattle.std.specs.Prelude.{◌≡◌, ℕ, ◌-◌, ◌*◌, ◌%◌, ◌^◌, ◌<◌, ◌≤◌, ◌↔◌};
ghost use Rattle.modular_word.specs.Divisors.{IsGreatestCommonDivisor, gcd};
ghost use Rattle.modular_word.specs.Inverses.{IsInversion, HasInverse, inverse_of};
ghost use Rattle.modular_word.specs.Residues.{IsResidue, residue};

// The residue of a signed number modulo m, by the equation that computes it.
fn computed_residue(z: i64, m: u64) -> u64
    requires { 1 ≤ m }
    ensures { result ≡ residue m z }
{
    if z < 0 {
        m - 1 - (-(z + 1)) as u64 % m
    } else {
        z as u64 % m
    }
}

/// The residue of a signed number modulo m.
///
/// The definition and the equation agree: the result is `residue m z`, and the only residue of z modulo m.
///
/// # Preconditions
///
/// - m is at least 1
pub fn residue_of(z: i64, m: u64) -> u64
    requires { 1 ≤ m }
    ensures computed { result ≡ residue m z }
    ensures is_residue { IsResidue m z result }
    ensures unique { (v : ℕ) → IsResidue m z v → v ≡ result }
{
    computed_residue(z, m)
}

/// The residue modulo m of the power of `base` to `exp`.
///
/// # Preconditions
///
/// - m is at least 1
pub fn power_of(base: u64, exp: u64, m: u64) -> u64
    requires { 1 ≤ m }
    ensures { result ≡ base ^ exp % m }
{
    let mut power = 1 % m;
    for _ in 0..exp {
        power = (power as u128 * base as u128 % m as u128) as u64;
    }
    power
}

/// The inverse of a modulo m, by trying each number below m; `None` exactly where there is none.
///
/// # Preconditions
///
/// - m is at least 1
pub fn inverse_by_search(a: u64, m: u64) -> Option<u64>
    requires { 1 ≤ m }
    ensures { IsInversion (λ x. x) m a result }
{
    for x in 0..m {
        if a as u128 * x as u128 % m as u128 == (1 % m) as u128 {
            return Some(x);
        }
    }
    None
}

/// The greatest common divisor of a and n, by trying each number up to n.
///
/// It is 1 exactly where a has an inverse modulo n.
///
/// # Preconditions
///
/// - n is at least 1
pub fn greatest_common_divisor(a: u64, n: u64) -> u64
    requires { 1 ≤ n }
    ensures computed { result ≡ gcd a n }
    ensures greatest { IsGreatestCommonDivisor a n result }
    ensures inverse { HasInverse n a ↔ (result ≡ 1) }
{
    let mut greatest = 0;
    'divisors: for below in 0..n {
        let divisor = below + 1;
        if a % divisor == 0 && n % divisor == 0 {
            greatest = divisor;
        }
    }
    greatest
}
