//! Callers of `Montgomery` and `FixedProth`, proved from contracts alone; no test runs them.

ghost use Rattle.std.specs.Prelude.{◌≡◌, ◌*◌, ◌%◌, ◌≤◌};

use modular_monty::montgomery::Montgomery;
use modular_monty::proth::FixedProth32;
use modular_reduced::reducer::Reducer;
use modular_word::ring_word::RingWord;

// The product of two words by their forms.
fn product_by_forms<T: RingWord, R: Reducer<T>>(ring: &R, a: T, b: T) -> T
    ensures { T.number result ≡ (T.number a * T.number b) % R.modulus ring.now }
{
    ring.residue(ring.mul(&ring.transform(a), &ring.transform(b)))
}

/// The remainder of a * b by m, whose only divisions are those that make the reducer.
///
/// # Preconditions
///
/// - m is at least 1
pub fn product_modulo(a: u64, b: u64, m: u64) -> u64
    requires { 1 ≤ m }
    ensures { result ≡ (a * b) % m }
{
    product_by_forms(&Montgomery::<u64>::new(m), a, b)
}

/// The modulus 3 * 2^2 + 1.
pub fn proth_modulus_of_2_and_3() -> u32
    ensures { result ≡ 13 }
{
    FixedProth32::<2, 3>::fixed_modulus()
}
