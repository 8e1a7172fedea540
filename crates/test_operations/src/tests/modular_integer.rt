//! Code over any integers modulo m, proved from the laws of `ModularInteger` alone.

ghost use Rattle.std.specs.Prelude.{◌≡◌, ◌+◌, ◌%◌};

use modular_reduced::modular_integer::ModularInteger;

/// The residue of the sum of two integers whose words have 64 bits, of any type.
///
/// # Preconditions
///
/// - their moduli are equal
pub fn residue_of_sum<I: ModularInteger<Base = u64> + Copy>(a: I, b: I) -> u64
    requires { I.modulus_number a ≡ I.modulus_number b }
    ensures { result ≡ (I.residue_number a + I.residue_number b) % I.modulus_number a }
{
    (a + b).residue()
}

/// x + y modulo m, by the integers of any ring whose words have 64 bits, of which `ring` is one.
#[tactic(auto, using(modular_word::proofs::Remainders::remainders))]
pub fn sum_in_ring<I: ModularInteger<Base = u64> + Copy>(ring: I, x: u64, y: u64) -> u64
    ensures { result ≡ (x + y) % I.modulus_number ring }
{
    residue_of_sum(ring.convert(x), ring.convert(y))
}
