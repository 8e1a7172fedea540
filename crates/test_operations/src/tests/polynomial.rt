//! Polynomials over any integers modulo m.

ghost use Rattle.modular_word.specs.Sums.{polynomial_highest_first};
ghost use Rattle.modular_reduced.specs.Integers.{IsInteger, modulus_of, residue_of};
ghost use Rattle.std.specs.Prelude.{◌≡◌, ◌%◌, All, map, length, slice_index};

use modular_barrett::premul::PreMulInv2by1;
use modular_reduced::modular_integer::ModularInteger;
use modular_reduced::reduced_int::{ReducedInt, VanillaInt};
use modular_reduced::reducer::Reducer;
use modular_word::ring_word::RingWord;

/// The value at x of the polynomial with these coefficients, the highest first, by Horner's rule.
///
/// # Preconditions
///
/// - all moduli are equal
pub fn horner<I: ModularInteger + Copy>(coefficients: &[I], x: I) -> I
    requires { All (λ c. I.modulus_number c ≡ I.modulus_number x) coefficients.now }
    ensures { let m = I.modulus_number x in
        let numbers = map I.residue_number coefficients.now in
        IsInteger I.modulus_number I.residue_number m
        (polynomial_highest_first (length numbers) (slice_index numbers) (I.residue_number x) % m) result }
{
    let mut value = x - x;
    // rust instead: 'terms: for c in coefficients {
    'terms: for c in coefficients {
        value = value * x + *c;
    }
    value
}

// The residue of the value at x. Generic in the reducer: at a known one, a call of `horner` brings all laws of
// `ModularInteger` into the caller's proof.
fn value<T: RingWord, R: Reducer<T> + Copy>(
    coefficients: &[ReducedInt<T, R>],
    x: ReducedInt<T, R>,
) -> T
    requires { All (λ c. modulus_of c ≡ modulus_of x) coefficients.now }
    ensures { let numbers = map residue_of coefficients.now in T.number result
        ≡ polynomial_highest_first (length numbers) (slice_index numbers) (residue_of x) % modulus_of x }
{
    horner(coefficients, x).residue()
}

/// 2·7^2 + 3·7 + 5 modulo 21, over bytes.
pub fn value_of_bytes() -> u8
    ensures { result ≡ 19 }
{
    let a = VanillaInt::<u8>::new(2, &21);
    let b = VanillaInt::<u8>::new(3, &21);
    let c = VanillaInt::<u8>::new(5, &21);
    let x = VanillaInt::<u8>::new(7, &21);
    value(&[a, b, c], x)
}

/// The same by a reducer whose forms aren't the residues.
pub fn value_by_forms() -> u64
    ensures { result ≡ 19 }
{
    let a = ReducedInt::<u64, PreMulInv2by1<u64>>::new(2, &21);
    let b = ReducedInt::<u64, PreMulInv2by1<u64>>::new(3, &21);
    let c = ReducedInt::<u64, PreMulInv2by1<u64>>::new(5, &21);
    let x = ReducedInt::<u64, PreMulInv2by1<u64>>::new(7, &21);
    value(&[a, b, c], x)
}
