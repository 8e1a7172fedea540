//! Residue number systems: numbers by their residues modulo several numbers, any two of which are coprime.

ghost use Rattle.std.specs.Prelude.{◌≡◌, ℕ, ◌+◌, ◌*◌, ◌%◌, ◌^◌, ◌<◌, ◌≤◌, ◌↔◌};
ghost use Rattle.std.specs.Prelude.{IsTrue, MatchOption, length, slice_index};
ghost use Rattle.modular_word.specs.Inverses.{HasInverse};
ghost use Rattle.modular_ring.specs.Systems.{range_of, IsSystem, AreResidues};

use modular_reduced::modular_integer::ModularInteger;
use modular_reduced::reduced_int::VanillaInt;
use modular_word::laws::{divisor_laws, inverse_laws, residue_laws};

// Whether n has an inverse modulo m.
fn has_inverse(n: u128, m: u64) -> bool
    requires { 1 ≤ m }
    ensures { IsTrue result ↔ HasInverse m n }
{
    inverse_laws();
    VanillaInt::<u64>::new((n % m as u128) as u64, &m)
        .inv()
        .is_some()
}

// The product with one more modulus; `None` exactly where it doesn't fit a word.
fn next_range(range: u128, m: u64) -> Option<u128>
    ensures { MatchOption result (2 ^ 128 ≤ range * m) (λ product. (product ≡ range * m) × (product < 2 ^ 128)) }
{
    range.checked_mul(m as u128)
}

/// Whether the moduli are a system: each is above 0, any two are coprime, and their product is below 2^128.
///
/// # Examples
///
/// ```
/// use num_modular::residues::is_system;
///
/// assert!(is_system(&[3, 5, 7]));
/// assert!(!is_system(&[4, 6])); // 2 divides both
/// ```
pub fn is_system(moduli: &[u64]) -> bool
    ensures { IsTrue result ↔ IsSystem moduli.now }
{
    divisor_laws();
    inverse_laws();
    let mut range: u128 = 1;
    // rust instead: for modulus in moduli {
    'moduli: for (place, modulus) in moduli.iter().enumerate() {
        if *modulus == 0 || !has_inverse(range, *modulus) {
            return false;
        }
        match next_range(range, *modulus) {
            Some(product) => range = product,
            None => return false,
        }
    }
    true
}

// The next digit of a number in the mixed radix of the moduli: the factor of `range` for which the sum has the residue.
// Condition: the moduli are at least 1, pairwise coprime, and their product is below 2^128.
// rust: #[track_caller]
fn next_digit(m: u64, residue: u64, number: u128, range: u128) -> u64
    requires modulus { 1 ≤ m }
    requires unit { HasInverse m range }
    ensures below { result < m }
    ensures right { (number + range * result) % m ≡ residue % m }
{
    inverse_laws();
    residue_laws();
    let known = VanillaInt::<u64>::new((number % m as u128) as u64, &m);
    let weight = known.convert((range % m as u128) as u64);
    // rust: match weight.inv() {
    // rust instead: Some(inverse) => ((known.convert(residue) - known) * inverse).residue(),
    ((known.convert(residue) - known) / weight).residue()
    // rust: None => panic!("the moduli must be at least 1, pairwise coprime, and their product must be below 2^128"),
    // rust: }
}

/// Writes the residues of a number.
///
/// # Conditions
///
/// - each modulus is above 0
/// - there are as many residues as moduli
///
/// # Examples
///
/// ```
/// use num_modular::residues::encode;
///
/// let mut residues = [0; 3];
/// encode(&[3, 5, 7], 23, &mut residues);
/// assert_eq!(residues, [2, 3, 2]);
/// ```
// rust: #[track_caller]
pub fn encode(moduli: &[u64], number: u128, residues: &mut [u64])
    requires positive { (i : ℕ) → i < length moduli.now → 0 < slice_index moduli.now i }
    requires room { length residues.old ≡ length moduli.now }
    ensures { AreResidues moduli.now residues.new number }
{
    // rust: assert!(moduli.iter().all(|m| *m > 0), "each modulus must be above 0");
    // rust: assert!(residues.len() == moduli.len(), "there must be as many residues as moduli: {} and {}",
    // rust:     residues.len(), moduli.len());
    'moduli: for (place, modulus) in moduli.iter().enumerate() {
        residues[place] = (number % *modulus as u128) as u64;
    }
}

/// Whether each residue is below its modulus.
///
/// # Conditions
///
/// - there are as many residues as moduli
///
/// # Examples
///
/// ```
/// use num_modular::residues::are_reduced;
///
/// assert!(are_reduced(&[3, 5, 7], &[2, 3, 2]));
/// assert!(!are_reduced(&[3, 5, 7], &[3, 3, 2]));
/// ```
// rust: #[track_caller]
pub fn are_reduced(moduli: &[u64], residues: &[u64]) -> bool
    requires { length residues.now ≡ length moduli.now }
    ensures { IsTrue result
        ↔ ((i : ℕ) → i < length moduli.now → slice_index residues.now i < slice_index moduli.now i) }
{
    // rust: assert!(residues.len() == moduli.len(), "there must be as many residues as moduli: {} and {}",
    // rust:     residues.len(), moduli.len());
    'moduli: for (place, modulus) in moduli.iter().enumerate() {
        if residues[place] >= *modulus {
            return false;
        }
    }
    true
}

/// The number below the product of the moduli: the only one that has these residues.
///
/// Source: Garner, "The residue number system"; Knuth, The Art of Computer Programming, volume 2, section 4.3.2,
/// (24) and (25).
///
/// # Conditions
///
/// - the moduli are at least 1, pairwise coprime, and their product is below 2^128 ([`is_system`] tells)
/// - there are as many residues as moduli, each below its modulus ([`are_reduced`] tells)
///
/// # Examples
///
/// ```
/// use num_modular::residues::decode;
///
/// assert_eq!(decode(&[3, 5, 7], &[2, 3, 2]), 23); // Sunzi's example
/// ```
// rust: #[track_caller]
pub fn decode(moduli: &[u64], residues: &[u64]) -> u128
    requires system { IsSystem moduli.now }
    requires count { length residues.now ≡ length moduli.now }
    requires reduced { (i : ℕ) → i < length moduli.now → slice_index residues.now i < slice_index moduli.now i }
    ensures below { result < range_of moduli.now }
    ensures number { AreResidues moduli.now residues.now result }
    ensures only { (x : ℕ) → x < range_of moduli.now → AreResidues moduli.now residues.now x → x ≡ result }
{
    // rust: assert!(crate::additions::may_be_system(moduli),
    // rust:     "the moduli must be at least 1, pairwise coprime, and their product must be below 2^128");
    // rust: assert!(residues.len() == moduli.len() && are_reduced(moduli, residues),
    // rust:     "there must be as many residues as moduli, each below its modulus");
    divisor_laws();
    inverse_laws();
    let mut number: u128 = 0;
    let mut range: u128 = 1;
    'moduli: for (place, modulus) in moduli.iter().enumerate() {
        let digit = next_digit(*modulus, residues[place], number, range);
        number += range * digit as u128;
        range *= *modulus as u128;
    }
    number
}
