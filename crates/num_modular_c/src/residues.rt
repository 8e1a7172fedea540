//! Residue number systems of any number of moduli and of any range, for numbers by their words of 64 bits.

ghost use Rattle.std.specs.Prelude.{◌≡◌, ℕ, ◌%◌, ◌<◌, ◌≤◌, ◌↔◌, IsTrue, length, slice_index};
ghost use Rattle.num_modular.specs.Systems.{AreResidues, range_of};
ghost use Rattle.residue_numbers.specs.MixedRadix.{number_of_words, mixed_number, AreDigits};
ghost use Rattle.num_modular_c.specs.Codes.{Did, Refused, BothRefused};
ghost use Rattle.num_modular_c.specs.Systems.{IsDecoded, ArePositive, AreLongReducedResidues, HasDigitRoom};

use crate::codes::{NM_BAD_ARGUMENT, NM_OK};
use num_modular::residues::are_reduced;
use residue_numbers::mixed_radix::{System, is_coprime_system};

// Whether each modulus is above 0.
fn are_positive(moduli: &[u64]) -> bool
    ensures { IsTrue result ↔ ArePositive moduli.now }
{
    'moduli: for place in 0..moduli.len() {
        if moduli[place] == 0 {
            return false;
        }
    }
    true
}

// The residue modulo m of the number that words denote, in the system of this one modulus. Condition: m is at least 1.
// rust: #[track_caller]
fn residue_of_words(m: u64, words: &[u64]) -> u64
    requires { 1 ≤ m }
    ensures { result ≡ number_of_words words.now % m }
{
    let moduli = [m];
    let mut inverses = [0; 1];
    let mut residues = [0; 1];
    match System::new(&moduli, &mut inverses) {
        Some(system) => system.encode(words, &mut residues),
        // rust instead: None => panic!("m must be at least 1"),
        None => unreachable!(),
    }
    residues[0]
}

// Writes the residues of the number that words denote. Conditions: each modulus is above 0 and has room for a residue.
fn write_residues(moduli: &[u64], words: &[u64], residues: &mut [u64])
    requires positive { ArePositive moduli.now }
    requires room { length residues.old ≡ length moduli.now }
    ensures { AreResidues moduli.now residues.new (number_of_words words.now) }
{
    'moduli: for place in 0..moduli.len() {
        residues[place] = residue_of_words(moduli[place], words);
    }
}

/// Writes the residues, modulo any number of moduli, of the number that words of 64 bits denote, the lowest first. The
/// moduli may have common divisors. `NM_BAD_ARGUMENT`: a modulus is 0, or there isn't one place for each residue.
#[unsafe(no_mangle)]
pub extern "C" fn nm_residues_encode(moduli: &[u64], words: &[u64], residues: &mut [u64]) -> u32
    ensures did { ArePositive moduli.now → length residues.old ≡ length moduli.now
        → Did result (AreResidues moduli.now residues.new (number_of_words words.now)) }
    ensures bad_argument { (ArePositive moduli.now → length residues.old ≡ length moduli.now → ⊥)
        → Refused NM_BAD_ARGUMENT result residues.old residues.new }
{
    if residues.len() != moduli.len() || !are_positive(moduli) {
        return NM_BAD_ARGUMENT;
    }
    write_residues(moduli, words, residues);
    NM_OK
}

// Whether residues represent a number: the moduli are coprime in pairs, and each has a residue below it.
fn is_long_encoding(moduli: &[u64], residues: &[u64]) -> bool
    ensures { IsTrue result ↔ AreLongReducedResidues moduli.now residues.now }
{
    residues.len() == moduli.len() && are_reduced(moduli, residues) && is_coprime_system(moduli)
}

// Writes the digits of a number, and its words. Conditions: the moduli are above 0 and coprime in pairs, each has a
// residue below it, room for a digit and for an inverse, and there are no fewer words.
// rust: #[track_caller]
fn decode_long(
    moduli: &[u64],
    residues: &[u64],
    words: &mut [u64],
    digits: &mut [u64],
    inverses: &mut [u64],
)
    requires encoding { AreLongReducedResidues moduli.now residues.now }
    requires words { length moduli.now ≤ length words.old }
    requires room { HasDigitRoom (length moduli.now) (length digits.old) (length inverses.old) }
    ensures number { IsDecoded moduli.now residues.now (number_of_words words.new) }
    ensures digits { AreDigits moduli.now digits.new }
    ensures same { mixed_number moduli.now digits.new ≡ number_of_words words.new }
{
    match System::new(moduli, inverses) {
        Some(system) => {
            system.digits(residues, digits);
            system.words(digits, words);
        }
        // rust instead: None => panic!("the moduli must be above 0 and coprime in pairs, each must have a residue below it, room for a digit and for an inverse, and there must be no fewer words"),
        None => unreachable!(),
    }
}

/// Writes the only number below the product of the moduli that has these residues: its words of 64 bits, the lowest
/// first, with 0 above them, and its digits in the mixed radix of the moduli, of which digit i counts the product of the
/// moduli before modulus i. The scratch list `inverses` has unspecified contents afterwards. It takes about 3·n² products
/// for n moduli and as many words. `NM_BAD_ARGUMENT`: a modulus is 0; two have a common divisor above 1; a residue isn't
/// below its modulus; residues, digits or inverses aren't as many as moduli; or words are fewer.
#[unsafe(no_mangle)]
pub extern "C" fn nm_residues_decode(
    moduli: &[u64],
    residues: &[u64],
    words: &mut [u64],
    digits: &mut [u64],
    inverses: &mut [u64],
) -> u32
    ensures did { AreLongReducedResidues moduli.now residues.now → length moduli.now ≤ length words.old
        → HasDigitRoom (length moduli.now) (length digits.old) (length inverses.old)
        → Did result (IsDecoded moduli.now residues.now (number_of_words words.new) × AreDigits moduli.now digits.new
        × (mixed_number moduli.now digits.new ≡ number_of_words words.new)) }
    ensures bad_argument { (AreLongReducedResidues moduli.now residues.now → length moduli.now ≤ length words.old
        → HasDigitRoom (length moduli.now) (length digits.old) (length inverses.old) → ⊥)
        → BothRefused NM_BAD_ARGUMENT result words.old words.new digits.old digits.new
        × (inverses.new ≡ inverses.old) }
{
    let n = moduli.len();
    if words.len() < n || digits.len() != n || inverses.len() != n {
        return NM_BAD_ARGUMENT;
    }
    if !is_long_encoding(moduli, residues) {
        return NM_BAD_ARGUMENT;
    }
    decode_long(moduli, residues, words, digits, inverses);
    NM_OK
}

// Writes the digits of a number, and its residues modulo other moduli. Conditions: the moduli are above 0 and coprime in
// pairs, and each has a residue below it, room for a digit and for an inverse; the others are above 0, and each has room
// for a residue.
// rust: #[track_caller]
fn extend_long(
    moduli: &[u64],
    residues: &[u64],
    others: &[u64],
    extended: &mut [u64],
    digits: &mut [u64],
    inverses: &mut [u64],
)
    requires encoding { AreLongReducedResidues moduli.now residues.now }
    requires positive { ArePositive others.now }
    requires places { length extended.old ≡ length others.now }
    requires room { HasDigitRoom (length moduli.now) (length digits.old) (length inverses.old) }
    ensures { (x : ℕ) → IsDecoded moduli.now residues.now x → AreResidues others.now extended.new x }
{
    match System::new(moduli, inverses) {
        Some(system) => system.extend(residues, digits, others, extended),
        // rust instead: None => panic!("the others must be above 0, and each must have room for a residue"),
        None => unreachable!(),
    }
}

/// Base extension: writes the residues, modulo other moduli, of the only number below the product of the moduli that has
/// these residues. The other moduli may have common divisors. The scratch lists `digits` and `inverses` have unspecified
/// contents afterwards. `NM_BAD_ARGUMENT`: a modulus is 0, or one of the others is; two of the moduli have a common
/// divisor above 1; a residue isn't below its modulus; residues, digits or inverses aren't as many as moduli; or there
/// isn't one place for each of the others.
#[unsafe(no_mangle)]
pub extern "C" fn nm_residues_extend(
    moduli: &[u64],
    residues: &[u64],
    others: &[u64],
    extended: &mut [u64],
    digits: &mut [u64],
    inverses: &mut [u64],
) -> u32
    ensures did { AreLongReducedResidues moduli.now residues.now → ArePositive others.now
        → length extended.old ≡ length others.now
        → HasDigitRoom (length moduli.now) (length digits.old) (length inverses.old)
        → Did result ((x : ℕ) → IsDecoded moduli.now residues.now x → AreResidues others.now extended.new x) }
    ensures bad_argument { (AreLongReducedResidues moduli.now residues.now → ArePositive others.now
        → length extended.old ≡ length others.now
        → HasDigitRoom (length moduli.now) (length digits.old) (length inverses.old) → ⊥)
        → BothRefused NM_BAD_ARGUMENT result extended.old extended.new digits.old digits.new
        × (inverses.new ≡ inverses.old) }
{
    let n = moduli.len();
    if extended.len() != others.len() || digits.len() != n || inverses.len() != n {
        return NM_BAD_ARGUMENT;
    }
    if !are_positive(others) || !is_long_encoding(moduli, residues) {
        return NM_BAD_ARGUMENT;
    }
    extend_long(moduli, residues, others, extended, digits, inverses);
    NM_OK
}
