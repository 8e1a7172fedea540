//! Hashes and a search, numbers by their residues, and the product of long numbers.

ghost use Rattle.std.specs.Prelude.{◌≡◌, ℕ, ◌+◌, ◌*◌, ◌/◌, ◌%◌, ◌^◌, ◌<◌, ◌≤◌, ◌↔◌, IsTrue, length, slice_index};
ghost use Rattle.long_product.specs.Numbers.{number_of};
ghost use Rattle.long_product.specs.Room.{HasRoom};
ghost use Rattle.num_modular.specs.Hashes.{IsFirst, StandsAt};
ghost use Rattle.num_modular.specs.Sums.{polynomial_highest_first};
ghost use Rattle.num_modular_c.specs.Codes.{Did, Refused, BothRefused};
ghost use Rattle.num_modular_c.specs.Systems.{AreReducedResidues, IsDecoded};

use crate::codes::{NM_BAD_ARGUMENT, NM_NOT_FOUND, NM_OK};
use crate::plans::NmFactor;
use long_product::{MOST_PLACES, product, room};
use num_modular::ModularInteger;
use num_modular::hashes::{base, find, hash as hash_at};
use num_modular::residues::{are_reduced, decode, is_system};
use num_modular::word::w64::split;

/// A number of two words.
#[repr(C)]
#[derive(Clone, Copy)]
// rust: #[must_use]
pub struct NmDouble {
    /// The number modulo 2^64.
    pub low: u64,
    /// The number divided by 2^64, rounded down.
    pub high: u64,
}

/// Writes the hash of the bytes at the base x: the value at x of the polynomial with the bytes as coefficients, the
/// highest first, modulo 2^61 - 1. Returns `NM_OK`.
#[unsafe(no_mangle)]
pub extern "C" fn nm_hash(x: u64, bytes: &[u8], hash: &mut u64) -> u32
    ensures { let base = x % 2305843009213693951 in Did result (hash.new
        ≡ polynomial_highest_first (length bytes.now) (slice_index bytes.now) base % 2305843009213693951) }
{
    *hash = hash_at(base(x), bytes).residue();
    NM_OK
}

/// Writes the first position where the pattern occurs in the text, found by hashes at the base x; it is right for
/// every x. `NM_NOT_FOUND`: it occurs nowhere. The header says for which x it is fast.
#[unsafe(no_mangle)]
pub extern "C" fn nm_find(x: u64, text: &[u8], pattern: &[u8], position: &mut usize) -> u32
    ensures did { (i : ℕ) → StandsAt text.now pattern.now i → Did result (IsFirst text.now pattern.now position.new) }
    ensures not_found { ((i : ℕ) → StandsAt text.now pattern.now i → ⊥)
        → Refused NM_NOT_FOUND result position.old position.new }
{
    match find(base(x), text, pattern) {
        Some(at) => {
            *position = at;
            NM_OK
        }
        None => NM_NOT_FOUND,
    }
}

// Whether residues represent a number: the moduli are a system, and each residue is below its modulus.
fn is_encoding(moduli: &[u64], residues: &[u64]) -> bool
    ensures { IsTrue result ↔ AreReducedResidues moduli.now residues.now }
{
    moduli.len() == residues.len() && is_system(moduli) && are_reduced(moduli, residues)
}

/// Writes the only number below the product of the moduli that has these residues. `NM_BAD_ARGUMENT`: the lengths
/// differ, a modulus is 0, two have a common divisor above 1, their product isn't below 2^128, or a residue isn't
/// below its modulus.
#[unsafe(no_mangle)]
pub extern "C" fn nm_decode(moduli: &[u64], residues: &[u64], number: &mut NmDouble) -> u32
    ensures did { AreReducedResidues moduli.now residues.now
        → Did result (IsDecoded moduli.now residues.now (number.new.low + 2 ^ 64 * number.new.high)) }
    ensures bad_argument { (AreReducedResidues moduli.now residues.now → ⊥)
        → Refused NM_BAD_ARGUMENT result number.old number.new }
{
    if !is_encoding(moduli, residues) {
        return NM_BAD_ARGUMENT;
    }
    let (low, high) = split(decode(moduli, residues));
    *number = NmDouble { low, high };
    NM_OK
}

/// Writes the lengths of the two scratch slices of `nm_product` for numbers of n = `xs_length` and k = `ys_length`
/// digits: 0 where one of the numbers has fewer than 400 digits, else 4·e words and 3·e/2 factors, e being the least
/// power of two that is at least n + k. `NM_BAD_ARGUMENT`: n + k is above 2^32.
#[unsafe(no_mangle)]
pub extern "C" fn nm_product_room(
    xs_length: usize,
    ys_length: usize,
    words: &mut usize,
    factors: &mut usize,
) -> u32
    ensures did { xs_length + ys_length ≤ 2 ^ 32 → Did result ((w f : ℕ) →
        HasRoom xs_length ys_length (xs_length + ys_length) w (f / 3) ↔ ((words.new ≤ w) × (factors.new ≤ f))) }
    ensures bad_argument { 2 ^ 32 < xs_length + ys_length → BothRefused NM_BAD_ARGUMENT result words.old words.new
        factors.old factors.new }
{
    if xs_length > MOST_PLACES || ys_length > MOST_PLACES - xs_length {
        return NM_BAD_ARGUMENT;
    }
    let (needed, table) = room(xs_length, ys_length);
    *words = needed;
    *factors = 3 * table;
    NM_OK
}

/// Writes the digits of the product of two numbers, given by their digits of 64 bits, the lowest first. The scratch
/// slices `words` and `factors` have unspecified contents afterwards. `NM_BAD_ARGUMENT`: `digits` isn't as long as
/// both numbers together; or both have at least 400 digits, and `digits` has more than 2^32 places or a scratch slice
/// is shorter than `nm_product_room` writes.
#[unsafe(no_mangle)]
pub extern "C" fn nm_product(
    xs: &[u64],
    ys: &[u64],
    digits: &mut [u64],
    words: &mut [u64],
    factors: &mut [NmFactor],
) -> u32
    ensures did { HasRoom (length xs.now) (length ys.now) (length digits.old) (length words.old) (length factors.old / 3)
        → Did result (number_of digits.new ≡ number_of xs.now * number_of ys.now) }
    ensures bad_argument { (HasRoom (length xs.now) (length ys.now) (length digits.old) (length words.old)
        (length factors.old / 3) → ⊥)
        → BothRefused NM_BAD_ARGUMENT result digits.old digits.new words.old words.new × (factors.new ≡ factors.old) }
{
    if product(xs, ys, digits, words, factors) {
        NM_OK
    } else {
        NM_BAD_ARGUMENT
    }
}
