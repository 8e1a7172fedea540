//! Modular operations of words that may be above the modulus.

ghost use Rattle.std.specs.Prelude.{◌≡◌, ◌+◌, ◌*◌, ◌%◌, ◌^◌, ◌≤◌, pos, ◌-ℤ◌};
ghost use Rattle.num_modular.specs.Inverses.{HasInverse, IsInverse};
ghost use Rattle.num_modular.specs.Residues.{residue};
ghost use Rattle.num_modular_c.specs.Codes.{Did, Refused};

use crate::codes::{NM_BAD_ARGUMENT, NM_NO_INVERSE, NM_OK};
use num_modular::{ModularCoreOps, ModularPow, ModularUnaryOps};

/// Writes the residue of a + b modulo m. `NM_BAD_ARGUMENT`: m is 0.
#[unsafe(no_mangle)]
pub extern "C" fn nm_addm(a: u64, b: u64, m: u64, sum: &mut u64) -> u32
    ensures did { 1 ≤ m → Did result (sum.new ≡ (a + b) % m) }
    ensures bad_argument { m ≡ 0 → Refused NM_BAD_ARGUMENT result sum.old sum.new }
{
    if m == 0 {
        return NM_BAD_ARGUMENT;
    }
    *sum = a.addm(b, &m);
    NM_OK
}

/// Writes the residue of a - b modulo m. `NM_BAD_ARGUMENT`: m is 0.
#[unsafe(no_mangle)]
pub extern "C" fn nm_subm(a: u64, b: u64, m: u64, difference: &mut u64) -> u32
    ensures did { 1 ≤ m → Did result (difference.new ≡ residue m (pos a -ℤ pos b)) }
    ensures bad_argument { m ≡ 0 → Refused NM_BAD_ARGUMENT result difference.old difference.new }
{
    if m == 0 {
        return NM_BAD_ARGUMENT;
    }
    *difference = a.subm(b, &m);
    NM_OK
}

/// Writes the residue of a·b modulo m. `NM_BAD_ARGUMENT`: m is 0.
#[unsafe(no_mangle)]
pub extern "C" fn nm_mulm(a: u64, b: u64, m: u64, product: &mut u64) -> u32
    ensures did { 1 ≤ m → Did result (product.new ≡ (a * b) % m) }
    ensures bad_argument { m ≡ 0 → Refused NM_BAD_ARGUMENT result product.old product.new }
{
    if m == 0 {
        return NM_BAD_ARGUMENT;
    }
    *product = a.mulm(b, &m);
    NM_OK
}

/// Writes the residue of a to the power `exponent` modulo m; that of 1 for the exponent 0. `NM_BAD_ARGUMENT`: m is 0.
#[unsafe(no_mangle)]
pub extern "C" fn nm_powm(a: u64, exponent: u64, m: u64, power: &mut u64) -> u32
    ensures did { 1 ≤ m → Did result (power.new ≡ a ^ exponent % m) }
    ensures bad_argument { m ≡ 0 → Refused NM_BAD_ARGUMENT result power.old power.new }
{
    if m == 0 {
        return NM_BAD_ARGUMENT;
    }
    *power = a.powm(exponent, &m);
    NM_OK
}

/// Writes the inverse of a modulo m. `NM_NO_INVERSE`: a has none. `NM_BAD_ARGUMENT`: m is 0.
#[unsafe(no_mangle)]
pub extern "C" fn nm_invm(a: u64, m: u64, inverse: &mut u64) -> u32
    ensures did { 1 ≤ m → HasInverse m a → Did result (IsInverse m a inverse.new) }
    ensures no_inverse { 1 ≤ m → (HasInverse m a → ⊥) → Refused NM_NO_INVERSE result inverse.old inverse.new }
    ensures bad_argument { m ≡ 0 → Refused NM_BAD_ARGUMENT result inverse.old inverse.new }
{
    if m == 0 {
        return NM_BAD_ARGUMENT;
    }
    match a.invm(&m) {
        Some(found) => {
            *inverse = found;
            NM_OK
        }
        None => NM_NO_INVERSE,
    }
}
