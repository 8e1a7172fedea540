//! Powers to secret exponents and inverses of secret words, modulo m.

ghost use Rattle.std.specs.Prelude.{◌≡◌, ◌%◌, ◌^◌, ◌<◌, ◌≤◌, ◌↔◌, IsTrue};
ghost use Rattle.num_modular.specs.Inverses.{HasInverse, IsInverse};
ghost use Rattle.num_modular_c.specs.Codes.{Did, Refused};

use crate::codes::{NM_BAD_ARGUMENT, NM_NO_INVERSE, NM_OK};
use num_modular::secrets::{invm_secret, pow_secret};
use num_modular::{Montgomery, Reducer};

// Whether the exponent is below 2^`bits`. A jump on it tells no more than the result.
fn has_digits(exponent: u64, bits: u32) -> bool
    requires { bits ≤ 64 }
    ensures { IsTrue result ↔ (exponent < 2 ^ bits) }
{
    bits == 64 || exponent >> bits == 0
}

/// Writes the residue of a to the power `exponent` modulo m. a and the exponent are secret: all of them take the same
/// products, those of `pow_secret` over `Montgomery`. `NM_BAD_ARGUMENT`: m is 0, `bits` is above 64, or the exponent
/// isn't below 2^`bits`.
#[unsafe(no_mangle)]
pub extern "C" fn nm_powm_secret(a: u64, exponent: u64, bits: u32, m: u64, power: &mut u64) -> u32
    ensures did { 1 ≤ m → bits ≤ 64 → exponent < 2 ^ bits → Did result (power.new ≡ a ^ exponent % m) }
    ensures bad_argument { ((1 ≤ m) × (bits ≤ 64) × (exponent < 2 ^ bits) → ⊥)
        → Refused NM_BAD_ARGUMENT result power.old power.new }
{
    if m == 0 || bits > 64 {
        return NM_BAD_ARGUMENT;
    }
    if !has_digits(exponent, bits) {
        return NM_BAD_ARGUMENT;
    }
    let ring = Montgomery::<u64>::new(m);
    let form = pow_secret(&ring, ring.transform(a), &exponent, bits);
    *power = ring.residue(form);
    NM_OK
}

/// Writes the inverse of a secret a modulo an odd m, by the steps of `invm_secret`, the same for all. Whether there is
/// one is public. `NM_NO_INVERSE`: a has none. `NM_BAD_ARGUMENT`: m is even.
#[unsafe(no_mangle)]
pub extern "C" fn nm_invm_secret(a: u64, m: u64, inverse: &mut u64) -> u32
    ensures did { m % 2 ≡ 1 → HasInverse m a → Did result (IsInverse m a inverse.new) }
    ensures no_inverse { m % 2 ≡ 1 → (HasInverse m a → ⊥)
        → Refused NM_NO_INVERSE result inverse.old inverse.new }
    ensures bad_argument { m % 2 ≡ 0 → Refused NM_BAD_ARGUMENT result inverse.old inverse.new }
{
    if m % 2 == 0 {
        return NM_BAD_ARGUMENT;
    }
    match invm_secret(a, &m) {
        Some(found) => {
            *inverse = found;
            NM_OK
        }
        None => NM_NO_INVERSE,
    }
}
