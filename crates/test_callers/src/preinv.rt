//! Callers of `PreModInv`, and of the negated inverse of an odd number.

ghost use Rattle.std.specs.Prelude.{◌≡◌, ◌-◌, ◌*◌, ◌%◌, ◌^◌};
ghost use Rattle.modular_word.specs.Division.{IsExactQuotient};

use modular_monty::neg_mod_inv::w8;
use modular_monty::preinv::{PreModInv, PreparedInverse};
use modular_prim::exact::DivExact;

/// A seventh of a byte, by constants in the source; `None` exactly where 7 doesn't divide it.
pub fn seventh(n: u8) -> Option<u8>
    ensures { IsExactQuotient (λ q. q) n 7 result }
{
    n.div_exact(7, &PreModInv::<u8>::new(183, 36))
}

/// The two numbers that fit the divisor 7.
pub fn prepared_seven() -> PreModInv<u8>
    ensures { ⟦<PreModInv<u8> as PreparedInverse>⟧.fits result 7 }
{
    PreModInv::<u8>::from(7)
}

/// The negated inverse of 7 modulo 2^8.
pub fn negated_inverse_of_seven() -> u8
    ensures { (7 * result) % 2 ^ 8 ≡ 2 ^ 8 - 1 }
{
    w8::neginv(7)
}
