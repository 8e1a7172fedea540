//! The Jacobi symbol with the number of steps, in one module for each width.

ghost use Rattle.std.specs.Prelude.{◌≡◌, ◌*◌, ◌≤◌, pos, IfSome, option_map};
ghost use Rattle.modular_symbols.specs.Jacobi.{checked_jacobi_of};
ghost use Rattle.modular_symbols.specs.Kronecker.{signed};
ghost use Rattle.modular_symbols.specs.Steps.{jacobi_steps};
ghost use Rattle.modular_word.specs.Residues.{residue};

use crate::halving::jacobi_counted;
use modular_prim::plain_word::PlainWord;
// rattle: line
use modular_word::ring_word::RingWord;

pub mod w16;
pub mod w32;
pub mod w64;
pub mod w8;
// rust: #[cfg(target_pointer_width = "64")]
pub mod wsize;

/// The Jacobi symbol over n of a number, given by its sign and its magnitude, and the number of halvings and swaps,
/// counted from its residue; `None` exactly for an even n.
pub fn checked_jacobi_counted<T: PlainWord>(a_minus: bool, a: T, n: T) -> Option<(i8, u32)>
    ensures symbol { option_map (λ found. found.0) result
        ≡ checked_jacobi_of (signed a_minus (pos (T.number a))) (pos (T.number n)) }
    ensures count { IfSome result (λ found. found.1
        ≡ jacobi_steps (residue (T.number n) (signed a_minus (pos (T.number a)))) (T.number n)) }
    ensures at_most { IfSome result (λ found. found.1 ≤ 2 * T.width) }
{
    if n.is_odd() {
        Some(jacobi_counted(a_minus, a, n))
    } else {
        None
    }
}
