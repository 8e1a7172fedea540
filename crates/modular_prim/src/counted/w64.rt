//! Words of 64 bits.

ghost use Rattle.std.specs.Prelude.{◌≡◌, ◌≤◌};
ghost use Rattle.modular_prim.specs.Divisions.{inverse_divisions};
ghost use Rattle.modular_word.specs.Inverses.{IsInversion};

use crate::euclid;

/// The inverse of a modulo m and the number of divisions: the inverse is `None` exactly where there is none.
///
/// # Conditions
///
/// - m is at least 1
///
/// # Examples
///
/// ```
/// use num_modular::prim::counted::w64::invm_counted;
///
/// assert_eq!(invm_counted(3, 7), (Some(5), 2)); // 7 by 3, and 3 by 1
/// assert_eq!(invm_counted(3, 6), (None, 1)); // 6 by 3
/// ```
// rust: #[cfg_attr(debug_assertions, track_caller)]
pub fn invm_counted(a: u64, m: u64) -> (Option<u64>, u32)
    requires { 1 ≤ m }
    ensures inverse { IsInversion (λ x. x) m a result.0 }
    ensures count { result.1 ≡ inverse_divisions a m }
    ensures at_most { result.1 ≤ 128 }
{
    euclid::invm_counted(a, m)
}
