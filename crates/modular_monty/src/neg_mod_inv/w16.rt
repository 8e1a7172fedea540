//! The negated inverse of an odd word of 16 bits.

ghost use Rattle.std.specs.Prelude.{◌≡◌, ◌-◌, ◌*◌, ◌%◌, ◌^◌};

use modular_word::word::w16::Word;

/// The word x with m * x = -1 modulo 2^16.
///
/// # Conditions
///
/// - (debug) m is odd
///
/// # Examples
///
/// ```
/// use num_modular::monty::neg_mod_inv::w16::neginv;
///
/// assert_eq!(neginv(3), 0x5555);
/// assert_eq!(3 * neginv(3), u16::MAX); // -1 modulo 2^16
/// ```
// rust: #[cfg_attr(debug_assertions, track_caller)]
pub fn neginv(m: Word) -> Word
    requires { m % 2 ≡ 1 }
    ensures { (m * result) % 2 ^ 16 ≡ 2 ^ 16 - 1 }
{
    super::neginv(m)
}
