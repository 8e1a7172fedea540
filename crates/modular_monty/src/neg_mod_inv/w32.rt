//! The negated inverse of an odd word of 32 bits.

ghost use Rattle.std.specs.Prelude.{◌≡◌, ◌-◌, ◌*◌, ◌%◌, ◌^◌};

use modular_word::word::w32::Word;

/// The word x with m * x = -1 modulo 2^32.
///
/// # Conditions
///
/// - (debug) m is odd
///
/// # Examples
///
/// ```
/// use num_modular::monty::neg_mod_inv::w32::neginv;
///
/// assert_eq!(neginv(3), 0x5555_5555);
/// assert_eq!(3 * neginv(3), u32::MAX); // -1 modulo 2^32
/// ```
// rust: #[cfg_attr(debug_assertions, track_caller)]
pub fn neginv(m: Word) -> Word
    requires { m % 2 ≡ 1 }
    ensures { (m * result) % 2 ^ 32 ≡ 2 ^ 32 - 1 }
{
    super::neginv(m)
}
