//! The negated inverse of an odd word of 64 bits.

ghost use Rattle.std.specs.Prelude.{◌≡◌, ◌-◌, ◌*◌, ◌%◌, ◌^◌};

use modular_word::word::w64::Word;

/// The word x with m * x = -1 modulo 2^64.
///
/// # Conditions
///
/// - (debug) m is odd
///
/// # Examples
///
/// ```
/// use num_modular::monty::neg_mod_inv::w64::neginv;
///
/// assert_eq!(neginv(3), 0x5555_5555_5555_5555);
/// assert_eq!(3 * neginv(3), u64::MAX); // -1 modulo 2^64
/// ```
// rust: #[cfg_attr(debug_assertions, track_caller)]
pub fn neginv(m: Word) -> Word
    requires { m % 2 ≡ 1 }
    ensures { (m * result) % 2 ^ 64 ≡ 2 ^ 64 - 1 }
{
    super::neginv(m)
}
