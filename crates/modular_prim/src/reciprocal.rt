//! The reciprocal of a word.

ghost use Rattle.std.specs.Prelude.{◌*◌, ◌≤◌};
ghost use Rattle.modular_word.specs.Reciprocals.{IsReciprocal};

use crate::plain_word::PlainWord;
// rattle: line
use modular_word::path_word::PathWord;
use modular_word::paths::ones;
// rattle: line
use modular_word::ring_word::RingWord;

/// The reciprocal of a divisor d: (B² - 1)/d - B, rounded down, with B the base.
///
/// Source: Möller and Granlund, "Improved division by invariant integers", section 3.
///
/// # Preconditions
///
/// - the divisor's top bit is set
// Not inlined: compilers would lose that the high word of the quotient is 0, and multiply by it too.
#[inline(never)]
pub fn invert_word<T: PlainWord>(d: T) -> T
    requires { T.base ≤ 2 * T.number d }
    ensures { IsReciprocal T.base (T.number d) (T.number result) }
{
    let greatest = ones::<T>(T::bits());
    // Taking d·B from the dividend takes B from the quotient and keeps its low word. The quotient then fits a word,
    // so that one instruction divides a double word of 128 bits in place of two.
    let high = if T::bits() < 64 {
        greatest
    } else {
        greatest.wrapping_sub(d)
    };
    T::low_quotient(T::merge(greatest, high), d)
}
