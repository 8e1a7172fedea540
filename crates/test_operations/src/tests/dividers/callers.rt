//! Callers of `Normalized2by1Divisor`, proved from contracts alone; no test runs them.

ghost use Rattle.std.specs.Prelude.{◌≡◌, ◌↔◌, IsTrue};

use modular_barrett::normalized::{Normalized2by1Divisor, StoredDivisor};
use modular_prim::plain_word::PlainWord;

/// Whether two dividers are equal, which they are exactly where their divisors are.
pub fn same_divisor<T: PlainWord>(
    left: &Normalized2by1Divisor<T>,
    right: &Normalized2by1Divisor<T>,
) -> bool
    ensures { IsTrue result ↔ (⟦<Normalized2by1Divisor<T> as StoredDivisor>⟧.divisor left.now
        ≡ ⟦<Normalized2by1Divisor<T> as StoredDivisor>⟧.divisor right.now) }
{
    *left == *right
}
