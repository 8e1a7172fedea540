//! What reducers divide for.

ghost use Rattle.std.specs.Prelude.{◌≡◌, ℕ, ◌*◌, ◌%◌, ◌<◌, ◌≤◌};
ghost use Rattle.modular_word.specs.Inverses.{IsInversion};

use crate::euclid::invm;
use crate::inverse::fast_inverse;
use crate::plain_word::PlainWord;
use modular_word::path_word::PathWord;
use modular_word::paths::ones;
// rattle: line
use modular_word::ring_word::RingWord;

/// A machine word with what reducers divide for: inverses, and a number that is computed once for each modulus.
///
/// It has no quotient and no remainder, so that code over this trait alone can't reduce a product by one.
// rust instead: pub trait ReducerWord: Sized + PathWord {
pub trait ReducerWord: PathWord {
    /// The inverse of a modulo m, below m; `None` exactly where there is none.
    ///
    /// # Preconditions
    ///
    /// - m is at least 1
    fn inverse(a: Self, m: Self) -> Option<Self>
        requires { 1 ≤ Self.number m }
        ensures { IsInversion Self.number (Self.number m) (Self.number a) result };

    /// The same by Euclid's algorithm for every m.
    ///
    /// # Preconditions
    ///
    /// - m is at least 1
    fn inverse_by_euclid(a: Self, m: Self) -> Option<Self>
        requires { 1 ≤ Self.number m }
        ensures { IsInversion Self.number (Self.number m) (Self.number a) result };

    /// The square of the base, modulo m.
    ///
    /// # Preconditions
    ///
    /// - m is at least 1
    // rust: #[must_use]
    fn square_of_base(m: Self) -> Self
        requires { 1 ≤ Self.number m }
        ensures value { Self.number result ≡ (Self.base * Self.base) % Self.number m }
        ensures fits { Self.number m < Self.base };
}

impl<T: PlainWord> ReducerWord for T {
    fn inverse(a: T, m: T) -> Option<T> {
        fast_inverse(a, m)
    }

    fn inverse_by_euclid(a: T, m: T) -> Option<T> {
        invm(a, m)
    }

    // The square doesn't fit a double word, but the square less m does, and it is congruent to the square.
    fn square_of_base(m: T) -> T {
        let less = T::merge(T::zero().wrapping_sub(m), ones::<T>(T::bits()));
        T::narrow_remainder(less, m)
    }
}
