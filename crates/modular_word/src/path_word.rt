//! What the paths use of a word: exact and wrapping sums, differences, products, shifts and comparisons of words and
//! double words.
//!
//! There is no division and no remainder, so code over this trait alone makes none.

ghost use Rattle.std.specs.Prelude.{◌≡◌, ℕ, ◌+◌, ◌-◌, ◌*◌, ◌/◌, ◌%◌, ◌^◌, ◌<◌, ◌≤◌, ◌↔◌, IsTrue, IsFalse};
ghost use Rattle.std.specs.Int.Count.{count_leading_zeros, count_trailing_zeros};

use crate::ring_word::RingWord;

/// A machine word with its double word.
// rust instead: pub trait PathWord: Sized + RingWord {
pub trait PathWord: RingWord {
    /// The type that holds the product of two words.
    type Double: Copy;

    // The number of a double word.
    ghost double_number: { Self.Double → ℕ };

    // The base of the words: 2^w for w bits.
    ghost base: { ℕ };

    /// The sum.
    ///
    /// # Preconditions
    ///
    /// - the sum fits a word
    // rust: #[must_use]
    fn plus(self, rhs: Self) -> Self
        requires { Self.number self + Self.number rhs < base }
        ensures { Self.number result ≡ Self.number self + Self.number rhs };

    /// The difference.
    ///
    /// # Preconditions
    ///
    /// - the difference is not below 0
    // rust: #[must_use]
    fn minus(self, rhs: Self) -> Self
        requires { Self.number rhs ≤ Self.number self }
        ensures value { Self.number result + Self.number rhs ≡ Self.number self }
        ensures fits { Self.number self < base };

    /// The difference modulo m, below m.
    ///
    /// Words of 64 bits take no branch, which would mispredict half the time where either may be the greater.
    ///
    /// # Preconditions
    ///
    /// - both numbers are below `m`
    // rust: #[must_use]
    fn minus_modulo(self, rhs: Self, m: Self) -> Self
        requires left { Self.number self < Self.number m }
        requires right { Self.number rhs < Self.number m }
        ensures wrapped { Self.number self < Self.number rhs →
            Self.number result + Self.number rhs ≡ Self.number self + Self.number m }
        ensures plain { Self.number rhs ≤ Self.number self →
            Self.number result + Self.number rhs ≡ Self.number self };

    /// The product.
    ///
    /// # Preconditions
    ///
    /// - the product fits a word
    // rust: #[must_use]
    fn times(self, rhs: Self) -> Self
        requires { Self.number self * Self.number rhs < base }
        ensures { Self.number result ≡ Self.number self * Self.number rhs };

    /// The sum modulo the base.
    // rust: #[must_use]
    fn wrapping_add(self, rhs: Self) -> Self
        ensures value { Self.number result ≡ (Self.number self + Self.number rhs) % base }
        ensures fits { Self.number result < base };

    /// The sum modulo the base, and whether it overflows: the carry.
    fn overflowing_add(self, rhs: Self) -> (Self, bool)
        ensures carried { IsTrue result.1 → Self.number self + Self.number rhs ≡ Self.number result.0 + base }
        ensures exact { IsFalse result.1 → Self.number self + Self.number rhs ≡ Self.number result.0 }
        ensures fits { Self.number result.0 < base };

    /// The difference modulo the base: the word whose sum with `rhs`, modulo the base, is `self`.
    // rust: #[must_use]
    fn wrapping_sub(self, rhs: Self) -> Self
        ensures value { (Self.number result + Self.number rhs) % base ≡ Self.number self }
        ensures fits { Self.number result < base };

    /// The product modulo the base.
    // rust: #[must_use]
    fn wrapping_mul(self, rhs: Self) -> Self
        ensures value { Self.number result ≡ (Self.number self * Self.number rhs) % base }
        ensures fits { Self.number result < base }
        ensures self_fits { Self.number self < base };

    /// The word divided by a power of two, rounded down.
    ///
    /// # Preconditions
    ///
    /// - `by` is below the width
    // rust: #[must_use]
    fn shift_right(self, by: u32) -> Self
        requires { by < Self.width }
        ensures value { Self.number result ≡ Self.number self / 2 ^ by }
        ensures fits { Self.number self < base };

    /// The word times a power of two.
    ///
    /// # Preconditions
    ///
    /// - `by` is below the width, and the product fits
    // rust: #[must_use]
    fn shift_left(self, by: u32) -> Self
        requires by { by < Self.width }
        requires fits { Self.number self * 2 ^ by < base }
        ensures { Self.number result ≡ Self.number self * 2 ^ by };

    /// The word modulo a power of two.
    ///
    /// # Preconditions
    ///
    /// - `count` is below the width
    // rust: #[must_use]
    fn low_bits(self, count: u32) -> Self
        requires { count < Self.width }
        ensures value { Self.number result ≡ Self.number self % 2 ^ count }
        ensures fits { Self.number self < base };

    /// The number of leading zeros; the width for 0.
    fn leading_zeros(self) -> u32
        ensures value { result ≡ count_leading_zeros Self.width (Self.number self) }
        ensures fits { Self.number self < base };

    /// The number of trailing zeros; the width for 0.
    fn trailing_zeros(self) -> u32
        ensures value { result ≡ count_trailing_zeros Self.width (Self.number self) }
        ensures fits { Self.number self < base };

    /// Whether the word is below another.
    fn is_below(self, other: Self) -> bool
        ensures below { IsTrue result ↔ (Self.number self < Self.number other) }
        ensures fits { Self.number self < base }
        ensures other_fits { Self.number other < base };

    /// The product of two words, as a double word.
    fn product(self, rhs: Self) -> Self::Double
        ensures value { double_number result ≡ Self.number self * Self.number rhs }
        ensures fits { Self.number self < base }
        ensures other_fits { Self.number rhs < base };

    /// The word times a power of two, as a double word.
    ///
    /// # Preconditions
    ///
    /// - `by` is below the width
    fn shift_left_wide(self, by: u32) -> Self::Double
        requires { by < Self.width }
        ensures value { double_number result ≡ Self.number self * 2 ^ by }
        ensures fits { Self.number self < base };

    /// The low and the high word of a double word, in this order.
    fn split(double: Self::Double) -> (Self, Self)
        ensures value { double_number double ≡ Self.number result.0 + base * Self.number result.1 }
        ensures low_fits { Self.number result.0 < base }
        ensures high_fits { Self.number result.1 < base };

    /// The double word with a given low and high word.
    fn merge(low: Self, high: Self) -> Self::Double
        ensures value { double_number result ≡ Self.number low + base * Self.number high }
        ensures low_fits { Self.number low < base }
        ensures high_fits { Self.number high < base };

    /// The sum of two double words.
    ///
    /// # Preconditions
    ///
    /// - the result fits a double word
    fn double_plus(first: Self::Double, second: Self::Double) -> Self::Double
        requires { double_number first + double_number second < base * base }
        ensures { double_number result ≡ double_number first + double_number second };

    /// The double word divided by a power of two, rounded down.
    ///
    /// # Preconditions
    ///
    /// - `by` is below twice the width
    // rust: #[must_use]
    fn double_shift_right(double: Self::Double, by: u32) -> Self::Double
        requires { by < 2 * Self.width }
        ensures { double_number result ≡ double_number double / 2 ^ by };

    /// The sum of two double words modulo the square of the base, and whether it overflows: the carry.
    fn double_overflowing_add(first: Self::Double, second: Self::Double) -> (Self::Double, bool)
        ensures carried { IsTrue result.1 →
            double_number first + double_number second ≡ double_number result.0 + base * base }
        ensures exact { IsFalse result.1 → double_number first + double_number second ≡ double_number result.0 }
        ensures fits { double_number result.0 < base * base };

    // The base is 2 to the width.
    ghost base_is: { base ≡ 2 ^ Self.width };
}
