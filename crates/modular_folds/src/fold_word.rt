//! The operations of a dividend that folds use.
//!
//! There is no division and no remainder, so code over this trait alone makes none.

ghost use Rattle.std.specs.Prelude.{◌≡◌, ℕ, ◌+◌, ◌-◌, ◌*◌, ◌/◌, ◌%◌, ◌^◌, ◌<◌, ◌≤◌, ◌↔◌, IsTrue, bit_and};

use modular_word::ring_word::RingWord;

/// A dividend that can be folded: a word of 64 or 128 bits.
// rust instead: pub trait FoldWord: Sized + RingWord {
pub trait FoldWord: RingWord {
    /// The sum.
    ///
    /// # Preconditions
    ///
    /// - the sum fits the word
    // rust: #[must_use]
    fn plus(self, rhs: Self) -> Self
        requires { Self.number self + Self.number rhs < 2 ^ Self.width }
        ensures { Self.number result ≡ Self.number self + Self.number rhs };

    /// The difference.
    ///
    /// # Preconditions
    ///
    /// - the difference is not below 0
    // rust: #[must_use]
    fn minus(self, rhs: Self) -> Self
        requires { Self.number rhs ≤ Self.number self }
        ensures { Self.number result + Self.number rhs ≡ Self.number self };

    /// The product.
    ///
    /// # Preconditions
    ///
    /// - the product fits the word
    // rust: #[must_use]
    fn times(self, rhs: Self) -> Self
        requires { Self.number self * Self.number rhs < 2 ^ Self.width }
        ensures { Self.number result ≡ Self.number self * Self.number rhs };

    /// The product with a factor, plus a word.
    ///
    /// For a factor 2^k + 1 or 2^k - 1 it is a shift and two sums, whose latency is less than that of a product. The
    /// sums may wrap; LLVM would turn sums that don't back into a product. For the factor 1 it is one sum.
    ///
    /// # Preconditions
    ///
    /// - the result fits the word
    // rust: #[must_use]
    fn multiply_add(self, factor: Self, addend: Self) -> Self
        requires { Self.number self * Self.number factor + Self.number addend < 2 ^ Self.width }
        ensures { Self.number result ≡ Self.number self * Self.number factor + Self.number addend };

    /// The word divided by a power of two, rounded down.
    ///
    /// # Preconditions
    ///
    /// - `by` is below the width
    // rust: #[must_use]
    fn shift_right(self, by: u32) -> Self
        requires { by < Self.width }
        ensures value { Self.number result ≡ Self.number self / 2 ^ by }
        ensures fits { Self.number self < 2 ^ Self.width };

    /// The bitwise and of the word and a mask.
    // rust: #[must_use]
    fn masked(self, mask: Self) -> Self
        ensures { Self.number result ≡ bit_and (Self.number self) (Self.number mask) };

    /// Whether the word is below another.
    fn is_below(self, other: Self) -> bool
        ensures below { IsTrue result ↔ (Self.number self < Self.number other) }
        ensures fits { Self.number self < 2 ^ Self.width }
        ensures other_fits { Self.number other < 2 ^ Self.width };
}

impl FoldWord for u64 {
    fn plus(self, rhs: u64) -> u64 {
        self + rhs
    }

    fn minus(self, rhs: u64) -> u64 {
        self - rhs
    }

    fn times(self, rhs: u64) -> u64 {
        self * rhs
    }

    #[inline(always)]
    fn multiply_add(self, factor: u64, addend: u64) -> u64 {
        let above = factor.wrapping_add(1);
        let below = factor.wrapping_sub(1);
        let up = above.trailing_zeros();
        let down = below.trailing_zeros();
        if 1 < up && up < 64 && 1 << up == above {
            addend.wrapping_sub(self).wrapping_add(self << up)
        } else if below < factor && down < 64 && 1 << down == below {
            addend.wrapping_add(self).wrapping_add(self << down)
        } else {
            self * factor + addend
        }
    }

    fn shift_right(self, by: u32) -> u64 {
        self >> by
    }

    fn masked(self, mask: u64) -> u64 {
        self & mask
    }

    fn is_below(self, other: u64) -> bool {
        self < other
    }
}

impl FoldWord for u128 {
    fn plus(self, rhs: u128) -> u128 {
        self + rhs
    }

    fn minus(self, rhs: u128) -> u128 {
        self - rhs
    }

    fn times(self, rhs: u128) -> u128 {
        self * rhs
    }

    #[inline(always)]
    fn multiply_add(self, factor: u128, addend: u128) -> u128 {
        let above = factor.wrapping_add(1);
        let below = factor.wrapping_sub(1);
        let up = above.trailing_zeros();
        let down = below.trailing_zeros();
        if 1 < up && up < 128 && 1 << up == above {
            addend.wrapping_sub(self).wrapping_add(self << up)
        } else if below < factor && down < 128 && 1 << down == below {
            addend.wrapping_add(self).wrapping_add(self << down)
        } else {
            self * factor + addend
        }
    }

    fn shift_right(self, by: u32) -> u128 {
        self >> by
    }

    fn masked(self, mask: u128) -> u128 {
        self & mask
    }

    fn is_below(self, other: u128) -> bool {
        self < other
    }
}
