//! Words with masks, by which a choice needs no branch.

ghost use Rattle.std.specs.Prelude.{◌≡◌, ℕ, ◌+◌, ◌%◌, ◌<◌, ◌≤◌};

use modular_prim::reducer_word::ReducerWord;
use modular_word::path_word::PathWord;
// rattle: line
use modular_word::ring_word::RingWord;

/// A machine word with what a choice by a mask needs.
///
/// A mask has all bits set, or none.
///
/// # Examples
///
/// ```
/// use num_modular::secrets::SecretWord;
///
/// fn difference<T: SecretWord>(a: T, b: T, m: T) -> T {
///     let (difference, less) = a.borrowing_sub(b);
///     difference.wrapping_add(m.masked(less))
/// }
/// assert_eq!(difference(5u8, 7, 97), 95);
/// ```
// rust instead: pub trait SecretWord: Sized + ReducerWord {
pub trait SecretWord: ReducerWord {
    /// The word where the mask has all bits set; 0 where it has none.
    ///
    /// # Examples
    ///
    /// ```
    /// use num_modular::secrets::SecretWord;
    ///
    /// assert_eq!((9u8.masked(255), 9u8.masked(0)), (9, 0));
    /// ```
    // rust: #[must_use]
    fn masked(self, mask: Self) -> Self
        ensures all { Self.number mask + 1 ≡ Self.base → Self.number result ≡ Self.number self }
        ensures none { Self.number mask ≡ 0 → Self.number result ≡ 0 }
        ensures fits { Self.number self < Self.base };

    /// The negative modulo the base where the mask has all bits set; the word where it has none.
    ///
    /// # Examples
    ///
    /// ```
    /// use num_modular::secrets::SecretWord;
    ///
    /// assert_eq!((9u8.negated(255), 9u8.negated(0)), (247, 9));
    /// ```
    // rust: #[must_use]
    fn negated(self, mask: Self) -> Self
        ensures all { Self.number mask + 1 ≡ Self.base → (Self.number result + Self.number self) % Self.base ≡ 0 }
        ensures none { Self.number mask ≡ 0 → Self.number result ≡ Self.number self };

    /// The difference modulo the base, and the mask that has all bits set where it is below 0.
    ///
    /// The mask is the high word of a difference of double words: LLVM makes no comparison of it, so no branch.
    ///
    /// # Examples
    ///
    /// ```
    /// use num_modular::secrets::SecretWord;
    ///
    /// assert_eq!(SecretWord::borrowing_sub(5u8, 7), (254, 255));
    /// ```
    fn borrowing_sub(self, rhs: Self) -> (Self, Self)
        ensures below { Self.number self < Self.number rhs →
            Self.number result.0 + Self.number rhs ≡ Self.number self + Self.base }
        ensures all { Self.number self < Self.number rhs → Self.number result.1 + 1 ≡ Self.base }
        ensures exact { Self.number rhs ≤ Self.number self →
            Self.number result.0 + Self.number rhs ≡ Self.number self }
        ensures none { Self.number rhs ≤ Self.number self → Self.number result.1 ≡ 0 };
}

impl SecretWord for u8 {
    fn masked(self, mask: u8) -> u8 {
        self & mask
    }

    fn negated(self, mask: u8) -> u8 {
        (self ^ mask).wrapping_sub(mask)
    }

    fn borrowing_sub(self, rhs: u8) -> (u8, u8) {
        let difference = (self as u16).wrapping_sub(rhs as u16);
        <u8 as PathWord>::split(difference)
    }
}

impl SecretWord for u16 {
    fn masked(self, mask: u16) -> u16 {
        self & mask
    }

    fn negated(self, mask: u16) -> u16 {
        (self ^ mask).wrapping_sub(mask)
    }

    fn borrowing_sub(self, rhs: u16) -> (u16, u16) {
        let difference = (self as u32).wrapping_sub(rhs as u32);
        <u16 as PathWord>::split(difference)
    }
}

impl SecretWord for u32 {
    fn masked(self, mask: u32) -> u32 {
        self & mask
    }

    fn negated(self, mask: u32) -> u32 {
        (self ^ mask).wrapping_sub(mask)
    }

    fn borrowing_sub(self, rhs: u32) -> (u32, u32) {
        let difference = (self as u64).wrapping_sub(rhs as u64);
        <u32 as PathWord>::split(difference)
    }
}

impl SecretWord for u64 {
    fn masked(self, mask: u64) -> u64 {
        self & mask
    }

    fn negated(self, mask: u64) -> u64 {
        (self ^ mask).wrapping_sub(mask)
    }

    fn borrowing_sub(self, rhs: u64) -> (u64, u64) {
        let difference = (self as u128).wrapping_sub(rhs as u128);
        <u64 as PathWord>::split(difference)
    }
}

// rust: #[cfg(target_pointer_width = "64")]
impl SecretWord for usize {
    fn masked(self, mask: usize) -> usize {
        self & mask
    }

    fn negated(self, mask: usize) -> usize {
        (self ^ mask).wrapping_sub(mask)
    }

    fn borrowing_sub(self, rhs: usize) -> (usize, usize) {
        let difference = (self as u128).wrapping_sub(rhs as u128);
        <usize as PathWord>::split(difference)
    }
}

/// The mask that has all bits set where the word is odd.
pub fn odd_mask<T: SecretWord>(x: T) -> T
    ensures all { T.number x % 2 ≡ 1 → T.number result + 1 ≡ T.base }
    ensures none { T.number x % 2 ≡ 0 → T.number result ≡ 0 }
{
    T::zero().wrapping_sub(x.low_bits(1))
}

/// The second word where the mask has all bits set; the first where it has none.
pub fn chosen<T: SecretWord>(first: T, second: T, mask: T) -> T
    ensures all { T.number mask + 1 ≡ T.base → T.number result ≡ T.number second }
    ensures none { T.number mask ≡ 0 → T.number result ≡ T.number first }
    ensures first_fits { T.number first < T.base }
    ensures second_fits { T.number second < T.base }
{
    // Reading the words gives the proof that they fit their width.
    let _ = first.is_below(second);
    first.wrapping_add(second.wrapping_sub(first).masked(mask))
}
