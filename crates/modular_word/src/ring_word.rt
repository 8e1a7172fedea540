//! The trait of machine words.

ghost use Rattle.std.proofs.Common.{lit≤, rules};
ghost use Rattle.std.specs.Prelude.{◌≡◌, ℕ, ◌+◌, ◌*◌, ◌/◌, ◌%◌, ◌^◌, ◌<◌, ◌≤◌, ◌↔◌, true, IsTrue};

/// A machine word: a whole number of 8 to 128 bits, which `==` compares.
///
/// # Examples
///
/// ```
/// use num_modular::word::RingWord;
///
/// fn binary_digits<T: RingWord>(n: T) -> u32 {
///     if n.is_zero_word() { 0 } else { 1 + binary_digits(n.half()) }
/// }
/// assert_eq!((binary_digits(10u8), binary_digits(1_000_000u64)), (4, 20));
/// ```
pub trait RingWord: Copy + Eq {
    // The number of a word; where a call reads a word, its clause `fits` says that the number is below 2 to the width.
    ghost number: { Self → ℕ };

    // The number of bits of a word.
    ghost width: { ℕ };

    /// The word 0.
    ///
    /// # Examples
    ///
    /// ```
    /// use num_modular::word::RingWord;
    ///
    /// assert_eq!(u8::zero(), 0);
    /// ```
    // rust: #[must_use]
    fn zero() -> Self
        ensures { number result ≡ 0 };

    /// The word 1.
    ///
    /// # Examples
    ///
    /// ```
    /// use num_modular::word::RingWord;
    ///
    /// assert_eq!(u8::one(), 1);
    /// ```
    // rust: #[must_use]
    fn one() -> Self
        ensures { number result ≡ 1 };

    /// The number of bits of a word.
    ///
    /// # Examples
    ///
    /// ```
    /// use num_modular::word::RingWord;
    ///
    /// assert_eq!((u8::bits(), u64::bits()), (8, 64));
    /// ```
    fn bits() -> u32
        ensures { result ≡ width };

    /// Whether the word is 0.
    ///
    /// # Examples
    ///
    /// ```
    /// use num_modular::word::RingWord;
    ///
    /// assert!(0u8.is_zero_word());
    /// assert!(!5u8.is_zero_word());
    /// ```
    fn is_zero_word(self) -> bool
        ensures zero { IsTrue result ↔ (number self ≡ 0) }
        ensures fits { number self < 2 ^ width };

    /// Whether the word is odd.
    ///
    /// # Examples
    ///
    /// ```
    /// use num_modular::word::RingWord;
    ///
    /// assert!(5u8.is_odd());
    /// assert!(!6u8.is_odd());
    /// ```
    fn is_odd(self) -> bool
        ensures odd { IsTrue result ↔ (number self % 2 ≡ 1) }
        ensures fits { number self < 2 ^ width };

    /// Half the word, rounded down.
    ///
    /// # Examples
    ///
    /// ```
    /// use num_modular::word::RingWord;
    ///
    /// assert_eq!(7u8.half(), 3);
    /// ```
    // rust: #[must_use]
    fn half(self) -> Self
        ensures value { number result ≡ number self / 2 }
        ensures fits { number self < 2 ^ width };

    /// Whether the top bit is set: whether the word is at least half of the base.
    ///
    /// # Examples
    ///
    /// ```
    /// use num_modular::word::RingWord;
    ///
    /// assert!(128u8.has_top_bit());
    /// assert!(!127u8.has_top_bit());
    /// ```
    fn has_top_bit(self) -> bool
        ensures top { IsTrue result ↔ (2 ^ width ≤ 2 * number self) }
        ensures fits { number self < 2 ^ width };

    // A word has from 8 to 128 bits.
    ghost width_from: { 8 ≤ width };

    ghost width_to: { width ≤ 128 };

    // Words of equal number are equal, also by `==`.
    ghost injective: { (x y : Self) → number x ≡ number y → x ≡ y };

    ghost equal: { (x y : Self) → IsTrue (Self.eq x y) ↔ (number x ≡ number y) };
}

impl RingWord for u8 {
    ghost number = { λ x. x };

    ghost width = { 8 };

    fn zero() -> u8 {
        0
    }

    fn one() -> u8 {
        1
    }

    fn bits() -> u32 {
        u8::BITS
    }

    fn is_zero_word(self) -> bool {
        self == 0
    }

    fn is_odd(self) -> bool {
        self & 1 == 1
    }

    fn half(self) -> u8 {
        self >> 1
    }

    fn has_top_bit(self) -> bool {
        self >= 1 << (u8::BITS - 1)
    }

    ghost width_from = { lit≤ tt };

    ghost width_to = { lit≤ tt };

    ghost injective = { λ x y e. e };

    ghost equal = { Prim.search rules };
}

impl RingWord for u16 {
    ghost number = { λ x. x };

    ghost width = { 16 };

    fn zero() -> u16 {
        0
    }

    fn one() -> u16 {
        1
    }

    fn bits() -> u32 {
        u16::BITS
    }

    fn is_zero_word(self) -> bool {
        self == 0
    }

    fn is_odd(self) -> bool {
        self & 1 == 1
    }

    fn half(self) -> u16 {
        self >> 1
    }

    fn has_top_bit(self) -> bool {
        self >= 1 << (u16::BITS - 1)
    }

    ghost width_from = { lit≤ tt };

    ghost width_to = { lit≤ tt };

    ghost injective = { λ x y e. e };

    ghost equal = { Prim.search rules };
}

impl RingWord for u32 {
    ghost number = { λ x. x };

    ghost width = { 32 };

    fn zero() -> u32 {
        0
    }

    fn one() -> u32 {
        1
    }

    fn bits() -> u32 {
        u32::BITS
    }

    fn is_zero_word(self) -> bool {
        self == 0
    }

    fn is_odd(self) -> bool {
        self & 1 == 1
    }

    fn half(self) -> u32 {
        self >> 1
    }

    fn has_top_bit(self) -> bool {
        self >= 1 << (u32::BITS - 1)
    }

    ghost width_from = { lit≤ tt };

    ghost width_to = { lit≤ tt };

    ghost injective = { λ x y e. e };

    ghost equal = { Prim.search rules };
}

impl RingWord for u64 {
    ghost number = { λ x. x };

    ghost width = { 64 };

    fn zero() -> u64 {
        0
    }

    fn one() -> u64 {
        1
    }

    fn bits() -> u32 {
        u64::BITS
    }

    fn is_zero_word(self) -> bool {
        self == 0
    }

    fn is_odd(self) -> bool {
        self & 1 == 1
    }

    fn half(self) -> u64 {
        self >> 1
    }

    fn has_top_bit(self) -> bool {
        self >= 1 << (u64::BITS - 1)
    }

    ghost width_from = { lit≤ tt };

    ghost width_to = { lit≤ tt };

    ghost injective = { λ x y e. e };

    ghost equal = { Prim.search rules };
}

// rust: #[cfg(target_pointer_width = "64")]
impl RingWord for usize {
    ghost number = { λ x. x };

    ghost width = { 64 };

    fn zero() -> usize {
        0
    }

    fn one() -> usize {
        1
    }

    fn bits() -> u32 {
        usize::BITS
    }

    fn is_zero_word(self) -> bool {
        self == 0
    }

    fn is_odd(self) -> bool {
        self & 1 == 1
    }

    fn half(self) -> usize {
        self >> 1
    }

    fn has_top_bit(self) -> bool {
        self >= 1 << (usize::BITS - 1)
    }

    ghost width_from = { lit≤ tt };

    ghost width_to = { lit≤ tt };

    ghost injective = { λ x y e. e };

    ghost equal = { Prim.search rules };
}

impl RingWord for u128 {
    ghost number = { λ x. x };

    ghost width = { 128 };

    fn zero() -> u128 {
        0
    }

    fn one() -> u128 {
        1
    }

    fn bits() -> u32 {
        u128::BITS
    }

    fn is_zero_word(self) -> bool {
        self == 0
    }

    fn is_odd(self) -> bool {
        self & 1 == 1
    }

    fn half(self) -> u128 {
        self >> 1
    }

    fn has_top_bit(self) -> bool {
        self >= 1 << (u128::BITS - 1)
    }

    ghost width_from = { lit≤ tt };

    ghost width_to = { lit≤ tt };

    ghost injective = { λ x y e. e };

    ghost equal = { Prim.search rules };
}
