//! Words with division, which the paths don't use.

ghost use Rattle.std.specs.Prelude.{◌≡◌, ℕ, ◌/◌, ◌%◌, ◌<◌, ◌≤◌};
ghost use Rattle.std.proofs.Common.{refl};

use crate::numbered::Numbered;
use modular_word::path_word::PathWord;
// rust instead: use crate::modular_word::word::{w8, w16, w32, w64};
use modular_word::word::{w8, w16, w32, w64, wsize};
// rust: #[cfg(target_pointer_width = "64")]
// rust: use crate::modular_word::word::wsize;

/// A machine word with quotients and remainders.
///
/// # Examples
///
/// ```
/// use num_modular::PlainWord;
///
/// fn gcd<T: PlainWord>(a: T, b: T) -> T {
///     if b.is_zero_word() { a } else { gcd(b, a.remainder(b)) }
/// }
/// assert_eq!((gcd(48u8, 36), gcd(1000u64, 360)), (12, 40));
/// ```
// rust instead: pub trait PlainWord: Sized + PathWord {
pub trait PlainWord: PathWord + Numbered {
    /// The quotient of two words, rounded down.
    ///
    /// # Conditions
    ///
    /// - the divisor is at least 1
    ///
    /// # Examples
    ///
    /// ```
    /// use num_modular::PlainWord;
    ///
    /// assert_eq!(100u8.quotient(7), 14);
    /// ```
    // rust: #[must_use]
    // rust: #[cfg_attr(debug_assertions, track_caller)]
    fn quotient(self, d: Self) -> Self
        requires { 1 ≤ Self.number d }
        ensures { Self.number result ≡ Self.number self / Self.number d };

    /// The remainder of two words.
    ///
    /// # Conditions
    ///
    /// - the modulus is at least 1
    ///
    /// # Examples
    ///
    /// ```
    /// use num_modular::PlainWord;
    ///
    /// assert_eq!(100u8.remainder(7), 2);
    /// ```
    // rust: #[must_use]
    // rust: #[cfg_attr(debug_assertions, track_caller)]
    fn remainder(self, d: Self) -> Self
        requires { 1 ≤ Self.number d }
        ensures value { Self.number result ≡ Self.number self % Self.number d }
        ensures fits { Self.number self < Self.base };

    /// The low word of the quotient: of a double word by a word, rounded down.
    ///
    /// # Conditions
    ///
    /// - the divisor is at least 1
    ///
    /// # Examples
    ///
    /// ```
    /// use num_modular::PlainWord;
    ///
    /// assert_eq!(u8::low_quotient(1000, 7), 142);
    /// assert_eq!(u8::low_quotient(2000, 7), 29); // 285 - 256
    /// ```
    // rust: #[must_use]
    // rust: #[cfg_attr(debug_assertions, track_caller)]
    fn low_quotient(double: Self::Double, d: Self) -> Self
        requires { 1 ≤ Self.number d }
        ensures value { Self.number result ≡ (Self.double_number double / Self.number d) % Self.base }
        ensures fits { Self.number d < Self.base };

    /// The remainder of a double word.
    ///
    /// # Conditions
    ///
    /// - the modulus is at least 1
    ///
    /// # Examples
    ///
    /// ```
    /// use num_modular::PlainWord;
    ///
    /// assert_eq!(u8::narrow_remainder(2000, 7), 5);
    /// ```
    // rust: #[must_use]
    // rust: #[cfg_attr(debug_assertions, track_caller)]
    fn narrow_remainder(double: Self::Double, d: Self) -> Self
        requires { 1 ≤ Self.number d }
        ensures value { Self.number result ≡ Self.double_number double % Self.number d }
        ensures fits { Self.number d < Self.base };

    // The number of a word is its whole number.
    ghost numbered: { (x : Self) → Self.whole_number x ≡ Self.number x };
}

impl PlainWord for u8 {
    // rust: #[cfg_attr(debug_assertions, track_caller)]
    fn quotient(self, d: u8) -> u8 {
        // rust: assert!(d != 0, "the divisor must be at least 1");
        self / d
    }

    // rust: #[cfg_attr(debug_assertions, track_caller)]
    fn remainder(self, d: u8) -> u8 {
        // rust: assert!(d != 0, "the modulus must be at least 1");
        self % d
    }

    // rust: #[cfg_attr(debug_assertions, track_caller)]
    fn low_quotient(double: u16, d: u8) -> u8 {
        // rust: assert!(d != 0, "the divisor must be at least 1");
        ((double / d as u16) & 0xff) as u8
    }

    // rust: #[cfg_attr(debug_assertions, track_caller)]
    fn narrow_remainder(double: u16, d: u8) -> u8 {
        w8::nrem(double, d)
    }

    ghost numbered = { λ x. refl };
}

impl PlainWord for u16 {
    // rust: #[cfg_attr(debug_assertions, track_caller)]
    fn quotient(self, d: u16) -> u16 {
        // rust: assert!(d != 0, "the divisor must be at least 1");
        self / d
    }

    // rust: #[cfg_attr(debug_assertions, track_caller)]
    fn remainder(self, d: u16) -> u16 {
        // rust: assert!(d != 0, "the modulus must be at least 1");
        self % d
    }

    // rust: #[cfg_attr(debug_assertions, track_caller)]
    fn low_quotient(double: u32, d: u16) -> u16 {
        // rust: assert!(d != 0, "the divisor must be at least 1");
        ((double / d as u32) & 0xffff) as u16
    }

    // rust: #[cfg_attr(debug_assertions, track_caller)]
    fn narrow_remainder(double: u32, d: u16) -> u16 {
        w16::nrem(double, d)
    }

    ghost numbered = { λ x. refl };
}

impl PlainWord for u32 {
    // rust: #[cfg_attr(debug_assertions, track_caller)]
    fn quotient(self, d: u32) -> u32 {
        // rust: assert!(d != 0, "the divisor must be at least 1");
        self / d
    }

    // rust: #[cfg_attr(debug_assertions, track_caller)]
    fn remainder(self, d: u32) -> u32 {
        // rust: assert!(d != 0, "the modulus must be at least 1");
        self % d
    }

    // rust: #[cfg_attr(debug_assertions, track_caller)]
    fn low_quotient(double: u64, d: u32) -> u32 {
        // rust: assert!(d != 0, "the divisor must be at least 1");
        ((double / d as u64) & 0xffff_ffff) as u32
    }

    // rust: #[cfg_attr(debug_assertions, track_caller)]
    fn narrow_remainder(double: u64, d: u32) -> u32 {
        w32::nrem(double, d)
    }

    ghost numbered = { λ x. refl };
}

impl PlainWord for u64 {
    // rust: #[cfg_attr(debug_assertions, track_caller)]
    fn quotient(self, d: u64) -> u64 {
        // rust: assert!(d != 0, "the divisor must be at least 1");
        self / d
    }

    // rust: #[cfg_attr(debug_assertions, track_caller)]
    fn remainder(self, d: u64) -> u64 {
        // rust: assert!(d != 0, "the modulus must be at least 1");
        self % d
    }

    // rust: #[cfg_attr(debug_assertions, track_caller)]
    fn low_quotient(double: u128, d: u64) -> u64 {
        // rust: assert!(d != 0, "the divisor must be at least 1");
        ((double / d as u128) & 0xffff_ffff_ffff_ffff) as u64
    }

    // rust: #[cfg_attr(debug_assertions, track_caller)]
    fn narrow_remainder(double: u128, d: u64) -> u64 {
        w64::nrem(double, d)
    }

    ghost numbered = { λ x. refl };
}

// rust: #[cfg(target_pointer_width = "64")]
impl PlainWord for usize {
    // rust: #[cfg_attr(debug_assertions, track_caller)]
    fn quotient(self, d: usize) -> usize {
        // rust: assert!(d != 0, "the divisor must be at least 1");
        self / d
    }

    // rust: #[cfg_attr(debug_assertions, track_caller)]
    fn remainder(self, d: usize) -> usize {
        // rust: assert!(d != 0, "the modulus must be at least 1");
        self % d
    }

    // rust: #[cfg_attr(debug_assertions, track_caller)]
    fn low_quotient(double: u128, d: usize) -> usize {
        // rust: assert!(d != 0, "the divisor must be at least 1");
        ((double / d as u128) & 0xffff_ffff_ffff_ffff) as usize
    }

    // rust: #[cfg_attr(debug_assertions, track_caller)]
    fn narrow_remainder(double: u128, d: usize) -> usize {
        wsize::nrem(double, d)
    }

    ghost numbered = { λ x. refl };
}
