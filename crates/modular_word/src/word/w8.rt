//! Words of 8 bits, and their double words.

ghost use Rattle.std.specs.Prelude.{◌≡◌, ◌+◌, ◌*◌, ◌/◌, ◌%◌, ◌^◌, ◌≤◌};
ghost use Rattle.modular_word.specs.Division.{IsDivision};

use crate::path_word::PathWord;
use crate::paths;

/// A word.
///
/// # Examples
///
/// ```
/// use num_modular::word::w8::Word;
///
/// let greatest: Word = 0xff;
/// assert_eq!(greatest, u8::MAX);
/// ```
pub type Word = u8;

/// A double word, which holds the product of two words.
///
/// # Examples
///
/// ```
/// use num_modular::word::w8::{DoubleWord, Word};
///
/// assert_eq!(DoubleWord::BITS, 2 * Word::BITS);
/// ```
pub type DoubleWord = u16;

/// The word whose low n bits are ones: 2^n - 1.
///
/// # Conditions
///
/// - (debug) n is at most 8
///
/// # Examples
///
/// ```
/// use num_modular::word::w8::ones;
///
/// assert_eq!(ones(3), 0b111);
/// assert_eq!(ones(8), u8::MAX);
/// ```
// rust: #[cfg_attr(debug_assertions, track_caller)]
pub fn ones(n: u32) -> Word
    requires { n ≤ 8 }
    ensures { result + 1 ≡ 2 ^ n }
{
    // rust: debug_assert!(n <= Word::BITS, "n must be at most 8");
    paths::ones(n)
}

/// The word as a double word of the same number.
///
/// # Examples
///
/// ```
/// use num_modular::word::w8::extend;
///
/// assert_eq!(extend(200), 200u16);
/// ```
// rust instead: pub const fn extend(word: Word) -> DoubleWord
pub fn extend(word: Word) -> DoubleWord
    ensures { result ≡ word }
{
    word as DoubleWord
}

/// The low word of a double word: its number modulo 2^8.
///
/// # Examples
///
/// ```
/// use num_modular::word::w8::low;
///
/// assert_eq!(low(0x1234), 0x34);
/// ```
pub fn low(dw: DoubleWord) -> Word
    ensures { result ≡ dw % 2 ^ 8 }
{
    Word::split(dw).0
}

/// The high word of a double word: its number divided by 2^8, rounded down.
///
/// # Examples
///
/// ```
/// use num_modular::word::w8::high;
///
/// assert_eq!(high(0x1234), 0x12);
/// ```
pub fn high(dw: DoubleWord) -> Word
    ensures { result ≡ dw / 2 ^ 8 }
{
    Word::split(dw).1
}

/// The low and the high word of a double word, in this order.
///
/// # Examples
///
/// ```
/// use num_modular::word::w8::split;
///
/// assert_eq!(split(0x1234), (0x34, 0x12));
/// ```
pub fn split(dw: DoubleWord) -> (Word, Word)
    ensures { IsDivision dw (2 ^ 8) result.1 result.0 }
{
    Word::split(dw)
}

/// The double word of a low and a high word.
///
/// # Examples
///
/// ```
/// use num_modular::word::w8::merge;
///
/// assert_eq!(merge(0x34, 0x12), 0x1234);
/// ```
pub fn merge(low: Word, high: Word) -> DoubleWord
    ensures { result ≡ low + 2 ^ 8 * high }
{
    Word::merge(low, high)
}

/// The whole product of two words.
///
/// # Examples
///
/// ```
/// use num_modular::word::w8::wmul;
///
/// assert_eq!(wmul(200, 100), 20_000);
/// ```
pub fn wmul(a: Word, b: Word) -> DoubleWord
    ensures { result ≡ a * b }
{
    a.product(b)
}

/// The whole square of a word.
///
/// # Examples
///
/// ```
/// use num_modular::word::w8::wsqr;
///
/// assert_eq!(wsqr(200), 40_000);
/// ```
pub fn wsqr(a: Word) -> DoubleWord
    ensures { result ≡ a * a }
{
    a.product(a)
}

/// The remainder of a double word by a word.
///
/// # Conditions
///
/// - the modulus is at least 1
///
/// # Examples
///
/// ```
/// use num_modular::word::w8::nrem;
///
/// assert_eq!(nrem(1_000, 97), 30);
/// ```
// rust: #[cfg_attr(debug_assertions, track_caller)]
// rust instead: pub const fn nrem(n: DoubleWord, d: Word) -> Word
pub fn nrem(n: DoubleWord, d: Word) -> Word
    requires { 1 ≤ d }
    ensures { result ≡ n % d }
{
    // rust: assert!(d != 0, "the modulus must be at least 1");
    (n % extend(d)) as Word
}
