//! Words of the size of a pointer, 64 bits, and their double words.

ghost use Rattle.std.specs.Prelude.{◌≡◌, ◌+◌, ◌*◌, ◌/◌, ◌%◌, ◌^◌, ◌≤◌};
ghost use Rattle.modular_word.specs.Division.{IsDivision};

use crate::path_word::PathWord;
use crate::paths;

/// A word.
///
/// # Examples
///
/// ```
/// use num_modular::word::wsize::Word;
///
/// let greatest: Word = 0xffff_ffff_ffff_ffff;
/// assert_eq!(greatest, usize::MAX);
/// ```
pub type Word = usize;

/// A double word, which holds the product of two words.
///
/// # Examples
///
/// ```
/// use num_modular::word::wsize::{DoubleWord, Word};
///
/// assert_eq!(DoubleWord::BITS, 2 * Word::BITS);
/// ```
pub type DoubleWord = u128;

/// The word whose low n bits are ones: 2^n - 1.
///
/// # Conditions
///
/// - (debug) n is at most 64
///
/// # Examples
///
/// ```
/// use num_modular::word::wsize::ones;
///
/// assert_eq!(ones(3), 0b111);
/// assert_eq!(ones(64), usize::MAX);
/// ```
// rust: #[cfg_attr(debug_assertions, track_caller)]
pub fn ones(n: u32) -> Word
    requires { n ≤ 64 }
    ensures { result + 1 ≡ 2 ^ n }
{
    // rust: debug_assert!(n <= Word::BITS, "n must be at most 64");
    paths::ones(n)
}

/// The word as a double word of the same number.
///
/// # Examples
///
/// ```
/// use num_modular::word::wsize::extend;
///
/// assert_eq!(extend(10_000_000_000), 10_000_000_000_u128);
/// ```
// rust instead: pub const fn extend(word: Word) -> DoubleWord
pub fn extend(word: Word) -> DoubleWord
    ensures { result ≡ word }
{
    word as DoubleWord
}

/// The low word of a double word: its number modulo 2^64.
///
/// # Examples
///
/// ```
/// use num_modular::word::wsize::low;
///
/// assert_eq!(low(0x0123_4567_89ab_cdef_fedc_ba98_7654_3210), 0xfedc_ba98_7654_3210);
/// ```
pub fn low(dw: DoubleWord) -> Word
    ensures { result ≡ dw % 2 ^ 64 }
{
    Word::split(dw).0
}

/// The high word of a double word: its number divided by 2^64, rounded down.
///
/// # Examples
///
/// ```
/// use num_modular::word::wsize::high;
///
/// assert_eq!(high(0x0123_4567_89ab_cdef_fedc_ba98_7654_3210), 0x0123_4567_89ab_cdef);
/// ```
pub fn high(dw: DoubleWord) -> Word
    ensures { result ≡ dw / 2 ^ 64 }
{
    Word::split(dw).1
}

/// The low and the high word of a double word, in this order.
///
/// # Examples
///
/// ```
/// use num_modular::word::wsize::split;
///
/// assert_eq!(split(0x0123_4567_89ab_cdef_fedc_ba98_7654_3210), (0xfedc_ba98_7654_3210, 0x0123_4567_89ab_cdef));
/// ```
pub fn split(dw: DoubleWord) -> (Word, Word)
    ensures { IsDivision dw (2 ^ 64) result.1 result.0 }
{
    Word::split(dw)
}

/// The double word of a low and a high word.
///
/// # Examples
///
/// ```
/// use num_modular::word::wsize::merge;
///
/// assert_eq!(merge(0xfedc_ba98_7654_3210, 0x0123_4567_89ab_cdef), 0x0123_4567_89ab_cdef_fedc_ba98_7654_3210);
/// ```
pub fn merge(low: Word, high: Word) -> DoubleWord
    ensures { result ≡ low + 2 ^ 64 * high }
{
    Word::merge(low, high)
}

/// The whole product of two words.
///
/// # Examples
///
/// ```
/// use num_modular::word::wsize::wmul;
///
/// assert_eq!(wmul(10_000_000_000, 3_000_000_000_000), 30_000_000_000_000_000_000_000);
/// ```
pub fn wmul(a: Word, b: Word) -> DoubleWord
    ensures { result ≡ a * b }
{
    a.product(b)
}

/// The whole square of a word.
///
/// # Examples
///
/// ```
/// use num_modular::word::wsize::wsqr;
///
/// assert_eq!(wsqr(10_000_000_000), 100_000_000_000_000_000_000);
/// ```
pub fn wsqr(a: Word) -> DoubleWord
    ensures { result ≡ a * a }
{
    a.product(a)
}

/// The remainder of a double word by a word.
///
/// # Conditions
///
/// - the modulus is at least 1
///
/// # Examples
///
/// ```
/// use num_modular::word::wsize::nrem;
///
/// assert_eq!(nrem(100_000_000_000_000_000_000, 97), 73);
/// ```
// rust: #[cfg_attr(debug_assertions, track_caller)]
// rust instead: pub const fn nrem(n: DoubleWord, d: Word) -> Word
pub fn nrem(n: DoubleWord, d: Word) -> Word
    requires { 1 ≤ d }
    ensures { result ≡ n % d }
{
    // rust: assert!(d != 0, "the modulus must be at least 1");
    (n % extend(d)) as Word
}
