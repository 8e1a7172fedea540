//! Luhn's check digit, by which payment cards and the numbers of mobile devices (IMEI) are checked.

ghost use Rattle.std.specs.Prelude.{◌≡◌, ◌%◌, ◌≤◌, ◌↔◌, IsTrue, All, length};
ghost use Rattle.check_digits.specs.Codes.{IsCompletion};
ghost use Rattle.check_digits.specs.Luhn.{luhn_value, luhn_sum, IsLuhn};

use crate::are_digits;

// What a digit counts at a place.
fn value(place: usize, digit: u64) -> u64
    requires { digit ≤ 9 }
    ensures value { result ≡ luhn_value place digit }
    ensures small { result ≤ 9 }
{
    if place % 2 == 0 {
        return digit;
    }
    2 * digit / 10 + 2 * digit % 10
}

// The sum of what the digits count at the first of so many places, modulo 10.
fn sum(word: &[u64], places: usize) -> u64
    requires digits { All (λ d. d ≤ 9) word.now }
    requires room { length word.now ≤ places }
    ensures { result ≡ luhn_sum places word.now % 10 }
{
    let mut sum = 0;
    'places: for (index, digit) in word.iter().enumerate() {
        sum = (sum + value(places - 1 - index, *digit)) % 10;
    }
    sum
}

/// Whether the last digit is right by this method: Luhn's.
///
/// There is at least one digit, each is at most 9, and their sum is a multiple of 10, where from the right every second
/// one is doubled and the digits of the double are added.
///
/// It detects every change of one digit, and every exchange of two neighbours that differ, except 09 and 90.
///
/// Source: ISO/IEC 7812-1, annex B.
///
/// # Examples
///
/// ```
/// use num_modular::applications::check_digits::accepts_luhn;
///
/// assert!(accepts_luhn(&[7, 9, 9, 2, 7, 3, 9, 8, 7, 1, 3]));
/// assert!(!accepts_luhn(&[7, 9, 9, 2, 7, 3, 9, 8, 7, 1, 0]));
/// ```
pub fn accepts_luhn(word: &[u64]) -> bool
    ensures { IsTrue result ↔ IsLuhn word.now }
{
    if word.is_empty() || !are_digits(word) {
        return false;
    }
    sum(word, word.len()) == 0
}

/// The check digit behind the word: the only digit that makes it one that [`accepts_luhn`] accepts.
///
/// `None` exactly where a symbol of the word is above 9.
///
/// # Examples
///
/// ```
/// use num_modular::applications::check_digits::luhn_check_digit;
///
/// assert_eq!(luhn_check_digit(&[7, 9, 9, 2, 7, 3, 9, 8, 7, 1]), Some(3));
/// ```
pub fn luhn_check_digit(word: &[u64]) -> Option<u64>
    ensures { IsCompletion 10 IsLuhn word.now result }
{
    if are_digits(word) {
        Some((10 - sum(word, word.len() + 1)) % 10)
    } else {
        None
    }
}
