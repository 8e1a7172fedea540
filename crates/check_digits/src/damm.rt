//! Damm's check digit.

ghost use Rattle.std.specs.Prelude.{◌≡◌, ◌≤◌, ◌↔◌, IsTrue, All};
ghost use Rattle.check_digits.specs.Codes.{IsCompletion};
ghost use Rattle.check_digits.specs.Damm.{damm_product, damm_check, IsDamm};

use crate::are_digits;

// Damm's quasigroup, row by row.
#[rattlefmt::skip]
const TABLE: [u64; 100] = [
    0, 3, 1, 7, 5, 9, 8, 6, 4, 2,
    7, 0, 9, 2, 1, 5, 4, 8, 6, 3,
    4, 2, 0, 6, 8, 7, 1, 3, 5, 9,
    1, 7, 5, 0, 9, 8, 3, 4, 2, 6,
    6, 1, 2, 3, 0, 4, 5, 9, 7, 8,
    3, 6, 7, 4, 2, 0, 9, 5, 8, 1,
    5, 8, 6, 9, 7, 2, 0, 1, 3, 4,
    8, 9, 4, 5, 3, 6, 2, 0, 1, 7,
    9, 4, 3, 8, 6, 1, 7, 2, 0, 5,
    2, 5, 8, 1, 4, 3, 6, 7, 9, 0,
];

// The element in row a and column b.
fn product(a: u64, b: u64) -> u64
    requires first { a ≤ 9 }
    requires second { b ≤ 9 }
    ensures { result ≡ damm_product a b }
{
    TABLE[(10 * a + b) as usize]
}

// The product of the digits from the left.
fn check(word: &[u64]) -> u64
    requires { All (λ d. d ≤ 9) word.now }
    ensures value { result ≡ damm_check word.now }
    ensures small { result ≤ 9 }
{
    let mut state = 0;
    'digits: for digit in word {
        state = product(state, *digit);
    }
    state
}

/// Whether the last digit is right by this method: Damm's.
///
/// There is at least one digit, each is at most 9, and their product from the left, from 0 on, is 0 in Damm's
/// quasigroup of order 10.
///
/// It detects every change of one digit, and every exchange of two neighbours that differ.
///
/// Source: H. M. Damm, "Total anti-symmetrische Quasigruppen", 2004.
///
/// # Examples
///
/// ```
/// use num_modular::applications::check_digits::accepts_damm;
///
/// assert!(accepts_damm(&[5, 7, 2, 4]));
/// assert!(!accepts_damm(&[5, 2, 7, 4]));
/// ```
pub fn accepts_damm(word: &[u64]) -> bool
    ensures { IsTrue result ↔ IsDamm word.now }
{
    if word.is_empty() || !are_digits(word) {
        return false;
    }
    check(word) == 0
}

/// The check digit behind the word: the only digit that makes it one that [`accepts_damm`] accepts.
///
/// `None` exactly where a symbol of the word is above 9.
///
/// # Examples
///
/// ```
/// use num_modular::applications::check_digits::damm_check_digit;
///
/// assert_eq!(damm_check_digit(&[5, 7, 2]), Some(4));
/// ```
pub fn damm_check_digit(word: &[u64]) -> Option<u64>
    ensures { IsCompletion 10 IsDamm word.now result }
{
    if are_digits(word) {
        Some(check(word))
    } else {
        None
    }
}
