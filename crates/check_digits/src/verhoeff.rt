//! Verhoeff's check digit.

ghost use Rattle.std.specs.Prelude.{◌≡◌, ◌≤◌, ◌↔◌, IsTrue, All};
ghost use Rattle.check_digits.specs.Codes.{IsCompletion};
ghost use Rattle.check_digits.specs.Verhoeff.{dihedral, image, verhoeff_product, IsVerhoeff};

use crate::are_digits;

// The digits at the places 0 to 7, permuted as many times; at place 8 they are themselves again.
#[rattlefmt::skip]
const IMAGES: [u64; 80] = [
    0, 1, 2, 3, 4, 5, 6, 7, 8, 9,
    1, 5, 7, 6, 2, 8, 3, 0, 9, 4,
    5, 8, 0, 3, 7, 9, 6, 1, 4, 2,
    8, 9, 1, 6, 0, 4, 3, 5, 2, 7,
    9, 4, 5, 3, 1, 2, 6, 8, 7, 0,
    4, 2, 8, 6, 5, 7, 3, 9, 0, 1,
    2, 7, 9, 3, 8, 0, 6, 4, 1, 5,
    7, 0, 4, 6, 9, 1, 3, 2, 5, 8,
];

// The product of two symmetries of the pentagon.
fn dihedral(a: u64, b: u64) -> u64
    requires first { a ≤ 9 }
    requires second { b ≤ 9 }
    ensures { result ≡ dihedral a b }
{
    let turns = if a < 5 { a + b } else { a + 5 - b };
    turns % 5 + 5 * ((a / 5 + b / 5) % 2)
}

// The digit, permuted as many times as its place says.
fn image(place: usize, digit: u64) -> u64
    requires { digit ≤ 9 }
    ensures value { result ≡ image place digit }
    ensures small { result ≤ 9 }
{
    IMAGES[10 * (place % 8) + digit as usize]
}

// The product of the images of the digits, the last one's place being `first`.
fn product(word: &[u64], first: usize) -> u64
    requires digits { All (λ d. d ≤ 9) word.now }
    requires first { first ≤ 1 }
    ensures value { result ≡ verhoeff_product first word.now }
    ensures small { result ≤ 9 }
{
    let mut product = 0;
    'places: for place in 0..word.len() {
        let digit = word[word.len() - 1 - place];
        product = dihedral(product, image(place + first, digit));
    }
    product
}

/// Whether the last digit is right by this method: Verhoeff's.
///
/// There is at least one digit, each is at most 9, and the product of their images in the dihedral group of order 10 is
/// 0. The image of a digit is the digit permuted as many times as there are digits behind it.
///
/// It detects every change of one digit, and every exchange of two neighbours that differ.
///
/// Source: J. Verhoeff, "Error detecting decimal codes", 1969.
///
/// # Examples
///
/// ```
/// use num_modular::applications::check_digits::accepts_verhoeff;
///
/// assert!(accepts_verhoeff(&[2, 3, 6, 3]));
/// assert!(!accepts_verhoeff(&[3, 2, 6, 3]));
/// ```
pub fn accepts_verhoeff(word: &[u64]) -> bool
    ensures { IsTrue result ↔ IsVerhoeff word.now }
{
    if word.is_empty() || !are_digits(word) {
        return false;
    }
    product(word, 0) == 0
}

/// The check digit behind the word: the only digit that makes it one that [`accepts_verhoeff`] accepts.
///
/// `None` exactly where a symbol of the word is above 9.
///
/// # Examples
///
/// ```
/// use num_modular::applications::check_digits::verhoeff_check_digit;
///
/// assert_eq!(verhoeff_check_digit(&[2, 3, 6]), Some(3));
/// ```
pub fn verhoeff_check_digit(word: &[u64]) -> Option<u64>
    ensures { IsCompletion 10 IsVerhoeff word.now result }
{
    if !are_digits(word) {
        return None;
    }
    let product = product(word, 1);
    if product < 5 {
        Some((5 - product) % 5)
    } else {
        Some(product)
    }
}
